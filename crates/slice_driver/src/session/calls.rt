// A call for each command on the graph, which returns what this command can answer.
ghost use Rattle.std.specs.Prelude.{◌≡◌, ◌≤◌};
ghost use Rattle.gz_names.specs.declared.commands.GraphCmd.TheVariants as cmd;
ghost use Rattle.gz_names.specs.declared.limits.TheConstants.{FIELD_LIMIT};
ghost use Rattle.gz_names.specs.declared.replies.Reply.{Reply};
ghost use Rattle.gz_names.specs.declared.replies.Reply.TheVariants as reply;
ghost use Rattle.colour_defs.specs.Step.{HasFewFields, named_or_null};
ghost use Rattle.collection_laws.specs.Replies.{IsReplyTo, Says, accepted, accepted_or_absent};
ghost use Rattle.slice_driver.specs.SessionCommands.{SessionDoes};
ghost use Rattle.slice_driver.specs.Sessions.{as_reply, replied};

use super::{Session, SessionFault, SessionReply};
use gz_names::{CompNo, GraphCmd, GrayNo, Name, Reg, ZoneNo};
use sweeping::Sweeper;

// What commands of one form answer.
pub(super) trait Answer: Sized {
    // The reply that says it.
    ghost saying: { Self → Reply };

    // What a reply says.
    fn of(reply: SessionReply) -> Self
        requires { Says saying (as_reply reply) }
        ensures { saying result ≡ as_reply reply };
}

// A zone that was made.
impl Answer for ZoneNo {
    ghost saying = { reply.Zone };

    fn of(reply: SessionReply) -> Self {
        match reply {
            SessionReply::Zone(zone) => zone,
            SessionReply::Comp(_)
            | SessionReply::Made(_)
            | SessionReply::Named(_)
            | SessionReply::Null
            | SessionReply::Accepted
            | SessionReply::Absent => unreachable!(),
        }
    }
}

// A compartment that was made.
impl Answer for CompNo {
    ghost saying = { reply.Comp };

    fn of(reply: SessionReply) -> Self {
        match reply {
            SessionReply::Comp(comp) => comp,
            SessionReply::Zone(_)
            | SessionReply::Made(_)
            | SessionReply::Named(_)
            | SessionReply::Null
            | SessionReply::Accepted
            | SessionReply::Absent => unreachable!(),
        }
    }
}

// The number of an object or a map that was made.
impl Answer for u64 {
    ghost saying = { reply.Made };

    fn of(reply: SessionReply) -> Self {
        match reply {
            SessionReply::Made(number) => number,
            SessionReply::Zone(_)
            | SessionReply::Comp(_)
            | SessionReply::Named(_)
            | SessionReply::Null
            | SessionReply::Accepted
            | SessionReply::Absent => unreachable!(),
        }
    }
}

// What a register holds now.
impl Answer for Name {
    ghost saying = { reply.Named };

    fn of(reply: SessionReply) -> Self {
        match reply {
            SessionReply::Named(name) => name,
            SessionReply::Zone(_)
            | SessionReply::Comp(_)
            | SessionReply::Made(_)
            | SessionReply::Null
            | SessionReply::Accepted
            | SessionReply::Absent => unreachable!(),
        }
    }
}

// What a register holds now, if it holds something.
impl Answer for Option<Name> {
    ghost saying = { named_or_null };

    fn of(reply: SessionReply) -> Self {
        match reply {
            SessionReply::Named(name) => Some(name),
            SessionReply::Null => None,
            SessionReply::Zone(_)
            | SessionReply::Comp(_)
            | SessionReply::Made(_)
            | SessionReply::Accepted
            | SessionReply::Absent => unreachable!(),
        }
    }
}

// That a command is done.
impl Answer for () {
    ghost saying = { accepted };

    fn of(reply: SessionReply) -> Self {
        match reply {
            SessionReply::Accepted => (),
            SessionReply::Zone(_)
            | SessionReply::Comp(_)
            | SessionReply::Made(_)
            | SessionReply::Named(_)
            | SessionReply::Null
            | SessionReply::Absent => unreachable!(),
        }
    }
}

// Whether there was an entry.
impl Answer for bool {
    ghost saying = { accepted_or_absent };

    fn of(reply: SessionReply) -> Self {
        match reply {
            SessionReply::Accepted => true,
            SessionReply::Absent => false,
            SessionReply::Zone(_)
            | SessionReply::Comp(_)
            | SessionReply::Made(_)
            | SessionReply::Named(_)
            | SessionReply::Null => unreachable!(),
        }
    }
}

impl<S: Sweeper> Session<S> {
    // Does a command whose replies say what the caller asks for.
    fn ask<T: Answer>(&mut self, cmd: GraphCmd) -> Result<T, SessionFault>
        requires fields { HasFewFields cmd }
        requires says { (r : Reply) → IsReplyTo cmd r → Says T.saying r }
        ensures done { SessionDoes S.bits cmd (replied T.saying result) self.old self.new }
    {
        let reply = self.command(cmd)?;
        Ok(T::of(reply))
    }

    /// Makes the next zone.
    pub fn new_zone(&mut self) -> Result<ZoneNo, SessionFault>
        ensures done { SessionDoes S.bits cmd.Zone (replied reply.Zone result) self.old self.new }
    {
        self.ask(GraphCmd::Zone)
    }

    /// Makes the next compartment, in a zone.
    pub fn new_compartment(&mut self, zone: ZoneNo) -> Result<CompNo, SessionFault>
        ensures done { SessionDoes S.bits (cmd.Comp zone) (replied reply.Comp result) self.old
            self.new }
    {
        self.ask(GraphCmd::Comp(zone))
    }

    /// Makes an object with this many null fields, at most 8, which the register holds. Returns its
    /// number, which is the next one of objects and maps.
    pub fn new_object(
        &mut self,
        register: Reg,
        compartment: CompNo,
        fields: u8,
    ) -> Result<u64, SessionFault>
        requires fields { fields ≤ FIELD_LIMIT }
        ensures done { SessionDoes S.bits (cmd.New register compartment fields)
            (replied reply.Made result) self.old self.new }
    {
        self.ask(GraphCmd::New(register, compartment, fields))
    }

    /// Makes a weak map without entries, which the register holds. Returns its number, which is the next
    /// one of objects and maps.
    pub fn new_map(&mut self, register: Reg, compartment: CompNo) -> Result<u64, SessionFault>
        ensures done { SessionDoes S.bits (cmd.Map register compartment)
            (replied reply.Made result) self.old self.new }
    {
        self.ask(GraphCmd::Map(register, compartment))
    }

    /// The register holds what a field of an object holds, which another register holds. Returns it;
    /// `None` if the field is null.
    pub fn get(
        &mut self,
        register: Reg,
        object: Reg,
        field: u8,
    ) -> Result<Option<Name>, SessionFault>
        ensures done { SessionDoes S.bits (cmd.Get register object field)
            (replied named_or_null result) self.old self.new }
    {
        self.ask(GraphCmd::Get(register, object, field))
    }

    /// A field of an object, which a register holds, holds what another register holds, or null.
    pub fn set(&mut self, object: Reg, field: u8, value: Option<Reg>) -> Result<(), SessionFault>
        ensures done { SessionDoes S.bits (cmd.Set object field value) (replied accepted result)
            self.old self.new }
    {
        self.ask(GraphCmd::Set(object, field, value))
    }

    /// The register holds the cell of another one as a compartment sees it: itself, or its wrapper there.
    /// Returns which.
    pub fn wrap(
        &mut self,
        register: Reg,
        cell: Reg,
        compartment: CompNo,
    ) -> Result<Name, SessionFault>
        ensures done { SessionDoes S.bits (cmd.Wrap register cell compartment)
            (replied reply.Named result) self.old self.new }
    {
        self.ask(GraphCmd::Wrap(register, cell, compartment))
    }

    /// The register holds the target of a wrapper, which another register holds. Returns it.
    pub fn unwrap(&mut self, register: Reg, wrapper: Reg) -> Result<Name, SessionFault>
        ensures done { SessionDoes S.bits (cmd.Unwrap register wrapper)
            (replied reply.Named result) self.old self.new }
    {
        self.ask(GraphCmd::Unwrap(register, wrapper))
    }

    /// The register holds what another one holds.
    pub fn copy(&mut self, register: Reg, from: Reg) -> Result<(), SessionFault>
        ensures done { SessionDoes S.bits (cmd.Copy register from) (replied accepted result)
            self.old self.new }
    {
        self.ask(GraphCmd::Copy(register, from))
    }

    /// The register becomes empty.
    pub fn drop_register(&mut self, register: Reg) -> Result<(), SessionFault>
        ensures done { SessionDoes S.bits (cmd.Drop register) (replied accepted result) self.old
            self.new }
    {
        self.ask(GraphCmd::Drop(register))
    }

    /// The gray slot holds what the register holds.
    pub fn hold(&mut self, slot: GrayNo, register: Reg) -> Result<(), SessionFault>
        ensures done { SessionDoes S.bits (cmd.Hold slot register) (replied accepted result)
            self.old self.new }
    {
        self.ask(GraphCmd::Hold(slot, register))
    }

    /// The gray slot becomes empty.
    pub fn release(&mut self, slot: GrayNo) -> Result<(), SessionFault>
        ensures done { SessionDoes S.bits (cmd.Release slot) (replied accepted result) self.old
            self.new }
    {
        self.ask(GraphCmd::Release(slot))
    }

    /// The register holds what the gray slot holds, exposed. Returns it; `None` if the slot is empty.
    pub fn expose(&mut self, register: Reg, slot: GrayNo) -> Result<Option<Name>, SessionFault>
        ensures done { SessionDoes S.bits (cmd.Expose register slot)
            (replied named_or_null result) self.old self.new }
    {
        self.ask(GraphCmd::Expose(register, slot))
    }

    /// The entry of a map's key has a value. Registers hold the three.
    pub fn put(&mut self, map: Reg, key: Reg, value: Reg) -> Result<(), SessionFault>
        ensures done { SessionDoes S.bits (cmd.Put map key value) (replied accepted result)
            self.old self.new }
    {
        self.ask(GraphCmd::Put(map, key, value))
    }

    /// The entry of a map's key is removed. Returns whether there was one.
    pub fn delete(&mut self, map: Reg, key: Reg) -> Result<bool, SessionFault>
        ensures done { SessionDoes S.bits (cmd.Del map key) (replied accepted_or_absent result)
            self.old self.new }
    {
        self.ask(GraphCmd::Del(map, key))
    }

    /// The register holds the value of a map's key. Returns it; `None` if there is no such entry.
    pub fn find(&mut self, register: Reg, map: Reg, key: Reg) -> Result<Option<Name>, SessionFault>
        ensures done { SessionDoes S.bits (cmd.Find register map key)
            (replied named_or_null result) self.old self.new }
    {
        self.ask(GraphCmd::Find(register, map, key))
    }
}
