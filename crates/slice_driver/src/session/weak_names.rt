// Weak slots and watched cells: an engine's weak references, and its finalization registry.
ghost use Rattle.std.specs.Prelude.{Ok};
ghost use Rattle.collection_laws.specs.Replies.{Says, accepted, accepted_or_absent};
ghost use Rattle.colour_defs.specs.Step.{named_or_null};
ghost use Rattle.gz_names.specs.declared.commands.WeakCmd.TheVariants as cmd;
ghost use Rattle.gz_names.specs.declared.replies.Reply.{Reply};
ghost use Rattle.gz_names.specs.declared.replies.Reply.TheVariants as reply;
ghost use Rattle.slice_driver.specs.Sessions.{as_reply, replied};
ghost use Rattle.slice_driver.specs.WeakCalls.{IsWeakReplyTo, WeakCalled, WeakReturns};

use super::calls::Answer;
use super::{Session, SessionFault, SessionReply, result_of};
use crate::counted::weak_command;
use gz_names::{Name, Reg, WeakCmd, WeakNo};
use std::marker::Brand;
use std::sync::ledger::Blank;
use sweeping::Sweeper;

impl<S: Sweeper> Session<S> {
    /// Does a command on weak slots and watched cells, also between two steps of a collection. `Watch` and
    /// `Unwatch` are refused where their register is empty. Only `Watch` returns `NoMemory`, and only for a cell
    /// that is not watched. In both cases nothing changed.
    ///
    /// A command that is no value of the program's has a call of its own, from `weaken` to `unwatch`, which
    /// returns what that command can answer.
    pub fn weak_command(&mut self, cmd: WeakCmd) -> Result<SessionReply, SessionFault>
        ensures { WeakReturns S.bits self.old cmd (replied as_reply result) self.new }
    {
        let outcome = weak_command::<S, Brand>(
            &mut self.collector,
            &mut self.sweeper,
            cmd,
            Blank::new(1),
        );
        result_of(outcome)
    }

    // Does a command whose replies say what the caller asks for.
    fn ask_weak<T: Answer>(&mut self, cmd: WeakCmd) -> Result<T, SessionFault>
        requires says { (r : Reply) → IsWeakReplyTo cmd r → Says T.saying r }
        ensures { WeakReturns S.bits self.old cmd (replied T.saying result) self.new }
    {
        let reply = self.weak_command(cmd)?;
        Ok(T::of(reply))
    }

    /// A weak slot names what a register holds, or becomes empty. It keeps no cell: when its cell dies, it
    /// becomes empty.
    pub fn weaken(&mut self, slot: WeakNo, register: Reg)
        ensures { WeakCalled S.bits self.old (cmd.Weaken slot register) (Ok reply.Accepted) self.new }
    {
        match self.ask_weak(WeakCmd::Weaken(slot, register)) {
            Ok(done) => done,
            Err(_) => unreachable!(),
        }
    }

    /// The register holds what a weak slot names, exposed, or becomes empty. Returns what it holds.
    pub fn deref(&mut self, register: Reg, slot: WeakNo) -> Option<Name>
        ensures { WeakCalled S.bits self.old (cmd.Deref register slot) (Ok (named_or_null result))
            self.new }
    {
        match self.ask_weak(WeakCmd::Deref(register, slot)) {
            Ok(found) => found,
            Err(_) => unreachable!(),
        }
    }

    /// What a register holds is watched: the report of the group's end with which it dies tells its name, once.
    /// To watch a cell twice is as once. It is refused where the register is empty.
    pub fn watch(&mut self, register: Reg) -> Result<(), SessionFault>
        ensures { WeakReturns S.bits self.old (cmd.Watch register) (replied accepted result) self.new }
    {
        self.ask_weak(WeakCmd::Watch(register))
    }

    /// What a register holds is watched no longer. Returns whether it was. It is refused where the register is
    /// empty, and returns no other fault.
    pub fn unwatch(&mut self, register: Reg) -> Result<bool, SessionFault>
        ensures { WeakReturns S.bits self.old (cmd.Unwatch register)
            (replied accepted_or_absent result) self.new }
    {
        self.ask_weak(WeakCmd::Unwatch(register))
    }
}
