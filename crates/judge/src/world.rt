// The world of the definitions, but for the graph: the present cells and their places, what is black, and the
// collection.
ghost use Rattle.std.specs.Prelude.{◌≡◌, ◌≢◌, ◌↔◌, ◌<◌, ◌∷◌, ℕ, [], Contains, IfNone, IfOk, IfSome, IsTrue, None};
ghost use Rattle.std.specs.Prelude.{OnOk, Some, false};
ghost use Rattle.gz_names.specs.Zones.{HasZone, zones_in};
ghost use Rattle.gz_names.specs.declared.zone_sets.ZoneSet.{ZoneSet as AZoneSet};
ghost use Rattle.colour_defs.specs.Ends.{Lists};
ghost use Rattle.judge.specs.Arenas.{owners_in};
ghost use Rattle.colour_defs.specs.World.{target_cell};
ghost use Rattle.judge.specs.Cells.{GivesPlace, GivesPlaces, HasCell, also_woken_in, made_in, named_in, woken_in};
ghost use Rattle.judge.specs.Cells.{wrapper_in};
ghost use Rattle.judge.specs.LeftOut.{IsEither};
ghost use Rattle.judge.specs.Places.{AreLaid};
ghost use Rattle.judge.specs.Bounds.{arena_count, tally_of, with_arenas};
ghost use Rattle.judge.specs.Former.{Takes};
ghost use Rattle.judge.specs.declared.former.Change.TheVariants as change;
ghost use Rattle.judge.specs.Starts.{LeavesOut};
ghost use Rattle.judge.specs.Walks.{GoesOnFrom, IsBlackBy, left_out_of, walks_of};

use crate::arenas::Arenas;
use crate::collection::Collection;
use crate::compaction::{Compacted, filled, free_places, lying_in, place_at};
use crate::former::{Change, Former, is_in};
use crate::places::{lay, shift};
use crate::preparation::{Preparation, target_of};
use crate::tally::{Tally, counts_entry, is_wrapper_in, marking_tally, with_one};
use crate::weak::WeakNames;
use crate::whites::Whites;
use gz_names::{GraphCmd, Name, NameList, NoMemory, Place, Refusal, Reg, Reply, ZoneNo, ZoneSet};
use plain_graph::{Graph, Walk};
use std::alloc::{AllocError, Global};
use std::collections::BTreeMap;

/// Where a collection stands.
#[derive(Drop)]
pub enum Phase {
    /// None runs.
    Idle,
    /// Its zones are being prepared.
    Preparing(Preparation),
    /// It marks or sweeps.
    Collecting(Collection),
}

/// Which report is due.
#[derive(Clone, Copy, Debug, PartialEq, Eq)]
pub enum DueReport {
    /// None: no collection runs.
    Idle,
    Started,
    Groups,
    Ended,
    /// That of this arena, the lowest one that is out.
    Swept(u32),
    Done,
}

// Whether each of these zones is among the first ones, of this number.
fn are_made(zones: ZoneSet, made: u8) -> bool
    ensures { IsTrue result ↔ ((z : ℕ) → HasZone zones.bits z → z < made) }
{
    for index in made..64 {
        if let Some(zone) = ZoneNo::new(index)
            && zones.contains(zone)
        {
            return false;
        }
    }
    true
}

/// What a collector's output is judged by, beside the graph.
#[derive(Drop)]
pub struct World {
    pub alloc: Global,
    pub former: Former,
    pub places: BTreeMap<Name, Place>,
    pub arenas: Arenas,
    ghost laid: { AreLaid places arenas.lying },
    /// The white cells of groups that have ended, until they are swept.
    pub whites: Whites,
    /// What is black; it counts while no zone is marking, and none is being prepared.
    pub black: Walk,
    pub phase: Phase,
    /// What was counted for the last collection that began.
    pub tally: Tally,
    pub weak: WeakNames,
    /// The watched cells that died with the group that ended last, until the next line tells them.
    pub told: NameList,
}

impl World {
    ghost use Rattle.judge.specs.Compaction.{GoTo, MayGo, Packs};
    ghost use Rattle.judge.specs.Stages.{Blackens, BlackensLeft, BlackensOne, IsDue, IsFirst, IsOver, IsSettled};
    ghost use Rattle.judge.specs.Stages.{IsStarted, LiesIn, Wakes, WakesAny, counted_by, idle, limit_in, preparing};
    ghost use Rattle.judge.specs.Stages.{put_in, shown, stage_of, unfinished_in, woken_tally};
    ghost use Rattle.judge.specs.Replies.{AreMade, IsRefusal};

    pub fn new(alloc: Global) -> Self
        ensures { IsFirst (shown result) }
    {
        World {
            alloc,
            former: Former::new(alloc),
            places: BTreeMap::new(alloc),
            arenas: Arenas::new(alloc),
            whites: Whites::new(alloc),
            black: Walk::new(alloc),
            phase: Phase::Idle,
            tally: Tally::new(),
            weak: WeakNames::new(alloc),
            told: NameList::new(alloc),
        }
    }

    pub fn is_running(&self) -> bool
        ensures running { IsTrue result → stage_of self.now.phase ≢ idle }
        ensures idle { result ≡ false → stage_of self.now.phase ≡ idle }
    {
        !matches!(self.phase, Phase::Idle)
    }

    /// The collection that marks or sweeps.
    pub fn collection(&self) -> Option<&Collection> {
        match &self.phase {
            Phase::Collecting(collection) => Some(collection),
            _ => None,
        }
    }

    /// The zones that a collection is preparing or marking.
    pub fn unfinished(&self) -> ZoneSet
        ensures { result ≡ unfinished_in (stage_of self.now.phase) }
    {
        match &self.phase {
            Phase::Idle => ZoneSet::new(),
            Phase::Preparing(preparation) => preparation.zones,
            Phase::Collecting(collection) => collection.marking,
        }
    }

    /// Whether no zone is marking, and none is being prepared.
    pub fn is_settled(&self) -> bool
        ensures { IsTrue result ↔ IsSettled (stage_of self.now.phase) }
    {
        self.unfinished().is_empty()
    }

    /// Whether a name is black by what a collection that runs has found so far.
    pub fn is_black_so_far(&self, name: Name) -> bool
        ensures { IsTrue result ↔ IsBlackBy self.now.phase self.now.black name }
    {
        match &self.phase {
            Phase::Idle => self.black.contains(name),
            Phase::Preparing(preparation) => preparation.is_black(name),
            Phase::Collecting(collection) => collection.black.contains(name),
        }
    }

    pub fn is_present(&self, name: Name) -> bool
        ensures { IsTrue result ↔ HasCell self.now.places name }
    {
        self.places.contains_key(&name)
    }

    /// What a command on the graph wakes and counts for, by the graph after it.
    pub fn follow(
        &mut self,
        graph: &Graph,
        command: &GraphCmd,
        reply: &Reply,
    ) -> Result<(), NoMemory>
        ensures stage { OnOk result (stage_of self.new.phase ≡ stage_of self.old.phase) }
        ensures out { OnOk result ((shown self.new).out ≡ (shown self.old).out) }
        ensures whites { OnOk result (self.new.whites ≡ self.old.whites) }
        ensures lies { OnOk result (LiesIn graph.now (shown self.old) (shown self.new)) }
        ensures places { OnOk result (GivesPlaces graph.now (woken_in command.now reply.now)
            self.old.places self.new.places) }
        ensures takes { OnOk result (Takes (change.Command command.now) self.old.former self.new.former) }
        ensures weak { OnOk result (self.new.weak ≡ self.old.weak) }
        ensures told { OnOk result (self.new.told ≡ self.old.told) }
        ensures black { OnOk result (Blackens graph.now (stage_of self.old.phase) (woken_in command.now reply.now)
            self.old.black self.new.black) }
        ensures left_out { OnOk result (BlackensLeft graph.now (stage_of self.old.phase)
            (IsEither (woken_in command.now reply.now) (also_woken_in command.now reply.now))
            (left_out_of self.old.phase) (left_out_of self.new.phase)) }
        ensures walks { OnOk result (WakesAny (stage_of self.old.phase) (woken_in command.now reply.now)
            (walks_of self.old.phase) (walks_of self.new.phase)) }
        ensures tally { OnOk result (tally_of self.new.tally ≡ counted_by graph.now (stage_of self.old.phase)
            command.now reply.now (tally_of self.old.tally)) }
    {
        self.take(graph, command, reply)?;
        self.wake_any(graph, woken_in(command, reply))
    }

    /// A register has taken what a weak slot names, and the name is woken; by the graph after it.
    pub fn take_named(
        &mut self,
        graph: &Graph,
        register: Reg,
        named: Option<Name>,
    ) -> Result<(), NoMemory>
        ensures stage { OnOk result (stage_of self.new.phase ≡ stage_of self.old.phase) }
        ensures out { OnOk result ((shown self.new).out ≡ (shown self.old).out) }
        ensures whites { OnOk result (self.new.whites ≡ self.old.whites) }
        ensures lies { OnOk result (LiesIn graph.now (shown self.old) (shown self.new)) }
        ensures places { OnOk result (GivesPlaces graph.now named self.old.places self.new.places) }
        ensures takes { OnOk result (Takes (change.Take register named) self.old.former self.new.former) }
        ensures weak { OnOk result (self.new.weak ≡ self.old.weak) }
        ensures told { OnOk result (self.new.told ≡ self.old.told) }
        ensures black { OnOk result (Blackens graph.now (stage_of self.old.phase) named self.old.black
            self.new.black) }
        ensures left_out { OnOk result (BlackensLeft graph.now (stage_of self.old.phase) (IsEither named None)
            (left_out_of self.old.phase) (left_out_of self.new.phase)) }
        ensures walks { OnOk result (WakesAny (stage_of self.old.phase) named (walks_of self.old.phase)
            (walks_of self.new.phase)) }
        ensures tally { OnOk result (tally_of self.new.tally
            ≡ woken_tally graph.now (stage_of self.old.phase) named (tally_of self.old.tally)) }
    {
        self.former.change(&Change::Take(register, named))?;
        self.count_woken(graph, named)?;
        self.wake_any(graph, named)
    }

    // A name that may be there is woken.
    fn wake_any(&mut self, graph: &Graph, name: Option<Name>) -> Result<(), NoMemory>
        ensures stage { OnOk result (stage_of self.new.phase ≡ stage_of self.old.phase) }
        ensures out { OnOk result ((shown self.new).out ≡ (shown self.old).out) }
        ensures whites { OnOk result (self.new.whites ≡ self.old.whites) }
        ensures lies { OnOk result (LiesIn graph.now (shown self.old) (shown self.new)) }
        ensures places { OnOk result (GivesPlaces graph.now name self.old.places self.new.places) }
        ensures former { OnOk result (self.new.former ≡ self.old.former) }
        ensures weak { OnOk result (self.new.weak ≡ self.old.weak) }
        ensures told { OnOk result (self.new.told ≡ self.old.told) }
        ensures black { OnOk result (Blackens graph.now (stage_of self.old.phase) name self.old.black
            self.new.black) }
        ensures left_out { OnOk result (BlackensLeft graph.now (stage_of self.old.phase) (λ s. name ≡ Some s)
            (left_out_of self.old.phase) (left_out_of self.new.phase)) }
        ensures walks { OnOk result (WakesAny (stage_of self.old.phase) name (walks_of self.old.phase)
            (walks_of self.new.phase)) }
        ensures tally { OnOk result (tally_of self.new.tally ≡ tally_of self.old.tally) }
    {
        match name {
            None => Ok(()),
            Some(name) => self.wake(graph, name),
        }
    }

    // What a command is beside what it wakes: the former graph takes it, what it reads turns black, and it counts.
    fn take(&mut self, graph: &Graph, command: &GraphCmd, reply: &Reply) -> Result<(), NoMemory>
        ensures same { OnOk result (shown self.new ≡ record (shown self.old) {
          left_out = left_out_of self.new.phase;
          former = self.new.former;
          tally = tally_of self.new.tally;
        }) }
        ensures takes { OnOk result (Takes (change.Command command.now) self.old.former self.new.former) }
        ensures left_out { OnOk result (BlackensLeft graph.now (stage_of self.old.phase)
            (λ s. also_woken_in command.now reply.now ≡ Some s) (left_out_of self.old.phase)
            (left_out_of self.new.phase)) }
        ensures tally { OnOk result (tally_of self.new.tally ≡ counted_by graph.now (stage_of self.old.phase)
            command.now reply.now (tally_of self.old.tally)) }
    {
        self.former.change(&Change::Command(*command))?;
        self.count(graph, command, reply)?;
        self.wake_also(graph, also_woken_in(command, reply))
    }

    // A name that there may be is woken, if zones are being prepared.
    fn wake_also(&mut self, graph: &Graph, name: Option<Name>) -> Result<(), NoMemory>
        ensures same { OnOk result (shown self.new
            ≡ record (shown self.old) { left_out = left_out_of self.new.phase }) }
        ensures left_out { OnOk result (BlackensLeft graph.now (stage_of self.old.phase) (λ s. name ≡ Some s)
            (left_out_of self.old.phase) (left_out_of self.new.phase)) }
    {
        let Some(name) = name else {
            return Ok(());
        };
        let Phase::Preparing(preparation) = &mut self.phase else {
            return Ok(());
        };
        preparation.blacken(graph, name)
    }

    fn wake(&mut self, graph: &Graph, name: Name) -> Result<(), NoMemory>
        ensures stage { OnOk result (stage_of self.new.phase ≡ stage_of self.old.phase) }
        ensures out { OnOk result ((shown self.new).out ≡ (shown self.old).out) }
        ensures whites { OnOk result (self.new.whites ≡ self.old.whites) }
        ensures lies { OnOk result (LiesIn graph.now (shown self.old) (shown self.new)) }
        ensures places { OnOk result (GivesPlace graph.now self.old.places name self.new.places) }
        ensures former { OnOk result (self.new.former ≡ self.old.former) }
        ensures weak { OnOk result (self.new.weak ≡ self.old.weak) }
        ensures told { OnOk result (self.new.told ≡ self.old.told) }
        ensures black { OnOk result (BlackensOne graph.now (stage_of self.old.phase) name self.old.black
            self.new.black) }
        ensures left_out { OnOk result (BlackensLeft graph.now (stage_of self.old.phase) (λ s. name ≡ s)
            (left_out_of self.old.phase) (left_out_of self.new.phase)) }
        ensures walks { OnOk result (Wakes (stage_of self.old.phase) name (walks_of self.old.phase)
            (walks_of self.new.phase)) }
        ensures tally { OnOk result (tally_of self.new.tally ≡ tally_of self.old.tally) }
    {
        self.give_place(graph, name)?;
        self.turn_black(graph, name)
    }

    // What a name that was woken reaches turns black, by and by if zones are marking.
    fn turn_black(&mut self, graph: &Graph, name: Name) -> Result<(), NoMemory>
        ensures same { OnOk result
            (shown self.new ≡ record (shown self.old) {
              black = self.new.black;
              left_out = left_out_of self.new.phase;
              walks = walks_of self.new.phase;
            }) }
        ensures black { OnOk result (BlackensOne graph.now (stage_of self.old.phase) name self.old.black
            self.new.black) }
        ensures left_out { OnOk result (BlackensLeft graph.now (stage_of self.old.phase) (λ s. name ≡ s)
            (left_out_of self.old.phase) (left_out_of self.new.phase)) }
        ensures walks { OnOk result (Wakes (stage_of self.old.phase) name (walks_of self.old.phase)
            (walks_of self.new.phase)) }
    {
        match &mut self.phase {
            Phase::Idle => blacken(&mut self.black, graph, name),
            Phase::Preparing(preparation) => preparation.blacken(graph, name),
            Phase::Collecting(collection) => {
                if collection.marking.is_empty() {
                    blacken(&mut self.black, graph, name)
                } else {
                    collection.wake(name)
                }
            }
        }
    }

    fn give_place(&mut self, graph: &Graph, name: Name) -> Result<(), NoMemory>
        ensures same { OnOk result (shown self.new
            ≡ record (shown self.old) { owners = owners_in self.new.arenas; cells = self.new.places }) }
        ensures lies { OnOk result (LiesIn graph.now (shown self.old) (shown self.new)) }
        ensures phase { self.new.phase ≡ self.old.phase }
        ensures places { OnOk result (GivesPlace graph.now self.old.places name self.new.places) }
    {
        if self.is_present(name) {
            return Ok(());
        }
        let Some(zone) = graph.zone_of(name) else {
            return Ok(());
        };
        let place = self.arenas.place_for(zone)?;
        lay(&mut self.places, &mut self.arenas, name, place)
    }

    // What a command counts for.
    fn count(&mut self, graph: &Graph, command: &GraphCmd, reply: &Reply) -> Result<(), NoMemory>
        ensures same { OnOk result
            (shown self.new ≡ record (shown self.old) { tally = tally_of self.new.tally }) }
        ensures former { self.new.former ≡ self.old.former }
        ensures tally { OnOk result (tally_of self.new.tally ≡ counted_by graph.now (stage_of self.old.phase)
            command.now reply.now (tally_of self.old.tally)) }
    {
        self.count_put(graph, command, reply)?;
        self.count_woken(graph, woken_in(command, reply))
    }

    // A wrapper that is woken counts.
    fn count_woken(&mut self, graph: &Graph, woken: Option<Name>) -> Result<(), NoMemory>
        ensures same { OnOk result
            (shown self.new ≡ record (shown self.old) { tally = tally_of self.new.tally }) }
        ensures former { self.new.former ≡ self.old.former }
        ensures tally { OnOk result (tally_of self.new.tally ≡ woken_tally graph.now (stage_of self.old.phase)
            woken (tally_of self.old.tally)) }
    {
        let Phase::Collecting(collection) = &self.phase else {
            return Ok(());
        };
        let is_counted = is_wrapper_in(graph, collection.zones, woken);
        self.tally.wrappers = with_one(self.tally.wrappers, is_counted)?;
        Ok(())
    }

    // An entry that is put counts.
    fn count_put(
        &mut self,
        graph: &Graph,
        command: &GraphCmd,
        reply: &Reply,
    ) -> Result<(), NoMemory>
        ensures same { OnOk result
            (shown self.new ≡ record (shown self.old) { tally = tally_of self.new.tally }) }
        ensures former { self.new.former ≡ self.old.former }
        ensures tally { OnOk result (tally_of self.new.tally ≡ put_in graph.now (stage_of self.old.phase)
            command.now reply.now (tally_of self.old.tally)) }
    {
        let (GraphCmd::Put(map, key, _), Reply::Accepted) = (command, reply) else {
            return Ok(());
        };
        let Phase::Collecting(collection) = &self.phase else {
            return Ok(());
        };
        let (map, key) = (graph.register(*map), graph.register(*key));
        let is_counted = counts_entry(graph, collection.zones, map, key);
        self.tally.entries = with_one(self.tally.entries, is_counted)?;
        Ok(())
    }

    /// Why a collection of these zones may not begin, if it may not.
    pub fn refusal(&self, graph: &Graph, zones: ZoneSet) -> Option<Refusal>
        ensures some { IfSome result (IsRefusal (AreMade graph.now zones) (stage_of self.now.phase)) }
        ensures idle { IfNone result (stage_of self.now.phase ≡ idle) }
        ensures made { IfNone result (AreMade graph.now zones) }
    {
        if self.is_running() {
            return Some(Refusal::Running);
        }
        if !are_made(zones, graph.zones()) {
            return Some(Refusal::NoZone);
        }
        None
    }

    /// Whether no watched cell waits for a line that tells it.
    pub fn has_told(&self) -> bool
        ensures { IsTrue result ↔ (self.now.told ≡ []) }
    {
        self.told.as_slice().is_empty()
    }

    /// The cells of a zone move together, and the arenas that this empties are given up.
    pub fn compact(&mut self, graph: &Graph, zone: ZoneNo) -> Result<Compacted, NoMemory>
        requires idle { stage_of self.old.phase ≡ idle }
        requires made { zone < graph.now.zones }
        ensures { IfOk result (λ done. Packs graph.now zone (shown self.old) done.moved done.given_up
            (shown self.new)) }
    {
        let zones = ZoneSet::only(zone);
        let arenas = self.arenas.numbers(self.alloc, zones)?;
        let filled = filled(graph, zones, &self.places)?;
        if filled > arenas.len() as u64 {
            return Err(AllocError);
        }
        let (kept, given_up) = arenas.as_slice().split_at(filled as usize);
        let movers = lying_in(self.alloc, given_up, &self.places)?;
        let stayers = lying_in(self.alloc, kept, &self.places)?;
        let free = free_places(self.alloc, kept, &stayers)?;
        self.move_cells(&movers, free.as_slice())?;
        self.arenas.give_up(given_up);
        Ok(Compacted {
            moved: movers.len() as u64,
            given_up: given_up.len() as u32,
        })
    }

    // Each of these cells goes to the next of these places.
    fn move_cells(&mut self, movers: &BTreeMap<Place, Name>, free: &[Place]) -> Result<(), NoMemory>
        requires { MayGo self.old.places self.old.arenas movers.now.entries free.now }
        ensures same { OnOk result (shown self.new ≡ record (shown self.old) { cells = self.new.places }) }
        ensures moved { OnOk result (GoTo movers.now.entries free.now self.old.places self.new.places) }
    {
        let mut next = 0;
        for (was, name) in movers {
            let Some(place) = place_at(free, next) else {
                return Err(AllocError);
            };
            next += 1;
            shift(&mut self.places, &mut self.arenas, *name, *was, place)?;
        }
        Ok(())
    }

    /// Which report is due.
    pub fn due_report(&self) -> DueReport
        ensures { IsDue result (shown self.now) }
    {
        if let Some(arena) = self.arenas.first_out() {
            return DueReport::Swept(arena);
        }
        match &self.phase {
            Phase::Idle => DueReport::Idle,
            Phase::Preparing(_) => DueReport::Started,
            Phase::Collecting(collection) => collection.due_report(),
        }
    }

    /// Whether nothing is left to do: all groups have ended, and no arena is out.
    pub fn is_over(&self) -> bool
        ensures { IsTrue result ↔ IsOver (shown self.now) }
    {
        matches!(self.due_report(), DueReport::Done)
    }

    /// What collects goes on to another phase.
    pub fn enter(&mut self, phase: Phase)
        ensures { self.new ≡ record self.old { phase = phase } }
    {
        self.phase = phase;
    }

    /// A collection of these zones begins: they are being prepared.
    pub fn begin(&mut self, graph: &Graph, zones: ZoneSet) -> Result<(), NoMemory>
        ensures shows { OnOk result (shown self.new ≡ record (shown self.old) {
          stage = preparing zones;
          left_out = left_out_of self.new.phase;
          walks = None;
          tally = with_arenas (arena_count (zones_in zones) (owners_in self.old.arenas));
        }) }
        ensures left_out { OnOk result (LeavesOut graph.now (zones_in zones) self.old.places self.old.black.names
            (left_out_of self.new.phase)) }
    {
        self.tally = Tally {
            arenas: self.arenas.count(zones),
            ..Tally::new()
        };
        let preparation = Preparation::new(self.alloc, graph, zones, &self.places, &self.black)?;
        self.enter(Phase::Preparing(preparation));
        Ok(())
    }

    /// The marking of the collection that is being prepared begins.
    pub fn start(&mut self, graph: &Graph) -> Result<(), NoMemory>
        ensures { OnOk result ((zones : AZoneSet) → stage_of self.old.phase ≡ preparing zones
            → IsStarted graph.now zones (shown self.old) (shown self.new)) }
    {
        let Phase::Preparing(preparation) = &self.phase else {
            return Ok(());
        };
        let zones = preparation.zones;
        let collection = Collection::start(self.alloc, graph, preparation, &self.places)?;
        self.tally = marking_tally(&self.tally, graph, zones, &self.places)?;
        self.former.keep();
        self.enter(Phase::Collecting(collection));
        Ok(())
    }

    /// The most units that the collection may have taken by now. It has one for each arena while it is being prepared.
    pub fn unit_limit(&self) -> u128
        ensures { result ≡ limit_in (stage_of self.now.phase) (tally_of self.now.tally) }
    {
        match &self.phase {
            Phase::Preparing(_) => u128::from(self.tally.arenas),
            _ => self.tally.limit(),
        }
    }

    /// The gray names, ascending.
    pub fn gray_names(&self) -> Result<Vec<Name>, NoMemory>
        ensures { IfOk result (λ names. Lists
            (λ x. HasCell self.now.places x × (Contains self.now.black.names x → ⊥)) names.items) }
    {
        let mut names = Vec::new(self.alloc);
        for (name, _) in &self.places {
            if self.black.contains(*name) {
                continue;
            }
            names.push(*name)?;
        }
        Ok(names)
    }
}

// What a reply says was made, and what it names.
fn made_in(reply: &Reply) -> Option<Name>
    ensures { result ≡ made_in reply.now }
{
    match reply {
        Reply::Made(number) => Some(Name::Cell(*number)),
        _ => None,
    }
}

fn named_in(reply: &Reply) -> Option<Name>
    ensures { result ≡ named_in reply.now }
{
    match reply {
        Reply::Named(name) => Some(*name),
        _ => None,
    }
}

fn wrapper_in(name: Option<Name>) -> Option<Name>
    ensures { result ≡ wrapper_in name }
{
    match name {
        None => None,
        Some(Name::Cell(_)) => None,
        Some(Name::Wrap(comp, target)) => Some(Name::Wrap(comp, target)),
    }
}

// The name that a command wakes, by its reply.
fn woken_in(command: &GraphCmd, reply: &Reply) -> Option<Name>
    ensures { result ≡ woken_in command.now reply.now }
{
    match command {
        GraphCmd::New(_, _, _) => made_in(reply),
        GraphCmd::Map(_, _) => made_in(reply),
        GraphCmd::Expose(_, _) => named_in(reply),
        GraphCmd::Wrap(_, _, _) => wrapper_in(named_in(reply)),
        _ => None,
    }
}

// The target of a name that there may be.
fn target_in(name: Option<Name>) -> Option<Name>
    ensures { result ≡ target_cell name }
{
    match name {
        None => None,
        Some(name) => Some(target_of(name)),
    }
}

// A second name that a command wakes while zones are being prepared, by its reply: what it read through a wrapper.
fn also_woken_in(command: &GraphCmd, reply: &Reply) -> Option<Name>
    ensures { result ≡ also_woken_in command.now reply.now }
{
    match command {
        GraphCmd::Wrap(_, _, _) => target_in(named_in(reply)),
        GraphCmd::Unwrap(_, _) => target_in(named_in(reply)),
        _ => None,
    }
}

// A name turns black, and what is reached from there.
fn blacken(black: &mut Walk, graph: &Graph, name: Name) -> Result<(), NoMemory>
    ensures { OnOk result (GoesOnFrom graph.now (name ∷ []) black.old black.new) }
{
    black.add(name, None)?;
    black.finish(graph)
}
