// A collection: its zones, what it finds black and live, its groups, and how many units it may take.
ghost use Rattle.std.specs.Prelude.{◌≡◌, ◌↔◌, ◌<◌, ◌++◌, ℕ, [], Contains, IfNone, IfOk, IfSome, IsTrue, List, None};
ghost use Rattle.std.specs.Prelude.{OnOk, Some, drop, filter, map, reverse};
ghost use Rattle.gz_names.specs.Zones.{zones_in};
ghost use Rattle.gz_names.specs.declared.names.Name.{Name as AName};
ghost use Rattle.gz_names.specs.declared.zone_sets.ZoneSet.{ZoneSet as AZoneSet};
ghost use Rattle.colour_defs.specs.Ends.{IsAscending, Lists, arenas_from};
ghost use Rattle.colour_defs.specs.Graph.{GraphState, register_cell, slot_cell};
ghost use Rattle.plain_graph.specs.Reach.{Follows, IsDone};
ghost use Rattle.judge.specs.Arenas.{AreSameArenas, owners_in};
ghost use Rattle.judge.specs.Cells.{Cells, HasCell, HasColours, HasShade, IsGrayBy, IsWhiteBy, LetsGo};
ghost use Rattle.judge.specs.Bounds.{tally_of, with_sweep};
ghost use Rattle.judge.specs.Edges.{Leads, sources_of};
ghost use Rattle.judge.specs.Former.{Releases};
ghost use Rattle.judge.specs.Sound.{IsSound, Settles};
ghost use Rattle.judge.specs.Stages.{BlackensRest, Ends, HasGroups, IsDueOf, IsFirstGroup, IsOver, IsWoken};
ghost use Rattle.judge.specs.Stages.{collecting, groups_in, unfinished_in};
ghost use Rattle.judge.specs.Stages.{idle, shown, stage_in, stage_of};
ghost use Rattle.judge.specs.Walks.{CatchUp, CatchesUp, GoesOnFrom, TurnsBlack, Walks as AWalks, left_out_of};
ghost use Rattle.judge.specs.Walks.{walks_in, walks_of};
ghost use Rattle.judge.specs.Weak.{AreUnwatched, if_present, is_watched};
ghost use Rattle.judge.specs.Whites.{AreByArena, Clears};
ghost use Rattle.judge.specs.Starts.{AreBlackStarts, AreLiveStarts, IsBegun, IsBlackOutside, IsInRegister};
ghost use Rattle.judge.specs.Starts.{IsInSlot, IsListOf, IsOutside};

use crate::former::is_in;
use crate::places::lift;
use crate::preparation::Preparation;
use crate::tally::with_one;
use crate::whites::Whites;
use crate::world::{DueReport, Phase, World};
use gz_names::{GrayNo, Name, NoMemory, Place, Reg, ZoneNo, ZoneSet};
use plain_graph::{Graph, Walk};
use std::alloc::Global;
use std::collections::BTreeMap;
use std::mem;

/// What held a name as marking began.
#[derive(Clone, Copy)]
pub enum Root {
    Register(u8),
    Slot(u8),
}

/// A collection from the beginning of its marking until it is over.
#[derive(Drop)]
pub struct Collection {
    pub zones: ZoneSet,
    pub marking: ZoneSet,
    /// What registers and gray slots held as marking began.
    pub roots: Vec<(Name, Root)>,
    /// What it finds black. Until the groups are formed, names woken since marking began are not in it.
    pub black: Walk,
    /// What it finds black or gray.
    pub live: Walk,
    /// Names woken that are in neither of the two yet.
    woken: Vec<Name>,
    /// The groups that have not ended, once they are formed.
    pub groups: Option<Vec<ZoneSet>>,
}

/// What a cell of a group is that is not black, as the group ends.
#[derive(Clone, Copy)]
enum Shade {
    Gray,
    White,
}

/// What a group's end makes of the cells of its zones.
#[derive(Drop)]
pub struct GroupEnd {
    pub zones: ZoneSet,
    pub grays: Vec<Name>,
    pub whites: Vec<Name>,
}

fn add_all(walk: &mut Walk, names: &[Name]) -> Result<(), NoMemory>
    ensures { OnOk result ((g : GraphState) (starts : List AName) → Follows g starts walk.old
        → Follows g (starts ++ names.now) walk.new) }
{
    for name in names {
        walk.add(*name, None)?;
    }
    Ok(())
}

// Adds names to a walk, and follows them.
fn follow_all(walk: &mut Walk, names: &[Name], graph: &Graph) -> Result<(), NoMemory>
    ensures { OnOk result (GoesOnFrom graph.now names.now walk.old walk.new) }
{
    add_all(walk, names)?;
    walk.finish(graph)
}

// A walk over what these names reach.
fn walk_from(alloc: Global, names: &[Name], graph: &Graph) -> Result<Walk, NoMemory>
    ensures { IfOk result (IsDone graph.now names.now) }
{
    let mut walk = Walk::new(alloc);
    follow_all(&mut walk, names, graph)?;
    Ok(walk)
}

// What registers and gray slots hold.
fn roots_of(alloc: Global, graph: &Graph) -> Result<Vec<(Name, Root)>, NoMemory> {
    let mut roots = Vec::new(alloc);
    for index in 0..16u8 {
        if let Some(register) = Reg::new(index)
            && let Some(name) = graph.register(register)
        {
            roots.push((name, Root::Register(index)))?;
        }
    }
    for index in 0..64u8 {
        if let Some(slot) = GrayNo::new(index)
            && let Some(name) = graph.slot(slot)
        {
            roots.push((name, Root::Slot(index)))?;
        }
    }
    Ok(roots)
}

// What a register holds.
fn register_at(graph: &Graph, index: u8) -> Option<Name>
    requires { index < 16 }
    ensures { result ≡ register_cell graph.now index }
{
    match Reg::new(index) {
        None => None,
        Some(register) => graph.register(register),
    }
}

// What a gray slot holds.
fn slot_at(graph: &Graph, index: u8) -> Option<Name>
    requires { index < 64 }
    ensures { result ≡ slot_cell graph.now index }
{
    match GrayNo::new(index) {
        None => None,
        Some(slot) => graph.slot(slot),
    }
}

fn in_registers(alloc: Global, graph: &Graph) -> Result<Vec<Name>, NoMemory>
    ensures { IfOk result (λ names. IsListOf names.items (IsInRegister graph.now)) }
{
    let mut names = Vec::new(alloc);
    for index in 0..16u8 {
        let Some(name) = register_at(graph, index) else {
            continue;
        };
        names.push(name)?;
    }
    Ok(names)
}

fn in_slots(alloc: Global, graph: &Graph) -> Result<Vec<Name>, NoMemory>
    ensures { IfOk result (λ names. IsListOf names.items (IsInSlot graph.now)) }
{
    let mut names = Vec::new(alloc);
    for index in 0..64u8 {
        let Some(name) = slot_at(graph, index) else {
            continue;
        };
        names.push(name)?;
    }
    Ok(names)
}

// The present cells that are of none of these zones.
fn outside(
    alloc: Global,
    graph: &Graph,
    zones: ZoneSet,
    places: &BTreeMap<Name, Place>,
) -> Result<Vec<Name>, NoMemory>
    ensures { IfOk result (λ names. IsListOf names.items (IsOutside graph.now (zones_in zones) places.now)) }
{
    let mut names = Vec::new(alloc);
    for (name, _) in places {
        if is_in(graph, zones, *name) {
            continue;
        }
        names.push(*name)?;
    }
    Ok(names)
}

// Whether a name is black, and of a zone that a preparation leaves out.
fn is_left_black(graph: &Graph, preparation: &Preparation, name: Name) -> bool
    ensures { IsTrue result ↔ IsBlackOutside graph.now (zones_in preparation.now.zones)
        (Some preparation.now.black) name }
{
    if is_in(graph, preparation.zones, name) {
        return false;
    }
    preparation.is_black(name)
}

// The present cells that are black in zones that a preparation leaves out.
fn left_blacks(
    alloc: Global,
    graph: &Graph,
    preparation: &Preparation,
    places: &BTreeMap<Name, Place>,
) -> Result<Vec<Name>, NoMemory>
    ensures { IfOk result (λ names. IsListOf names.items (λ x. HasCell places.now x
        × IsBlackOutside graph.now (zones_in preparation.now.zones) (Some preparation.now.black) x)) }
{
    let mut names = Vec::new(alloc);
    for (name, _) in places {
        if !is_left_black(graph, preparation, *name) {
            continue;
        }
        names.push(*name)?;
    }
    Ok(names)
}

fn joined(first: &[Name], second: Vec<Name>) -> Result<Vec<Name>, NoMemory>
    ensures { IfOk result (λ names. names.items ≡ second.items ++ first.now) }
{
    let mut names = second;
    names.extend_from_slice(first)?;
    Ok(names)
}

// What registers hold, and the black cells of zones that are not collected.
fn black_starts(
    alloc: Global,
    graph: &Graph,
    preparation: &Preparation,
    places: &BTreeMap<Name, Place>,
) -> Result<Vec<Name>, NoMemory>
    ensures { IfOk result (λ names.
        AreBlackStarts graph.now (zones_in preparation.now.zones) places.now (Some preparation.now.black)
        names.items) }
{
    let held = in_registers(alloc, graph)?;
    let blacks = left_blacks(alloc, graph, preparation, places)?;
    joined(blacks.as_slice(), held)
}

// What registers and gray slots hold, and the cells of zones that are not collected.
fn live_starts(
    alloc: Global,
    graph: &Graph,
    zones: ZoneSet,
    places: &BTreeMap<Name, Place>,
) -> Result<Vec<Name>, NoMemory>
    ensures { IfOk result (λ names. AreLiveStarts graph.now (zones_in zones) places.now names.items) }
{
    let held = in_registers(alloc, graph)?;
    let gray = in_slots(alloc, graph)?;
    let others = outside(alloc, graph, zones, places)?;
    let both = joined(gray.as_slice(), held)?;
    joined(others.as_slice(), both)
}

impl Collection {
    /// The marking of a collection that was prepared begins: what its starts reach.
    pub fn start(
        alloc: Global,
        graph: &Graph,
        preparation: &Preparation,
        places: &BTreeMap<Name, Place>,
    ) -> Result<Self, NoMemory>
        ensures stage { let zones = preparation.now.zones in
            IfOk result (λ it. stage_in it ≡ collecting zones zones None) }
        ensures begun { IfOk result
            (λ it. IsBegun graph.now (zones_in preparation.now.zones) places.now (Some preparation.now.black)
            (walks_in it)) }
    {
        let zones = preparation.zones;
        let starts = black_starts(alloc, graph, preparation, places)?;
        let black = walk_from(alloc, starts.as_slice(), graph)?;
        let starts = live_starts(alloc, graph, zones, places)?;
        let live = walk_from(alloc, starts.as_slice(), graph)?;
        Ok(Collection {
            zones,
            marking: zones,
            roots: roots_of(alloc, graph)?,
            black,
            live,
            woken: Vec::new(alloc),
            groups: None,
        })
    }

    /// A name was woken.
    pub fn wake(&mut self, name: Name) -> Result<(), NoMemory>
        ensures stage { OnOk result (stage_in self.new ≡ stage_in self.old) }
        ensures walks { OnOk result (IsWoken (stage_in self.old) name (walks_in self.old) (walks_in self.new)) }
    {
        if self.marking.is_empty() {
            return Ok(());
        }
        self.woken.push(name)?;
        Ok(())
    }

    /// Finds what the names woken reach, in the graph as it was when marking began.
    pub fn catch_up(&mut self, former: &Graph) -> Result<(), NoMemory>
        ensures stage { OnOk result (stage_in self.new ≡ stage_in self.old) }
        ensures walks { OnOk result (CatchesUp former.now (walks_in self.old) (walks_in self.new)) }
    {
        follow_all(&mut self.black, self.woken.as_slice(), former)?;
        follow_all(&mut self.live, self.woken.as_slice(), former)?;
        self.woken.clear();
        Ok(())
    }

    /// The two zones, if a name is a wrapper that leads from a collected zone to a cell of another one that is not
    /// black.
    pub fn edge_of(&self, graph: &Graph, name: Name) -> Option<(ZoneNo, ZoneNo)>
        ensures some { IfSome result (λ e. (entries : GraphState) (cells : Cells)
            → Leads (sources_of graph.now entries cells self.now) name e.0 e.1) }
        ensures none { IfNone result ((entries : GraphState) (cells : Cells) (a b : ℕ)
            → Leads (sources_of graph.now entries cells self.now) name a b → ⊥) }
    {
        let Name::Wrap(_, target) = name else {
            return None;
        };
        let from = graph.zone_of(name)?;
        let to = graph.zone_of(Name::Cell(target))?;
        if from == to {
            return None;
        }
        if !self.zones.contains(from) {
            return None;
        }
        if !self.zones.contains(to) {
            return None;
        }
        if self.black.contains(Name::Cell(target)) {
            return None;
        }
        Some((from, to))
    }

    /// The first group that has not ended.
    fn next_group(&self) -> Option<ZoneSet>
        ensures some { IfSome result (IsFirstGroup (stage_in self.now)) }
        ensures none { IfNone result ((group : AZoneSet) → IsFirstGroup (stage_in self.now) group → ⊥) }
    {
        match &self.groups {
            None => None,
            Some(groups) => groups.first().copied(),
        }
    }

    // Whether some group has not ended, or none is formed yet.
    fn has_groups(&self) -> bool
        ensures { IsTrue result ↔ HasGroups (stage_in self.now) }
    {
        match &self.groups {
            None => true,
            Some(groups) => !groups.is_empty(),
        }
    }

    /// Which report is due, if no arena is out.
    pub fn due_report(&self) -> DueReport
        ensures { IsDueOf result (stage_in self.now) }
    {
        match &self.groups {
            None => DueReport::Groups,
            Some(groups) if groups.is_empty() => DueReport::Done,
            Some(_) => DueReport::Ended,
        }
    }

    /// Its groups are formed.
    pub fn form(&mut self, groups: Vec<ZoneSet>)
        ensures stage { stage_in self.new
            ≡ collecting self.old.zones self.old.marking (Some groups.items) }
        ensures walks { walks_in self.new ≡ walks_in self.old }
    {
        self.groups = Some(groups);
    }

    // Whether a cell of these zones is gray.
    fn is_gray(&self, graph: &Graph, zones: ZoneSet, name: Name) -> bool
        ensures { IsTrue result
            ↔ IsGrayBy graph.now (zones_in zones) self.now.black.names self.now.live.names name }
    {
        if !is_in(graph, zones, name) {
            return false;
        }
        if !self.live.contains(name) {
            return false;
        }
        !self.black.contains(name)
    }

    // Whether a cell of these zones is white.
    fn is_white(&self, graph: &Graph, zones: ZoneSet, name: Name) -> bool
        ensures { IsTrue result ↔ IsWhiteBy graph.now (zones_in zones) self.now.live.names name }
    {
        if !is_in(graph, zones, name) {
            return false;
        }
        !self.live.contains(name)
    }

    fn has_shade(&self, graph: &Graph, zones: ZoneSet, name: Name, shade: Shade) -> bool
        ensures { IsTrue result
            ↔ HasShade graph.now (zones_in zones) self.now.black.names self.now.live.names name shade }
    {
        match shade {
            Shade::Gray => self.is_gray(graph, zones, name),
            Shade::White => self.is_white(graph, zones, name),
        }
    }

    // The present cells of these zones that are gray, or white, ascending.
    fn pick(
        &self,
        alloc: Global,
        graph: &Graph,
        zones: ZoneSet,
        places: &BTreeMap<Name, Place>,
        shade: Shade,
    ) -> Result<Vec<Name>, NoMemory>
        ensures { IfOk result (λ names. Lists (λ x. HasCell places.now x
            × HasShade graph.now (zones_in zones) self.now.black.names self.now.live.names x shade) names.items) }
    {
        let mut names = Vec::new(alloc);
        for (name, _) in places {
            if !self.has_shade(graph, zones, *name, shade) {
                continue;
            }
            names.push(*name)?;
        }
        Ok(names)
    }

    // What the end of a group of these zones makes of their cells.
    fn end_of(
        &self,
        alloc: Global,
        graph: &Graph,
        zones: ZoneSet,
        places: &BTreeMap<Name, Place>,
    ) -> Result<GroupEnd, NoMemory>
        ensures zones { IfOk result (λ end. end.zones ≡ zones) }
        ensures colours { IfOk result (HasColours graph.now places.now self.now.black.names self.now.live.names) }
    {
        let grays = self.pick(alloc, graph, zones, places, Shade::Gray)?;
        let whites = self.pick(alloc, graph, zones, places, Shade::White)?;
        Ok(GroupEnd {
            zones,
            grays,
            whites,
        })
    }

    // The first group that has not ended ends.
    fn end_first(&mut self, group: ZoneSet)
        requires { IsFirstGroup (stage_in self.old) group }
        ensures ends { Ends (stage_in self.old) group (stage_in self.new) }
        ensures walks { walks_in self.new ≡ walks_in self.old }
    {
        self.marking = self.marking.without(group);
        if let Some(groups) = &mut self.groups
            && !groups.is_empty()
        {
            groups.remove(0);
        }
    }
}

impl World {
    /// What the end of the first group that has not ended makes of its cells, once what the names woken reach is found.
    pub fn group_end(&mut self, graph: &Graph) -> Result<Option<GroupEnd>, NoMemory>
        ensures same { OnOk result
            (shown self.new ≡ record (shown self.old) { walks = walks_of self.new.phase }) }
        ensures first { IfOk result (λ end. IfSome end (λ e. IsFirstGroup (stage_of self.old.phase) e.zones)) }
        ensures none { IfOk result (λ end. IfNone end ((group : AZoneSet)
            → IsFirstGroup (stage_of self.old.phase) group → ⊥)) }
        ensures colours { IfOk result (λ end. IfSome end (λ e. (before : AWalks) × (after : AWalks)
            × (walks_of self.old.phase ≡ Some before) × (walks_of self.new.phase ≡ Some after)
            × CatchesUp self.old.former.graph before after
            × HasColours graph.now self.old.places after.black.names after.live.names e)) }
    {
        let Phase::Collecting(collection) = &mut self.phase else {
            return Ok(None);
        };
        let Some(zones) = collection.next_group() else {
            return Ok(None);
        };
        collection.catch_up(self.former.graph())?;
        let end = collection.end_of(self.alloc, graph, zones, &self.places)?;
        Ok(Some(end))
    }

    /// The first group that has not ended ends.
    pub fn end_group(&mut self, end: &GroupEnd) -> Result<(), NoMemory>
        requires first { IsFirstGroup (stage_of self.old.phase) end.now.zones }
        requires ascending { IsAscending end.now.whites.items }
        ensures ends { OnOk result (Ends (stage_of self.old.phase) end.now.zones (stage_of self.new.phase)) }
        ensures owners { OnOk result (owners_in self.new.arenas ≡ owners_in self.old.arenas) }
        ensures out { OnOk result (reverse self.new.arenas.out.items
            ≡ arenas_from 0 (owners_in self.old.arenas) (zones_in end.now.zones) ++ reverse self.old.arenas.out.items) }
        ensures whites { OnOk result (AreByArena self.old.places end.now.whites.items self.new.whites) }
        ensures places { OnOk result (LetsGo end.now.whites.items self.old.places self.new.places) }
        ensures slots { OnOk result (self.new.weak.slots
            ≡ map (if_present self.new.places) self.old.weak.slots) }
        ensures watched { OnOk result (AreUnwatched self.old.weak self.new.told self.new.weak) }
        ensures told { OnOk result (self.new.told ≡ filter (is_watched self.old.weak) end.now.whites.items) }
        ensures settles { OnOk result (Settles self.old self.new) }
        ensures tally { OnOk result (self.new.tally ≡ self.old.tally) }
    {
        self.whites = Whites::of_names(self.alloc, &self.places, end.whites.as_slice())?;
        self.let_go(end.whites.as_slice());
        self.told = self
            .weak
            .lose(self.alloc, &self.places, end.whites.as_slice())?;
        self.arenas.hand_out(end.zones)?;
        self.end_first(end.zones);
        self.settle()
    }

    // White cells are no longer present.
    fn let_go(&mut self, whites: &[Name])
        ensures phase { self.new.phase ≡ self.old.phase }
        ensures former { self.new.former ≡ self.old.former }
        ensures black { self.new.black ≡ self.old.black }
        ensures arenas { AreSameArenas self.old.arenas self.new.arenas }
        ensures whites { self.new.whites ≡ self.old.whites }
        ensures places { LetsGo whites.now self.old.places self.new.places }
        ensures weak { self.new.weak ≡ self.old.weak }
        ensures told { self.new.told ≡ self.old.told }
        ensures tally { self.new.tally ≡ self.old.tally }
    {
        for name in whites {
            lift(&mut self.places, &mut self.arenas, *name);
        }
    }

    // The first group that has not ended ends.
    fn end_first(&mut self, group: ZoneSet)
        requires { IsFirstGroup (stage_of self.old.phase) group }
        ensures ends { Ends (stage_of self.old.phase) group (stage_of self.new.phase) }
        ensures walks { walks_of self.new.phase ≡ walks_of self.old.phase }
        ensures rest { self.new ≡ record self.old { phase = self.new.phase } }
    {
        match &mut self.phase {
            Phase::Collecting(collection) => collection.end_first(group),
            _ => {}
        }
    }

    // Whether the marking of a collection is not over.
    fn has_groups(&self) -> bool
        ensures { IsTrue result ↔ HasGroups (stage_of self.now.phase) }
    {
        match &self.phase {
            Phase::Collecting(collection) => collection.has_groups(),
            _ => false,
        }
    }

    // Where no zone is marking any more, what was found black counts from then on.
    fn settle(&mut self) -> Result<(), NoMemory>
        ensures stage { OnOk result (stage_of self.new.phase ≡ stage_of self.old.phase) }
        ensures arenas { self.new.arenas ≡ self.old.arenas }
        ensures whites { self.new.whites ≡ self.old.whites }
        ensures places { self.new.places ≡ self.old.places }
        ensures weak { self.new.weak ≡ self.old.weak }
        ensures told { self.new.told ≡ self.old.told }
        ensures settles { OnOk result (Settles self.old self.new) }
        ensures tally { OnOk result (self.new.tally ≡ self.old.tally) }
    {
        if self.has_groups() {
            return Ok(());
        }
        self.take_black();
        self.former.let_go()?;
        Ok(())
    }

    // What was found black counts from here on.
    fn take_black(&mut self)
        ensures stage { stage_of self.new.phase ≡ stage_of self.old.phase }
        ensures arenas { self.new.arenas ≡ self.old.arenas }
        ensures whites { self.new.whites ≡ self.old.whites }
        ensures places { self.new.places ≡ self.old.places }
        ensures former { self.new.former ≡ self.old.former }
        ensures weak { self.new.weak ≡ self.old.weak }
        ensures told { self.new.told ≡ self.old.told }
        ensures tally { self.new.tally ≡ self.old.tally }
        ensures black { (w : AWalks) → walks_of self.old.phase ≡ Some w → self.new.black ≡ w.black }
    {
        match &mut self.phase {
            Phase::Collecting(collection) => {
                self.black = mem::replace(&mut collection.black, Walk::new(self.alloc));
            }
            _ => {}
        }
    }

    /// The lowest arena that is out is taken in, with this number, and its white cells are freed.
    pub fn sweep(&mut self, arena: u32) -> Result<(), NoMemory>
        ensures same { OnOk result (shown self.new ≡ record (shown self.old) {
          out = drop 1 (shown self.old).out;
          whites = self.new.whites;
          tally = with_sweep (tally_of self.old.tally);
        }) }
        ensures clears { OnOk result (Clears self.old.whites arena self.new.whites) }
    {
        self.tally.sweeps = with_one(self.tally.sweeps, true)?;
        self.whites.take(arena);
        self.arenas.take_in();
        Ok(())
    }

    /// The collection is over.
    pub fn finish(&mut self) -> Result<(), NoMemory>
        ensures shows { OnOk result (shown self.new
            ≡ record (shown self.old) { stage = idle; left_out = None; former = self.new.former; walks = None }) }
        ensures releases { OnOk result (Releases self.old.former self.new.former) }
    {
        self.enter(Phase::Idle);
        self.former.let_go()?;
        Ok(())
    }

    /// The collection is given up.
    pub fn stop(&mut self, graph: &Graph) -> Result<(), NoMemory>
        requires none_out { (shown self.old).out ≡ [] }
        requires not_over { IsOver (shown self.old) → ⊥ }
        requires sound { IsSound graph.now (shown self.old) }
        ensures shows { OnOk result (shown self.new
            ≡ record (shown self.old) {
              stage = idle;
              black = self.new.black;
              left_out = None;
              former = self.new.former;
              walks = None;
            }) }
        ensures releases { OnOk result (Releases self.old.former self.new.former) }
        ensures blackens { OnOk result (BlackensRest graph.now (shown self.old) self.new.black) }
    {
        self.catch_up()?;
        self.black = self.black_where_given_up(graph)?;
        self.former.let_go()?;
        self.enter(Phase::Idle);
        Ok(())
    }

    // A collection that runs finds what the names woken reach.
    fn catch_up(&mut self) -> Result<(), NoMemory>
        ensures rest { OnOk result (self.new ≡ record self.old { phase = self.new.phase }) }
        ensures stage { OnOk result (stage_of self.new.phase ≡ stage_of self.old.phase) }
        ensures left_out { OnOk result (left_out_of self.new.phase ≡ left_out_of self.old.phase) }
        ensures walks { OnOk result (CatchUp self.old.former.graph (walks_of self.old.phase)
            (walks_of self.new.phase)) }
    {
        match &mut self.phase {
            Phase::Collecting(collection) => collection.catch_up(self.former.graph()),
            _ => Ok(()),
        }
    }

    // Whether a name is of a zone that was not finished, or was found black.
    fn turns_black(&self, graph: &Graph, zones: ZoneSet, name: Name) -> bool
        ensures { IsTrue result ↔ TurnsBlack graph.now (zones_in zones) self.now.phase self.now.black name }
    {
        if is_in(graph, zones, name) {
            return true;
        }
        self.is_black_so_far(name)
    }

    // The present cells that are of these zones or were found black.
    fn all_turning_black(&self, graph: &Graph, zones: ZoneSet) -> Result<Vec<Name>, NoMemory>
        ensures { IfOk result (λ names. IsListOf names.items (λ x. HasCell self.now.places x
            × TurnsBlack graph.now (zones_in zones) self.now.phase self.now.black x)) }
    {
        let mut names = Vec::new(self.alloc);
        for (name, _) in &self.places {
            if !self.turns_black(graph, zones, *name) {
                continue;
            }
            names.push(*name)?;
        }
        Ok(names)
    }

    // What is present in the zones that were not finished turns black, and what is reached from there and from what was
    // found black.
    fn black_where_given_up(&self, graph: &Graph) -> Result<Walk, NoMemory>
        ensures { IfOk result (λ black. (starts : List AName) × IsListOf starts (λ x. HasCell self.now.places x
            × TurnsBlack graph.now (zones_in (unfinished_in (stage_of self.now.phase))) self.now.phase
            self.now.black x) × IsDone graph.now starts black) }
    {
        let starts = self.all_turning_black(graph, self.unfinished())?;
        walk_from(self.alloc, starts.as_slice(), graph)
    }
}
