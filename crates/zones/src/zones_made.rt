// The zones and compartments that were made.
ghost use Rattle.std.specs.Prelude.{◌≡◌, ◌≤◌, ◌<◌, ◌↔◌, ◌++◌, ◌∷◌, ◌⊎◌, ◌≢◌, [], ℕ, length, slice_get, slice_set, Some};
ghost use Rattle.std.specs.Prelude.{IfOk, OnErr, IsSomeAnd, All};
ghost use Rattle.gz_names.specs.Zones.{HasZone};
ghost use Rattle.zones.specs.States.{next_state, IsMarking};
ghost use Rattle.zones.specs.ZonesMade.{word_of};
ghost use Rattle.zones.specs.declared.states.State.{State};

use crate::states::State;
use gz_names::{COMP_LIMIT, CompNo, ZONE_LIMIT, ZoneNo, ZoneSet};
use std::alloc::{AllocError, Global};
use std::marker::Model;

/// Why a zone was not made.
#[derive(Clone, Copy, Debug, PartialEq, Eq)]
pub enum ZoneFault {
    /// The most zones are there.
    Full,
    NoMemory,
}

impl From<AllocError> for ZoneFault {
    ghost use Rattle.zones.specs.declared.zones_made.ZoneFault.TheVariants.{NoMemory};

    ghost from_gives = { λ _ fault. fault ≡ NoMemory };

    fn from(_error: AllocError) -> Self {
        ZoneFault::NoMemory
    }
}

/// Why a compartment was not made.
#[derive(Clone, Copy, Debug, PartialEq, Eq)]
pub enum CompFault {
    /// The zone is not made.
    NoZone,
    /// The most compartments are there.
    Full,
    NoMemory,
}

impl From<AllocError> for CompFault {
    ghost use Rattle.zones.specs.declared.zones_made.CompFault.TheVariants.{NoMemory};

    ghost from_gives = { λ _ fault. fault ≡ NoMemory };

    fn from(_error: AllocError) -> Self {
        CompFault::NoMemory
    }
}

/// The zones with their states, and the compartments with their zones.
#[derive(Drop)]
pub struct Zones {
    states: Vec<State>,
    comps: Vec<ZoneNo>,
    // The zones of each state, by the state's place in their order.
    members: [ZoneSet; 6],
}

impl Model for Zones {
    ghost use Rattle.zones.specs.ZonesMade.{ZonesState, AreSound};

    ghost Value = { ZonesState };

    ghost view = { λ z. record { states = z.states.items; comps = z.comps.items } };

    ghost invariant = { λ z. AreSound z.states.items z.comps.items z.members };
}

impl Zones {
    ghost use Rattle.zones.specs.ZonesMade.{ZonesState};

    /// No zone and no compartment. It takes no memory.
    pub fn new(alloc: Global) -> Self
        ensures { result ≡ record { states = []; comps = [] } }
    {
        Zones {
            states: Vec::new(alloc),
            comps: Vec::new(alloc),
            members: [ZoneSet { bits: 0 }; 6],
        }
    }

    /// Makes the next zone, in no collection.
    pub fn add_zone(&mut self) -> Result<ZoneNo, ZoneFault>
        ensures number { IfOk result (λ z. z ≡ length self.old.states) }
        ensures made { IfOk result
            (λ _. self.new ≡ record self.old { states = self.old.states ++ State.NoGC ∷ [] }) }
        ensures full { (result ≡ Err ZoneFault.Full) ↔ (length self.old.states ≡ ZONE_LIMIT) }
        ensures most { length self.old.states ≤ ZONE_LIMIT }
        ensures err { OnErr result (self.new ≡ self.old) }
    {
        let Some(zone) = ZoneNo::new(self.zones()) else {
            return Err(ZoneFault::Full);
        };
        self.states.push(State::NoGC).map_err(AllocError::from)?;
        enter(&mut self.members, State::NoGC, zone);
        Ok(zone)
    }

    /// Makes the next compartment, in a zone.
    pub fn add_comp(&mut self, zone: ZoneNo) -> Result<CompNo, CompFault>
        ensures number { IfOk result (λ c. c.0 ≡ length self.old.comps) }
        ensures made { IfOk result
            (λ _. self.new ≡ record self.old { comps = self.old.comps ++ zone ∷ [] }) }
        ensures no_zone { (result ≡ Err CompFault.NoZone) ↔ (length self.old.states ≤ zone) }
        ensures full { (result ≡ Err CompFault.Full)
            ↔ ((zone < length self.old.states) × (length self.old.comps ≡ COMP_LIMIT)) }
        ensures most { length self.old.comps ≤ COMP_LIMIT }
        ensures err { OnErr result (self.new ≡ self.old) }
    {
        if zone.index() >= self.zones() {
            return Err(CompFault::NoZone);
        }
        let comp = self.comps();
        if comp == COMP_LIMIT {
            return Err(CompFault::Full);
        }
        self.comps.push(zone).map_err(AllocError::from)?;
        Ok(CompNo(comp as u8))
    }

    /// The state of a zone.
    pub fn state(&self, zone: ZoneNo) -> State
        requires { zone < length self.now.states }
        ensures { slice_get self.now.states zone ≡ Some result }
    {
        self.states[zone.index() as usize]
    }

    /// Takes a zone on to the state that follows its own.
    pub fn advance(&mut self, zone: ZoneNo)
        requires { zone < length self.old.states }
        ensures { IsSomeAnd (slice_get self.old.states zone)
            (λ s. self.new
            ≡ record self.old { states = slice_set self.old.states zone (next_state s) }) }
    {
        let state = self.states[zone.index() as usize];
        self.put_into(zone, state.next());
    }

    // Puts a zone into a state.
    fn put_into(&mut self, zone: ZoneNo, next: State)
        requires { zone < length self.old.states }
        ensures { self.new ≡ record self.old { states = slice_set self.old.states zone next } }
    {
        let state = self.states[zone.index() as usize];
        self.states[zone.index() as usize] = next;
        leave(&mut self.members, state, zone);
        enter(&mut self.members, next, zone);
    }

    /// Takes these zones, which are made, out of the collection, whatever their states are.
    pub fn stop(&mut self, zones: ZoneSet)
        requires { (z : ℕ) → HasZone zones.bits z → z < length self.old.states }
        ensures stopped { (z : ℕ) → HasZone zones.bits z → slice_get self.new.states z ≡ Some State.NoGC }
        ensures others { (z : ℕ) → (HasZone zones.bits z → ⊥)
            → slice_get self.new.states z ≡ slice_get self.old.states z }
        ensures count { length self.new.states ≡ length self.old.states }
        ensures comps { self.new.comps ≡ self.old.comps }
    {
        let mut left = zones;
        while let Some(zone) = left.first() {
            self.put_into(zone, State::NoGC);
            left.remove(zone);
        }
    }

    /// The zone of a compartment.
    pub fn zone_of(&self, comp: CompNo) -> ZoneNo
        requires { comp.0 < length self.now.comps }
        ensures value { slice_get self.now.comps comp.0 ≡ Some result }
        ensures made { result < length self.now.states }
    {
        self.comps[comp.0 as usize]
    }

    /// How many zones are made.
    pub fn zones(&self) -> u8
        ensures value { result ≡ length self.now.states }
        ensures most { result ≤ ZONE_LIMIT }
    {
        self.states.len() as u8
    }

    /// How many compartments are made.
    pub fn comps(&self) -> u16
        ensures value { result ≡ length self.now.comps }
        ensures most { result ≤ COMP_LIMIT }
        ensures homes { All (λ zone. zone < length self.now.states) self.now.comps }
    {
        self.comps.len() as u16
    }

    /// The zones that are in a state.
    pub fn in_state(&self, state: State) -> ZoneSet
        ensures { (z : ℕ) → HasZone result.bits z ↔ (slice_get self.now.states z ≡ Some state) }
    {
        self.members[state.number()]
    }

    /// The zones that are being prepared.
    pub fn preparing(&self) -> ZoneSet
        ensures { (z : ℕ) → HasZone result.bits z ↔ (slice_get self.now.states z ≡ Some State.Prepare) }
    {
        self.in_state(State::Prepare)
    }

    /// The zones that black marking goes through.
    pub fn marking(&self) -> ZoneSet
        ensures { (z : ℕ) → HasZone result.bits z
            ↔ IsSomeAnd (slice_get self.now.states z) IsMarking }
    {
        self.in_state(State::MarkBlackOnly)
            .union(self.in_state(State::MarkBlackAndGray))
    }
}

// A zone comes into the set of a state.
fn enter(members: &mut [ZoneSet], state: State, zone: ZoneNo)
    requires { length members.old ≡ 6 }
    ensures { (z : ℕ) (s : State) → HasZone (word_of members.new s) z
        ↔ (HasZone (word_of members.old s) z ⊎ ((s ≡ state) × (z ≡ zone))) }
{
    let mut zones = members[state.number()];
    zones.insert(zone);
    members[state.number()] = zones;
}

// A zone goes out of the set of a state.
fn leave(members: &mut [ZoneSet], state: State, zone: ZoneNo)
    requires { length members.old ≡ 6 }
    ensures { (z : ℕ) (s : State) → HasZone (word_of members.new s) z
        ↔ (HasZone (word_of members.old s) z × ((s ≡ state) → z ≢ zone)) }
{
    let mut zones = members[state.number()];
    zones.remove(zone);
    members[state.number()] = zones;
}
