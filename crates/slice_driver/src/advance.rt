// Steps of a collection, whoever sweeps: the one place where units, due arenas and their sweeping meet.
ghost use Rattle.std.specs.Prelude.{◌≡◌, ◌⊎◌, ◌<◌, ℕ, List, None, Option, false, true, IfOk, IsSome, OnErr, Some};
ghost use Rattle.std.specs.Int.{bit_at};
ghost use Rattle.cell_bits.specs.declared.bits.Bits.{Bits as ABits};
ghost use Rattle.sweeping.specs.ArenasOut.{flying_after, outs_after};
ghost use Rattle.heap_core.specs.Shape.{out_of};
ghost use Rattle.slice_driver.specs.Collector.{heap_with};
ghost use Rattle.slice_driver.specs.EdgesRead.{UnitsReadFew};
ghost use Rattle.slice_driver.specs.Advances.{Advances, AreOut, MayAdvance, StillOnErr, TakesDue, jobs_told};
ghost use Rattle.slice_driver.specs.Advances.{tells_start};
ghost use Rattle.slice_driver.specs.Quiet.{IsFormed};
ghost use Rattle.slice_driver.specs.Units.{AreJobs, IsLowestOut, IsSound, TellsSweep};
ghost use Rattle.slice_driver.specs.Working.{HasGroups, IsAtStart, IsQuietDone, IsStill, MayWantMemory};

use crate::collector::{Collector, Phase};
use arena_table::Jobs;
use gz_names::{NoMemory, Report, ZoneSet};
use heap_core::Steps;
use std::alloc::Global;
use std::sync::ledger::Ledger;
use sweeping::{Sweeper, Sweeping};

/// What a step of a collection did.
#[derive(Drop)]
pub struct Step {
    /// How many units were done.
    pub units: u64,
    /// Whether they report something, which was put into the place for a report.
    pub reported: bool,
    /// Whether the collection is over with them.
    pub finished: bool,
    /// The arenas that they handed to sweeping, ascending.
    pub handed: Option<Jobs>,
}

impl Step {
    // No unit was done.
    pub(crate) fn none() -> Self
        ensures { result ≡ record { units = 0; reported = false; finished = false; handed = None } }
    {
        Step {
            units: 0,
            reported: false,
            finished: false,
            handed: None,
        }
    }

    // One unit was done, with which the collection goes on, and which hands nothing to sweeping.
    fn one(reported: bool) -> Self
        ensures { result ≡ record {
          units = 1;
          reported = reported;
          finished = false;
          handed = None;
        } }
    {
        Step {
            units: 1,
            reported,
            finished: false,
            handed: None,
        }
    }

    // One unit was done, which reports something and hands nothing to sweeping.
    pub(crate) fn swept(finished: bool) -> Self
        ensures { result ≡ record {
          units = 1;
          reported = true;
          finished = finished;
          handed = None;
        } }
    {
        Step {
            units: 1,
            reported: true,
            finished,
            handed: None,
        }
    }
}

impl Collector {
    /// Does some units of the collection that runs, at most `limit`. A unit does the first of these that
    /// has work:
    ///
    /// 1. while the collection is being prepared, an arena is cleared (`quiet_units`), or else marking begins,
    ///    which is reported;
    /// 2. black marking: a cell that is pending in black, or a weak entry for black (`quiet_units`);
    /// 3. before the groups are formed, a look at a wrapper (`quiet_units`), or else a grouping step,
    ///    the last of which reports the groups;
    /// 4. the beginning of a zone of the current group (`quiet_units`);
    /// 5. gray marking of the current group, or a weak entry for gray (`quiet_units`);
    /// 6. the lowest arena that is out is taken in, and reported: who sweeps hands over what was swept;
    /// 7. the current group ends, and is reported. Each present cell of any zone has the colour then
    ///    that the end asks, and the group's arenas are handed to sweeping with their bits.
    ///
    /// Units that report nothing are done together, as many as come one after another; one that reports is
    /// done alone, where none of those is left. What it reports is put into `report`, which is left as it
    /// is when nothing is reported (a report is large, and most steps have none).
    ///
    /// The arenas that a unit hands to sweeping are the caller's: who sweeps by itself takes them
    /// over, and a board may be entered with them.
    ///
    /// It reads at most nine edges a unit, and eight for each gray cell outside marking zones that turns
    /// black; as marking begins, one for each wrapper of another zone that may lead into the collection's.
    ///
    /// Returns `NoMemory` only where marking is to begin or a group to end; then nothing was done.
    #[inline(always)]
    pub fn advance<F: Sweeping, L: Ledger>(
        &mut self,
        alloc: Global,
        limit: u64,
        flight: &mut F,
        report: &mut Option<Report>,
        steps: &mut Steps<L>,
    ) -> Result<Step, NoMemory>
        requires counted { self.old.heap.ledger ≡ Some L.name }
        requires ready { MayAdvance self.old (F.bits flight.old) (F.left (F.origin flight.old)) }
        requires some { 0 < limit }
        ensures done { IfOk result (λ step. Advances limit self.old (F.bits flight.old) report.old
            step self.new (flying_after step.handed (F.bits flight.new))
            (outs_after step.handed (F.left (F.origin flight.new))) report.new) }
        ensures steps { IfOk result (λ step. tells_start step report.new ≡ false
            → UnitsReadFew step.units steps.old (heap_with self.old (F.bits flight.old)) steps.new
            (heap_with self.new (flying_after step.handed (F.bits flight.new)))) }
        ensures handed { IfOk result (λ step. AreJobs step.handed
            (jobs_told step report.new self.old.heap)) }
        ensures err_where { OnErr result (MayWantMemory self.old (F.bits flight.old)) }
        ensures still { StillOnErr F.bits F.origin F.home result self.old flight.old report.old
            self.new flight.new report.new }
    {
        let quiet = self.quiet_units(limit, flight, steps);
        if quiet > 0 {
            return Ok(Step {
                units: quiet,
                reported: false,
                finished: false,
                handed: None,
            });
        }
        if let Some(arena) = self.next_out() {
            return Ok(Step::swept(self.take_due(flight, arena, report)));
        }
        self.advance_one(alloc, report, steps)
    }

    /// Does a step like `advance`, where who sweeps takes over what the step hands to sweeping.
    pub fn advance_over<F: Sweeper, L: Ledger>(
        &mut self,
        alloc: Global,
        limit: u64,
        sweeper: &mut F,
        report: &mut Option<Report>,
        steps: &mut Steps<L>,
    ) -> Result<Step, NoMemory>
        requires counted { self.old.heap.ledger ≡ Some L.name }
        requires ready { MayAdvance self.old (F.bits sweeper.old) (F.left (F.origin sweeper.old)) }
        requires some { 0 < limit }
        ensures done { IfOk result (λ step. Advances limit self.old (F.bits sweeper.old) report.old
            step self.new (F.bits sweeper.new) (F.left (F.origin sweeper.new)) report.new) }
        ensures steps { IfOk result (λ step. tells_start step report.new ≡ false
            → UnitsReadFew step.units steps.old (heap_with self.old (F.bits sweeper.old)) steps.new
            (heap_with self.new (F.bits sweeper.new))) }
        ensures handed { IfOk result (λ step. step.handed ≡ None) }
        ensures err_where { OnErr result (MayWantMemory self.old (F.bits sweeper.old)) }
        ensures err { OnErr result (IsStill self.old (F.bits sweeper.old) self.new
            (F.bits sweeper.new)) }
        ensures err_report { OnErr result (report.new ≡ report.old) }
        ensures err_out { OnErr result (F.origin sweeper.new ≡ F.origin sweeper.old) }
        ensures home { F.home (F.origin sweeper.new) ≡ F.home (F.origin sweeper.old) }
    {
        let Step {
            units,
            reported,
            finished,
            handed,
        } = self.advance(alloc, limit, sweeper, report, steps)?;
        sweeper.take_over(handed);
        Ok(Step {
            units,
            reported,
            finished,
            handed: None,
        })
    }

    // Does the unit that is left where none is quiet and no arena is out: the beginning of marking, a grouping step,
    // or the end of the current group.
    fn advance_one<L: Ledger>(
        &mut self,
        alloc: Global,
        report: &mut Option<Report>,
        steps: &mut Steps<L>,
    ) -> Result<Step, NoMemory>
        requires counted { self.old.heap.ledger ≡ Some L.name }
        requires rests { (flown : ℕ → Option ABits) × IsSound self.old flown
            × IsQuietDone self.old flown }
        requires running { IsSome self.old.run }
        requires none_out { (a : ℕ) → out_of self.old.heap.shape a ≡ None }
        ensures done { IfOk result (λ step. (flown : ℕ → Option ABits) (outs : List (ℕ × ℕ))
            → IsSound self.old flown → IsQuietDone self.old flown
            → AreOut self.old.heap.shape outs
            → Advances 1 self.old flown report.old step self.new (flying_after step.handed flown)
            (outs_after step.handed outs) report.new) }
        ensures handed { IfOk result (λ step. AreJobs step.handed
            (jobs_told step report.new self.old.heap)) }
        ensures steps { IfOk result (λ step. tells_start step report.new ≡ false → steps.new ≡ steps.old) }
        ensures err { OnErr result (self.new ≡ self.old) }
        ensures err_where { OnErr result (IsFormed self.old ⊎ IsAtStart self.old) }
        ensures err_report { OnErr result (report.new ≡ report.old) }
    {
        match self.phase {
            Phase::Idle => Ok(Step::none()),
            Phase::Preparing { zones, .. } => {
                self.start_marking(alloc, zones, report, steps)?;
                Ok(Step::one(true))
            }
            Phase::Grouping { zones, ungrouped } => {
                Ok(Step::one(self.group_step(zones, ungrouped, report)))
            }
            Phase::Grouped { .. } => {
                self.groups_law();
                self.end_group_into(alloc, report)
            }
        }
    }

    /// Takes the lowest arena in that is out, and puts what it reports into a place: returns whether the
    /// collection is over. It takes no memory.
    pub fn take_due<F: Sweeping>(
        &mut self,
        flight: &mut F,
        arena: u32,
        report: &mut Option<Report>,
    ) -> bool
        requires ready { MayAdvance self.old (F.bits flight.old) (F.left (F.origin flight.old)) }
        requires lowest { IsLowestOut self.old.heap.shape arena }
        ensures takes { TakesDue F.bits F.origin F.left F.home report.new result self.old flight.old
            self.new flight.new }
        ensures told { TellsSweep arena report.new }
    {
        if flight.is_empty() {
            unreachable!();
        }
        let taken = flight.take_lowest();
        self.take_one_into(taken, arena, report)
    }

    // What holds of the groups. It does nothing.
    pub(crate) fn groups_law(&self)
        ensures { HasGroups self.now }
    {
        let Some(group) = self.order.current() else {
            return;
        };
        word_law(group);
    }
}

// A set of zones is a word of 64 bits. It does nothing.
fn word_law(zones: ZoneSet)
    ensures { (z : ℕ) → bit_at zones.bits z ≡ 1 → z < 64 }
{
    zones.is_empty();
}
