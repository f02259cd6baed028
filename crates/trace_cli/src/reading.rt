// The whole replay: what the words ask for is done to its end.
ghost use Rattle.std.specs.Prelude.{◌≡◌, ◌≢◌, ◌<◌, ℕ, [], map, ◌⊎◌, IfOk, Some};
ghost use Rattle.clap.specs.Words.{fault_of};
ghost use Rattle.gz_io.specs.Causes.{Rose};
ghost use Rattle.command_words.specs.Program.{gczone};
ghost use Rattle.mark_ahead.specs.Markers.{HasFoundIn, MayBeMarked};
ghost use Rattle.slice_driver.specs.Units.{none_flown};
ghost use Rattle.trace_cli.specs.CommandLine.{ArePlain, IsCheck, IsStorm, IsStormOf};
ghost use Rattle.trace_cli.specs.Headline.{Replays, Completes, Checks, Concluded};
ghost use Rattle.trace_cli.specs.Pauses.{PausesSo};
ghost use Rattle.trace_cli.specs.Storms.{Storms};
ghost use Rattle.trace_cli.specs.Standing.{Entry, HasEnded, IsNew, ReplayEnds, IsStanding, Standing, entry_of};

use crate::dumps::check_dump;
use crate::exit::Exit;
use crate::helpers::Helpers;
use crate::lines::end_so;
use crate::machine::{Machine, Pause};
use crate::replaying::Replaying;
use crate::storm::answer_storm;
use command_source::{CommandSource, TraceSource};
use command_words::{CommandLine, WordsFault, read_words};
use gz_io::{Gate, LineReader, Sink, Source};
use gz_names::Place;
use heap_core::{Heap, Steps};
use par_mark::mark_heap;
use std::alloc::Global;
use std::marker::Brand;
use std::mem;
use std::sync::Wait;
use std::sync::ledger::{Blank, Ledger};
use std::thread::Threads;
use sweep_beside::{Works, sweep_beside};
use sweeping::MainSweeper;

/// From how much work on threads share it.
#[derive(Clone, Copy, Debug, PartialEq, Eq)]
pub struct Thresholds {
    /// For how many arenas begun one helper at most starts.
    pub arenas_a_helper: usize,
    /// How many cells are pending in black where two markers start.
    pub cells_for_two: usize,
    ghost some: { 0 < arenas_a_helper },
}

/// What a replay is lent: threads and memory, how many helpers sweep, and the gate that they pass.
#[derive(Drop)]
pub struct Resources<'r, R, G> {
    pub rt: &'r R,
    pub alloc: Global,
    pub helpers: Helpers,
    pub thresholds: Thresholds,
    pub gate: &'r G,
    /// Whether two markers follow what is black in a `collect`, once there is enough to share.
    pub two_markers: bool,
}

// Goes on until the replay is over: over no arenas, or beside the helpers that sweep those that were handed out.
fn run_on<
    R: Threads + Wait + Sync,
    S: CommandSource + Send,
    K: Sink + Send,
    G: Gate + Sync,
    L: Ledger + Send,
>(resources: &Resources<'_, R, G>, replaying: &mut Replaying<'_, '_, '_, '_, '_, S, K, L>) -> Exit
    requires going { replaying.old.pause.now ≡ Pause.None }
    requires counted { replaying.old.machine.now.collector.heap.ledger ≡ Some L.name }
    requires standing { IsStanding replaying.old.machine.now (S.input replaying.old.source.now)
        (K.written replaying.old.sink.now) (K.faults replaying.old.sink.now) [] none_flown }
    ensures machine { replaying.new.machine.ghost_name ≡ replaying.old.machine.ghost_name }
    ensures source { replaying.new.source.ghost_name ≡ replaying.old.source.ghost_name }
    ensures sink { replaying.new.sink.ghost_name ≡ replaying.old.sink.ghost_name }
    ensures steps { replaying.new.steps.ghost_name ≡ replaying.old.steps.ghost_name }
    ensures pause { replaying.new.pause.ghost_name ≡ replaying.old.pause.ghost_name }
    ensures lender { S.lender replaying.new.source.now ≡ S.lender replaying.old.source.now }
    ensures ended { (e : Entry)
        → Standing e replaying.old.machine.now (S.input replaying.old.source.now)
        (K.written replaying.old.sink.now) (K.faults replaying.old.sink.now) [] none_flown
        → HasEnded e result replaying.new.machine.now (S.input replaying.new.source.now)
        (K.written replaying.new.sink.now) (K.faults replaying.new.sink.now) (K.behind replaying.new.sink.now) }
{
    for _ in resources.rt.forever() {
        match mem::replace(replaying.pause, Pause::None) {
            Pause::None | Pause::BoardEmpty => {
                replaying.run(&mut MainSweeper::new(resources.alloc));
            }
            Pause::MarkingBegan => {
                if resources.two_markers {
                    replaying.mark_by(
                        resources.thresholds.cells_for_two,
                        &|alloc: Global, heap: &Heap, from: &[Place], words: Vec<u64>|
                            requires { MayBeMarked heap.now from.now words.items }
                            ensures { IfOk result (λ r. HasFoundIn heap.entry.now words.items from.entry.now
                                r.0.items r.1) }
                        { mark_heap(resources.rt, alloc, heap, from, words, resources.gate) },
                    );
                }
            }
            Pause::Sweep(jobs) => {
                let count = resources.helpers.beside(&jobs);
                if sweep_beside(
                    resources.rt,
                    resources.alloc,
                    jobs,
                    count,
                    resources.thresholds.arenas_a_helper,
                    resources.gate,
                    replaying,
                )
                .is_err()
                {
                    return end_so(replaying.sink, Exit::NoMemory);
                }
            }
            Pause::Over(exit) => return exit,
        }
    }
    unreachable!()
}

/// Answers each command of a source from which nothing was taken yet, in order. A new ledger counts the edges that are
/// read for the answers.
pub fn answer_all<
    L: Ledger + Send,
    R: Threads + Wait + Sync,
    S: CommandSource + Send,
    K: Sink + Send,
    G: Gate + Sync,
>(
    resources: &Resources<'_, R, G>,
    machine: &mut Machine,
    source: &mut S,
    sink: &mut K,
    blank: Blank,
) -> Exit
    requires ledger { (blank.name ≡ L.name) × (blank.parts ≡ L.parts) × (0 < blank.parts) }
    requires new { IsNew machine.old }
    requires untaken { (S.input source.old).held ≡ [] }
    ensures lender { S.lender source.new ≡ S.lender source.old }
    ensures ended { HasEnded (entry_of (S.input source.old).left (K.written sink.old) (S.input source.old).faults
        (K.faults sink.old)) result machine.new (S.input source.new) (K.written sink.new) (K.faults sink.new)
        (K.behind sink.new) }
{
    let mut steps = machine.collector.count_edges::<L>(blank);
    let mut pause = Pause::None;
    let mut replaying = Replaying {
        alloc: resources.alloc,
        machine,
        source,
        sink,
        steps: &mut steps,
        pause: &mut pause,
    };
    run_on(resources, &mut replaying)
}

// Answers each line of a source, in order.
fn answer_lines<
    L: Ledger + Send,
    R: Threads + Wait + Sync,
    S: Source + Send,
    K: Sink + Send,
    G: Gate + Sync,
>(resources: &Resources<'_, R, G>, source: &mut S, sink: &mut K, blank: Blank) -> Exit
    requires ledger { (blank.name ≡ L.name) × (blank.parts ≡ L.parts) × (0 < blank.parts) }
    ensures { ReplayEnds (entry_of (S.left source.old) (K.written sink.old) (S.faults source.old)
        (K.faults sink.old)) result (S.left source.new) (K.written sink.new) (S.faults source.new)
        (K.faults sink.new) (K.behind sink.new) }
{
    let Ok(mut machine) = Machine::new(resources.alloc) else {
        return end_so(sink, Exit::NoMemory);
    };
    let mut commands = TraceSource {
        reader: LineReader::new(),
        source,
    };
    let exit = answer_all::<L, R, TraceSource<'_, S>, K, G>(
        resources,
        &mut machine,
        &mut commands,
        sink,
        blank,
    );
    drop(machine);
    exit
}

/// Replays a trace, or checks a dump of colours. The words are the command line's, the program's name first. Of the
/// helpers and markers that they ask for no more start than the thresholds allow.
pub fn replay<R: Threads + Wait + Sync, S: Source + Send, K: Sink + Send, G: Gate + Sync>(
    rt: &R,
    alloc: Global,
    words: &[&str],
    thresholds: Thresholds,
    source: &mut S,
    sink: &mut K,
    gate: &G,
) -> Exit
    ensures lawful { (IsCheck (map (λ w. w.now) words.now) → ⊥) → (IsStorm (map (λ w. w.now) words.now) → ⊥)
        → Replays (S.left source.old) (S.left source.new) (K.written sink.old) (K.written sink.new) result }
    ensures storm { (seed lines : ℕ) → IsStormOf (map (λ w. w.now) words.now) seed lines
        → Storms seed lines (K.written sink.old) (K.written sink.new) result }
    ensures verdict { IsCheck (map (λ w. w.now) words.now)
        → Checks (S.left source.old) (K.written sink.old) (K.written sink.new) result }
    ensures quiet { (result ≡ Exit.Done) ⊎ (result ≡ Exit.Unsound) → (S.faults source.new ≡ S.faults source.old)
        × (K.faults sink.new ≡ K.faults sink.old) }
    ensures handed_on { result ≢ Exit.WriteFault
        → (IsCheck (map (λ w. w.now) words.now) → (result ≡ Exit.Done) ⊎ (result ≡ Exit.Unsound))
        → (K.behind sink.new ≡ 0) ⊎ (sink.new ≡ sink.old) }
    ensures unread { IsStorm (map (λ w. w.now) words.now) → source.new ≡ source.old }
    ensures read { result ≡ Exit.ReadFault → Rose (S.faults source.old) (S.faults source.new) }
    ensures write { result ≡ Exit.WriteFault → Rose (K.faults sink.old) (K.faults sink.new) }
    ensures usage { result ≡ Exit.Usage → fault_of gczone (map (λ w. w.now) words.now) ≢ [] }
    ensures refused { fault_of gczone (map (λ w. w.now) words.now) ≢ []
        → (result ≡ Exit.Usage) ⊎ (result ≡ Exit.NoMemory) }
    ensures plain { ArePlain (map (λ w. w.now) words.now) → result ≢ Exit.Usage }
    ensures untouched { result ≡ Exit.Usage → (source.new ≡ source.old) × (sink.new ≡ sink.old) }
    ensures complete { Completes (map (λ w. w.now) words.now) (S.left source.old) (S.faults source.old)
        (S.faults source.new) (K.faults sink.old) (K.faults sink.new) result }
    ensures concludes { IsCheck (map (λ w. w.now) words.now) → Concluded (S.left source.old) (S.faults source.old)
        (S.faults source.new) (K.faults sink.old) (K.faults sink.new) result }
    ensures no_fault { result ≡ Exit.Unsound → IsCheck (map (λ w. w.now) words.now) }
{
    match read_words(alloc, words) {
        Ok(CommandLine::Run { helpers, markers }) => {
            let resources = Resources {
                rt,
                alloc,
                helpers: Helpers::of(words, helpers),
                thresholds,
                gate,
                two_markers: markers == 2,
            };
            answer_lines::<Brand, R, S, K, G>(&resources, source, sink, Blank::new(1))
        }
        Ok(
            CommandLine::Storm {
                seed,
                lines,
                helpers,
            },
        ) => {
            let resources = Resources {
                rt,
                alloc,
                helpers: Helpers::of(words, helpers),
                thresholds,
                gate,
                two_markers: false,
            };
            answer_storm::<Brand, R, K, G>(&resources, seed, lines, sink, Blank::new(1))
        }
        Ok(CommandLine::Check) => check_dump(alloc, source, sink),
        Err(WordsFault::Usage) => Exit::Usage,
        Err(WordsFault::NoMemory) => Exit::NoMemory,
    }
}
