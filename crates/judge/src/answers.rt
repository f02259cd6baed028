// The answer to one command: which of its lines come next.
ghost use Rattle.std.specs.Prelude.{◌≡◌, ◌≢◌, ◌↔◌, ◌<◌, ◌≤◌, ◌^◌, ◌++◌, ℕ, Bool, IfNone, IfOk, IfSome, IsTrue, List};
ghost use Rattle.std.specs.Prelude.{Decides, None, OnOk, Some, codes, drop, false, true, ◌∷◌, []};
ghost use Rattle.std.specs.Fmt.{decimal};
ghost use Rattle.gz_names.specs.declared.commands.WeakCmd.TheVariants as cmd;
ghost use Rattle.gz_names.specs.declared.replies.Reply.TheVariants as the_reply;
ghost use Rattle.colour_defs.specs.Graph.{GraphState, register_cell};
ghost use Rattle.colour_defs.specs.Step.{step_of, with_register};
ghost use Rattle.trace_lang.specs.Texts.{reply_text};
ghost use Rattle.judge.specs.Sound.{IsSound};
ghost use Rattle.judge.specs.Stages.{IsOver, IsOverBound, IsReportedLine, IsWrongReportLine, Obeys, Shown, Spends};
ghost use Rattle.judge.specs.Stages.{idle};
ghost use Rattle.judge.specs.Stages.{shown, stage_of};
ghost use Rattle.judge.specs.Replies.{Asks, AsksCompact, Begins, Counts, Dumps, GoesOn, IsJudgedLine, LooksLast};
ghost use Rattle.judge.specs.Running.{HasUnits};
ghost use Rattle.judge.specs.Replies.{IsSliced, IsWithin, ListsGray, after_reset, begun_due, due_as, dump as dump_of};
ghost use Rattle.judge.specs.Replies.{AsksUnwatch, AsksWatch, AsksWeak, IsUncounted, graph_after, graph_after_weak};
ghost use Rattle.judge.specs.Replies.{IsLast, nothing, reply};
ghost use Rattle.judge.specs.Replies.{resets, units as units_of};
ghost use Rattle.judge.specs.Weak.{weak_slot};

use crate::checks::{self, Fault};
use crate::dumps::dump_lines;
use crate::kinds;
use crate::running::Running;
use crate::tally::with_one;
use crate::text::{is_same, reply_text};
use crate::world::{DueReport, World};
use gz_names::{
    Cmd, DumpLine, DumpLines, GraphCmd, NameList, NoMemory, Refusal, Reg, Reply, WeakCmd, WeakNo,
    ZoneNo, ZoneSet,
};
use plain_graph::{Graph, step, take_in_register};
use std::alloc::AllocError;
use std::str;

const NOT_OVER: &[u8] = b"report, the collection is not over";

/// What is still to come of an answer.
#[derive(Drop)]
pub enum Awaited {
    Nothing,
    /// A reply: this line.
    Reply(Vec<u8>),
    /// These lines of a dump, from this one on.
    Dump(Vec<DumpLine>, usize),
    Units(Running),
    /// The reports of a reset.
    Reset,
}

// A reply and nothing else.
fn only(world: &World, answer: &Reply) -> Result<Awaited, NoMemory>
    ensures { IfOk result (λ awaited. due_as awaited ≡ reply (reply_text answer.now)) }
{
    let text = reply_text(world.alloc, answer)?;
    Ok(Awaited::Reply(text))
}

/// What is due for a command; it does what the command does before its first line.
pub fn begin_answer(
    graph: &mut Graph,
    world: &mut World,
    command: &Cmd,
) -> Result<Awaited, NoMemory>
    ensures asks { IfOk result (λ awaited. Asks graph.old (shown world.old) command.now (due_as awaited)
        (shown world.new)) }
    ensures graph { OnOk result (graph.new ≡ graph_after graph.old (shown world.old) command.now) }
{
    match command {
        Cmd::Graph(command) => follow(graph, world, command),
        Cmd::Gc(zones) => begin(graph, world, *zones, false),
        Cmd::Collect(zones) => begin(graph, world, *zones, true),
        Cmd::Slice(units) => slice(world, Some(u64::from(*units))),
        Cmd::Finish => slice(world, None),
        Cmd::Colours => colours(world),
        Cmd::Dump => dump(graph, world),
        Cmd::Reset => reset(world),
        Cmd::Weak(command) => weak(graph, world, command),
        Cmd::Compact(zone) => compact(graph, world, *zone),
    }
}

// A command on the graph.
fn follow(graph: &mut Graph, world: &mut World, command: &GraphCmd) -> Result<Awaited, NoMemory>
    ensures due { IfOk result (λ awaited. due_as awaited ≡ reply (reply_text (step_of graph.old command.now).1)) }
    ensures graph { OnOk result (graph.new ≡ (step_of graph.old command.now).0) }
    ensures obeys { OnOk result (Obeys graph.old command.now (shown world.old) (shown world.new)) }
{
    let reply = step(world.alloc, graph, command)?;
    world.follow(graph, command, &reply)?;
    only(world, &reply)
}

// A command on weak slots and watched cells.
fn weak(graph: &mut Graph, world: &mut World, command: &WeakCmd) -> Result<Awaited, NoMemory>
    ensures asks { IfOk result (λ awaited. AsksWeak graph.old (shown world.old) command.now (due_as awaited)
        (shown world.new)) }
    ensures graph { OnOk result (graph.new ≡ graph_after_weak graph.old (shown world.old) command.now) }
{
    match command {
        WeakCmd::Weaken(slot, register) => {
            world.weak.set_slot(*slot, graph.register(*register));
            only(world, &Reply::Accepted)
        }
        WeakCmd::Deref(register, slot) => deref(graph, world, *register, *slot),
        WeakCmd::Watch(register) => watch(graph, world, *register),
        WeakCmd::Unwatch(register) => unwatch(graph, world, *register),
    }
}

fn deref(
    graph: &mut Graph,
    world: &mut World,
    register: Reg,
    slot: WeakNo,
) -> Result<Awaited, NoMemory>
    ensures asks { IfOk result (λ awaited. AsksWeak graph.old (shown world.old) (cmd.Deref register slot)
        (due_as awaited) (shown world.new)) }
    ensures graph { OnOk result (graph.new ≡ with_register graph.old register (weak_slot world.old.weak slot)) }
{
    let named = world.weak.slot(slot);
    let reply = take_in_register(graph, register, named);
    world.take_named(graph, register, named)?;
    only(world, &reply)
}

fn watch(graph: &Graph, world: &mut World, register: Reg) -> Result<Awaited, NoMemory>
    ensures { IfOk result (λ awaited. AsksWatch (register_cell graph.now register) (shown world.old)
        (due_as awaited) (shown world.new)) }
{
    let Some(name) = graph.register(register) else {
        return only(world, &Reply::Refused(Refusal::Empty));
    };
    world.weak.watch(name)?;
    only(world, &Reply::Accepted)
}

fn unwatch(graph: &Graph, world: &mut World, register: Reg) -> Result<Awaited, NoMemory>
    ensures { IfOk result (λ awaited. AsksUnwatch (register_cell graph.now register) (shown world.old)
        (due_as awaited) (shown world.new)) }
{
    let Some(name) = graph.register(register) else {
        return only(world, &Reply::Refused(Refusal::Empty));
    };
    if !world.weak.is_watched(name) {
        return only(world, &Reply::Absent);
    }
    world.weak.unwatch(name);
    only(world, &Reply::Accepted)
}

// The cells of a zone move together, where no collection runs.
fn compact(graph: &Graph, world: &mut World, zone: ZoneNo) -> Result<Awaited, NoMemory>
    ensures { IfOk result (λ awaited. AsksCompact graph.now zone (shown world.old) (due_as awaited)
        (shown world.new)) }
{
    if let Some(why) = world.refusal(graph, ZoneSet::only(zone)) {
        return only(world, &Reply::Refused(why));
    }
    let compacted = world.compact(graph, zone)?;
    only(
        world,
        &Reply::Compacted(compacted.moved, compacted.given_up),
    )
}

fn begin(
    graph: &Graph,
    world: &mut World,
    zones: ZoneSet,
    collects: bool,
) -> Result<Awaited, NoMemory>
    ensures { IfOk result (λ awaited. Begins graph.now zones (begun_due collects) (shown world.old)
        (due_as awaited) (shown world.new)) }
{
    if let Some(why) = world.refusal(graph, zones) {
        return only(world, &Reply::Refused(why));
    }
    world.begin(graph, zones)?;
    begun(world, collects)
}

// What is due where a collection begins.
fn begun(world: &World, collects: bool) -> Result<Awaited, NoMemory>
    ensures { IfOk result (λ awaited. due_as awaited ≡ begun_due collects) }
{
    if !collects {
        return only(world, &Reply::GcBegun);
    }
    Ok(Awaited::Units(Running {
        most: None,
        collects: true,
        reports: 0,
    }))
}

fn slice(world: &World, most: Option<u64>) -> Result<Awaited, NoMemory>
    ensures { IfOk result (λ awaited. GoesOn (units_of most false 0) (stage_of world.now.phase) (due_as awaited)) }
{
    if !world.is_running() {
        return only(world, &Reply::Refused(Refusal::Idle));
    }
    Ok(Awaited::Units(Running {
        most,
        collects: false,
        reports: 0,
    }))
}

fn reset(world: &World) -> Result<Awaited, NoMemory>
    ensures { IfOk result (λ awaited. GoesOn resets (stage_of world.now.phase) (due_as awaited)) }
{
    if !world.is_running() {
        return only(world, &Reply::Refused(Refusal::Idle));
    }
    Ok(Awaited::Reset)
}

fn colours(world: &World) -> Result<Awaited, NoMemory>
    ensures { IfOk result (λ awaited. ListsGray (shown world.now) (due_as awaited)) }
{
    if !world.is_settled() {
        return only(world, &Reply::Refused(Refusal::Marking));
    }
    let names = world.gray_names()?;
    only(world, &Reply::Gray(NameList::from_vec(names)))
}

fn dump(graph: &Graph, world: &World) -> Result<Awaited, NoMemory>
    ensures { IfOk result (λ awaited. Dumps graph.now (shown world.now) (due_as awaited)) }
{
    if !world.is_settled() {
        return only(world, &Reply::Refused(Refusal::Marking));
    }
    let lines = dump_lines(graph, world)?;
    Ok(Awaited::Dump(lines, 0))
}

// The text of a line of a dump.
fn dump_text(world: &World, line: DumpLine) -> Result<Vec<u8>, NoMemory>
    ensures { IfOk result (λ text. text.items ≡ reply_text (the_reply.Dump (line ∷ []))) }
{
    let lines = DumpLines::from_vec(Vec::from_slice(world.alloc, &[line])?);
    reply_text(world.alloc, &Reply::Dump(lines))
}

impl Awaited {
    pub fn is_whole(&self) -> bool
        ensures { IsTrue result ↔ (self.now ≡ Awaited.Nothing) }
    {
        matches!(self, Awaited::Nothing)
    }

    /// What is wrong with a command that comes now.
    pub fn unfinished(&self, world: &World) -> Result<Vec<u8>, NoMemory> {
        match self {
            Awaited::Reply(line) => kinds::unfinished(world.alloc, line.as_slice()),
            Awaited::Dump(lines, next) => match lines.get(*next) {
                None => kinds::unfinished(world.alloc, b""),
                Some(line) => {
                    let due = dump_text(world, *line)?;
                    kinds::unfinished(world.alloc, due.as_slice())
                }
            },
            _ => kinds::unfinished(world.alloc, b""),
        }
    }
}

/// What is still to come after a line, or what is wrong with it.
pub type Judgement = Result<Awaited, Vec<u8>>;

/// Judges a line of an answer.
pub fn judge_line(
    graph: &Graph,
    world: &mut World,
    awaited: Awaited,
    text: &[u8],
) -> Result<Judgement, NoMemory>
    requires { IsSound graph.now (shown world.old) }
    ensures { IfOk result (IsJudgedLine graph.now (shown world.old) (due_as awaited) text.now (shown world.new)) }
{
    match awaited {
        Awaited::Nothing => too_many(world),
        Awaited::Reply(due) => reply_line(world, due, text),
        Awaited::Dump(lines, next) => dump_line(world, lines, next, text),
        Awaited::Units(running) => units_line(graph, world, running, text),
        Awaited::Reset => reset_line(graph, world, text),
    }
}

// A line that comes where none is due.
fn too_many(world: &World) -> Result<Judgement, NoMemory>
    ensures { IfOk result (λ it. (g : GraphState) (s : Shown) (line : List ℕ)
        → IsJudgedLine g s nothing line s it) }
{
    let kind = kinds::said(world.alloc, b"end, no line is due")?;
    Ok(Err(kind))
}

fn reply_line(world: &World, wanted: Vec<u8>, text: &[u8]) -> Result<Judgement, NoMemory>
    ensures { IfOk result (λ it. (g : GraphState) (s : Shown)
        → IsJudgedLine g s (reply wanted.items) text.now s it) }
{
    if is_same(text, wanted.as_slice()) {
        return Ok(Ok(Awaited::Nothing));
    }
    let kind = kinds::settled(world, wanted.as_slice(), text)?;
    Ok(Err(kind))
}

fn dump_line(
    world: &World,
    lines: Vec<DumpLine>,
    next: usize,
    text: &[u8],
) -> Result<Judgement, NoMemory>
    ensures { IfOk result (λ it. (g : GraphState) (s : Shown)
        → IsJudgedLine g s (dump_of (drop next lines.items)) text.now s it) }
{
    let Some(line) = lines.get(next).copied() else {
        let kind = kinds::said(world.alloc, b"end, no line is due")?;
        return Ok(Err(kind));
    };
    let due = dump_text(world, line)?;
    if !is_same(text, due.as_slice()) {
        let kind = kinds::settled(world, due.as_slice(), text)?;
        return Ok(Err(kind));
    }
    if next + 1 == lines.len() {
        Ok(Ok(Awaited::Nothing))
    } else {
        Ok(Ok(Awaited::Dump(lines, next + 1)))
    }
}

fn units_line(
    graph: &Graph,
    world: &mut World,
    running: Running,
    text: &[u8],
) -> Result<Judgement, NoMemory>
    requires { IsSound graph.now (shown world.old) }
    ensures { IfOk result (IsJudgedLine graph.now (shown world.old)
        (units_of running.most running.collects running.reports) text.now (shown world.new)) }
{
    if is_last(running, text) {
        return match last_line(world, running, text)? {
            None => Ok(Ok(Awaited::Nothing)),
            Some(kind) => Ok(Err(kind)),
        };
    }
    let Some(more) = with_report(running, text)? else {
        let words = b"units, the slice has a report for each of its units, due is its last line";
        return Ok(Err(kinds::said(world.alloc, words)?));
    };
    match next_report(graph, world, running, text)? {
        None => Ok(Ok(Awaited::Units(more))),
        Some(kind) => Ok(Err(kind)),
    }
}

fn reset_line(graph: &Graph, world: &mut World, text: &[u8]) -> Result<Judgement, NoMemory>
    requires { IsSound graph.now (shown world.old) }
    ensures { IfOk result (IsJudgedLine graph.now (shown world.old) resets text.now (shown world.new)) }
{
    if let Some(kind) = checks::judge_reset(graph, world, text)? {
        return Ok(Err(kind));
    }
    let awaited = after_reset(world)?;
    Ok(Ok(awaited))
}

// What is due after a report of a reset.
fn after_reset(world: &World) -> Result<Awaited, NoMemory>
    ensures { IfOk result (λ awaited. due_as awaited ≡ after_reset (stage_of world.now.phase)) }
{
    if world.is_running() {
        return Ok(Awaited::Reset);
    }
    only(world, &Reply::ResetDone)
}

// What follows `slice ` in a line.
fn after_slice(text: &[u8]) -> Option<&[u8]>
    ensures some { IfSome result (λ rest. text.now ≡ codes "slice " ++ rest.now) }
    ensures none { IfNone result ((rest : List ℕ) → text.now ≡ codes "slice " ++ rest → ⊥) }
{
    text.strip_prefix(b"slice ".as_slice())
}

// Whether a line looks as the last one of an answer.
fn is_last(running: Running, text: &[u8]) -> bool
    ensures { Decides result (LooksLast running.collects text.now) }
{
    if running.collects {
        is_same(text, b"collected")
    } else {
        after_slice(text).is_some()
    }
}

// Whether a line is a report that comes with another one.
fn is_uncounted(text: &[u8]) -> bool
    ensures { Decides result (IsUncounted text.now) }
{
    is_same(text, b"done") || text.strip_prefix(b"told ".as_slice()).is_some()
}

// A report more; `done` comes with the last one, and `told` with the end of a group. None where a slice has no unit
// left for it.
fn with_report(running: Running, text: &[u8]) -> Result<Option<Running>, NoMemory>
    ensures some { IfOk result (λ it. IfSome it (λ more. (more.most ≡ running.most)
        × (more.collects ≡ running.collects) × Counts running.reports text.now more.reports)) }
    ensures none { IfOk result (λ it. IfNone it ((more : ℕ) → Counts running.reports text.now more
        → HasUnits running.most more → ⊥)) }
{
    if is_uncounted(text) {
        return Ok(Some(running));
    }
    if running.most == Some(running.reports) {
        return Ok(None);
    }
    Ok(Some(Running {
        most: running.most,
        collects: running.collects,
        reports: with_one(running.reports, true)?,
    }))
}

fn next_report(
    graph: &Graph,
    world: &mut World,
    running: Running,
    text: &[u8],
) -> Result<Fault, NoMemory>
    requires { IsSound graph.now (shown world.old) }
    ensures right { IfOk result (λ fault. IfNone fault (IsReportedLine graph.now (shown world.old) text.now
        (shown world.new))) }
    ensures wrong { IfOk result (λ fault. IfSome fault (λ _. IsWrongReportLine graph.now (shown world.old)
        text.now)) }
{
    if world.has_told() && world.due_report() == DueReport::Idle {
        let words: &[u8] = if running.collects {
            b"report, the collection is over, due is \"collected\""
        } else {
            b"report, the collection is over, due is \"slice ..\""
        };
        return Ok(Some(kinds::said(world.alloc, words)?));
    }
    checks::judge_report(graph, world, text)
}

// What is wrong with the last line of an answer.
fn last_line(world: &mut World, running: Running, text: &[u8]) -> Result<Fault, NoMemory>
    requires { LooksLast running.collects text.now }
    ensures right { IfOk result (λ fault. IfNone fault
        (IsLast running.most running.collects running.reports (shown world.old) text.now (shown world.new))) }
    ensures wrong { IfOk result (λ fault. IfSome fault (λ _. (new : Shown)
        → IsLast running.most running.collects running.reports (shown world.old) text.now new → ⊥)) }
{
    if !world.has_told() {
        return Ok(Some(kinds::said(world.alloc, b"report, due is \"told ..\"")?));
    }
    if world.is_over() {
        return Ok(Some(kinds::due(world.alloc, b"report", b"done")?));
    }
    if running.collects {
        collected(world)
    } else {
        slice_line(world, running, text)
    }
}

// What is wrong with the last line of `collect`.
fn collected(world: &World) -> Result<Fault, NoMemory>
    ensures right { IfOk result (λ fault. IfNone fault (stage_of world.now.phase ≡ idle)) }
    ensures wrong { IfOk result (λ fault. IfSome fault (λ _. stage_of world.now.phase ≢ idle)) }
{
    if world.is_running() {
        return Ok(Some(kinds::said(world.alloc, NOT_OVER)?));
    }
    Ok(None)
}

// The number that a text writes.
fn number_in(text: &[u8]) -> Option<u64>
    ensures { (k : ℕ) → k < 2 ^ 64 → text.now ≡ decimal k → result ≡ Some k }
{
    match str::from_utf8(text) {
        Err(_) => None,
        Ok(digits) => digits.parse().ok(),
    }
}

// The number of a slice's last line, if the line is its text.
fn sliced(world: &World, text: &[u8]) -> Result<Option<u64>, NoMemory>
    ensures some { IfOk result (λ it. IfSome it (λ k. text.now ≡ reply_text (the_reply.Sliced k))) }
    ensures none { IfOk result (λ it. IfNone it
        ((k : ℕ) → k < 2 ^ 64 → text.now ≡ reply_text (the_reply.Sliced k) → ⊥)) }
{
    let Some(word) = after_slice(text) else {
        return Ok(None);
    };
    let Some(units) = number_in(word) else {
        return Ok(None);
    };
    let due = reply_text(world.alloc, &Reply::Sliced(units))?;
    if is_same(text, due.as_slice()) {
        Ok(Some(units))
    } else {
        Ok(None)
    }
}

fn slice_line(world: &mut World, running: Running, text: &[u8]) -> Result<Fault, NoMemory>
    requires over { IsOver (shown world.old) → ⊥ }
    requires told { world.old.told ≡ [] }
    ensures right { IfOk result (λ fault. IfNone fault
        (IsSliced running.most running.reports (shown world.old) text.now (shown world.new))) }
    ensures wrong { IfOk result (λ fault. IfSome fault (λ _. (new : Shown)
        → IsSliced running.most running.reports (shown world.old) text.now new → ⊥)) }
{
    let Some(units) = sliced(world, text)? else {
        return Ok(Some(kinds::due(world.alloc, b"reply", b"slice ..")?));
    };
    if let Some(words) = wrong_number(world, running, units) {
        return Ok(Some(kinds::said(world.alloc, words)?));
    }
    spend(world, units)
}

// What is wrong with the number of units of a slice.
fn wrong_number(world: &World, running: Running, units: u64) -> Option<&'static [u8]>
    ensures enough { IfNone result (running.reports ≤ units) }
    ensures within { IfNone result (IsWithin running.most units (stage_of world.now.phase)) }
    ensures wrong { IfSome result (λ _. running.reports ≤ units
        → IsWithin running.most units (stage_of world.now.phase) → ⊥) }
{
    let is_running = world.is_running();
    if units < running.reports {
        return Some(b"units, there are more reports than units");
    }
    let Some(most) = running.most else {
        return if is_running { Some(NOT_OVER) } else { None };
    };
    if units > most {
        return Some(b"units, there are more than the slice may have");
    }
    if units < most && is_running {
        return Some(b"units, there are fewer than the slice has, and the collection is not over");
    }
    None
}

// Counts units; whether they are more than the bound allows.
fn spend(world: &mut World, units: u64) -> Result<Fault, NoMemory>
    ensures spent { IfOk result (λ fault. IfNone fault (Spends (shown world.old) units (shown world.new))) }
    ensures over { IfOk result (λ fault. IfSome fault (λ _. IsOverBound (shown world.old) units)) }
{
    let spent = u128::from(world.tally.spent) + u128::from(units);
    let limit = world.unit_limit();
    if spent > limit {
        return Ok(Some(kinds::bound(world.alloc, spent, limit)?));
    }
    match u64::try_from(spent) {
        Err(_) => Err(AllocError),
        Ok(spent) => {
            world.tally.spent = spent;
            Ok(None)
        }
    }
}
