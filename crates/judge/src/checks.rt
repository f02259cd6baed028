// The checks of reports, by the definitions: which report is due, and what is wrong with another one.
ghost use Rattle.std.specs.Prelude.{◌≡◌, ◌≢◌, ◌↔◌, ℕ, [], ◌∷◌, IfNone, IfOk, IfSome, IsTrue, List, MatchOption};
ghost use Rattle.std.specs.Prelude.{◌≤◌, OnOk, codes, drop, length};
ghost use Rattle.gz_names.specs.declared.names.Name.{Name as AName};
ghost use Rattle.gz_names.specs.declared.zone_sets.ZoneSet.{ZoneSet as AZoneSet};
ghost use Rattle.gz_names.specs.declared.replies.Report.TheVariants as the_report;
ghost use Rattle.trace_lang.specs.Texts.{report_text, told_text};
ghost use Rattle.judge.specs.declared.world.DueReport.TheVariants as due;
ghost use Rattle.judge.specs.Edges.{AreInOrder};
ghost use Rattle.judge.specs.Parts.{AreListed, AreParts, Fits};
ghost use Rattle.judge.specs.Sound.{IsSound};
ghost use Rattle.judge.specs.Whites.{whites_in};
ghost use Rattle.judge.specs.Walks.{CatchUp, CatchesUp, walks_in, walks_of};
ghost use Rattle.judge.specs.Stages.{AreForbidden, Finishes, Forms, IsDue, IsEndedLine, IsGroupsLine, IsOver};
ghost use Rattle.judge.specs.Stages.{IsToldLine, IsWrongReportLine, IsWrongResetLine, MayEnd, Shown, unfinished_in};
ghost use Rattle.judge.specs.Stages.{IsReportedLine, IsResetLine, Starts, Stops, Sweeps, shown, stage_in};

use crate::collection::{Collection, GroupEnd};
use crate::edges::{first_apart, first_backward, zone_edges};
use crate::former::Former;
use crate::group_lines::groups_in;
use crate::kinds;
use crate::text::{is_same, report_text};
use crate::world::{DueReport, Phase, World};
use gz_names::{Name, NameList, Names64, NoMemory, Place, Report, ZoneSet};
use plain_graph::Graph;
use std::alloc::Global;
use std::collections::BTreeMap;

/// What is wrong with a line, as a text; None where nothing is.
pub type Fault = Option<Vec<u8>>;

/// Judges a line as the next report of a unit, and does what the report does.
pub fn judge_report(graph: &Graph, world: &mut World, line: &[u8]) -> Result<Fault, NoMemory>
    requires { IsSound graph.now (shown world.old) }
    ensures right { IfOk result (λ fault. IfNone fault (IsReportedLine graph.now (shown world.old) line.now
        (shown world.new))) }
    ensures wrong { IfOk result (λ fault. IfSome fault (λ _. IsWrongReportLine graph.now (shown world.old)
        line.now)) }
{
    if !world.has_told() {
        return told(world, line);
    }
    match world.due_report() {
        DueReport::Idle => none_due(world),
        DueReport::Started => started(graph, world, line),
        DueReport::Groups => formed(graph, world, line),
        DueReport::Ended => ended(graph, world, line),
        DueReport::Swept(arena) => swept(world, arena, line),
        DueReport::Done => done(world, line),
    }
}

/// Judges a line as the next report of a reset, and does what the report does.
pub fn judge_reset(graph: &Graph, world: &mut World, line: &[u8]) -> Result<Fault, NoMemory>
    requires { IsSound graph.now (shown world.old) }
    ensures right { IfOk result (λ fault. IfNone fault (IsResetLine graph.now (shown world.old) line.now
        (shown world.new))) }
    ensures wrong { IfOk result (λ fault. IfSome fault (λ _. IsWrongResetLine (shown world.old) line.now)) }
{
    match world.due_report() {
        DueReport::Swept(arena) => swept(world, arena, line),
        DueReport::Done => done(world, line),
        _ => stopped(graph, world, line),
    }
}

// No report is due.
fn none_due(world: &World) -> Result<Fault, NoMemory>
    ensures { IfOk result (λ fault. IfNone fault ⊥) }
{
    let kind = kinds::said(world.alloc, b"report, no collection runs")?;
    Ok(Some(kind))
}

fn started(graph: &Graph, world: &mut World, line: &[u8]) -> Result<Fault, NoMemory>
    requires { IsDue due.Started (shown world.old) }
    ensures right { IfOk result (λ fault. IfNone fault ((line.now ≡ codes "started")
        × Starts graph.now (shown world.old) (shown world.new))) }
    ensures wrong { IfOk result (λ fault. IfSome fault (λ _. line.now ≢ codes "started")) }
{
    if is_same(line, b"started") {
        world.start(graph)?;
        return Ok(None);
    }
    Ok(Some(kinds::due(world.alloc, b"report", b"started")?))
}

fn stopped(graph: &Graph, world: &mut World, line: &[u8]) -> Result<Fault, NoMemory>
    requires none_out { (shown world.old).out ≡ [] }
    requires not_over { IsOver (shown world.old) → ⊥ }
    requires sound { IsSound graph.now (shown world.old) }
    ensures right { IfOk result (λ fault. IfNone fault ((zones : AZoneSet)
        × (line.now ≡ report_text (the_report.Stopped zones))
        × Stops graph.now (shown world.old) zones (shown world.new))) }
    ensures wrong { IfOk result (λ fault. IfSome fault (λ _.
        line.now ≢ report_text (the_report.Stopped (unfinished_in (shown world.old).stage)))) }
{
    let due = report_text(world.alloc, &Report::Stopped(world.unfinished()))?;
    if is_same(line, due.as_slice()) {
        world.stop(graph)?;
        return Ok(None);
    }
    Ok(Some(kinds::due(world.alloc, b"report", due.as_slice())?))
}

fn done(world: &mut World, line: &[u8]) -> Result<Fault, NoMemory>
    requires { IsDue due.Done (shown world.old) }
    ensures right { IfOk result (λ fault. IfNone fault ((line.now ≡ codes "done")
        × Finishes (shown world.old) (shown world.new))) }
    ensures wrong { IfOk result (λ fault. IfSome fault (λ _. line.now ≢ codes "done")) }
{
    if is_same(line, b"done") {
        world.finish()?;
        return Ok(None);
    }
    Ok(Some(kinds::due(world.alloc, b"report", b"done")?))
}

// The line feed and the line that the writer of reports puts behind the end of a group, to tell these names; nothing
// where there are none.
fn told_text(world: &World) -> Result<Vec<u8>, NoMemory>
    ensures { IfOk result (λ text. text.items ≡ told_text world.now.told) }
{
    let none = ended_line(world, &[])?;
    let text = ended_line(world, world.told.as_slice())?;
    rest_of(world.alloc, text.as_slice(), none.len())
}

// The report of a group without zones and gray cells that ends, and tells these names.
fn ended_line(world: &World, told: &[Name]) -> Result<Vec<u8>, NoMemory>
    ensures { IfOk result (λ text. text.items ≡ report_text (the_report.Ended (record { bits = 0 }) [] told.now)) }
{
    let told = listed(told, world)?;
    let report = Report::Ended(ZoneSet::new(), NameList::new(world.alloc), told);
    report_text(world.alloc, &report)
}

// What is behind the first bytes of a text.
fn rest_of(alloc: Global, text: &[u8], first: usize) -> Result<Vec<u8>, NoMemory>
    ensures { IfOk result (λ rest. rest.items ≡ drop first text.now) }
{
    match text.get(first..) {
        None => Ok(Vec::new(alloc)),
        Some(rest) => Vec::from_slice(alloc, rest),
    }
}

// The line of the watched cells that died with a group.
fn told(world: &mut World, line: &[u8]) -> Result<Fault, NoMemory>
    ensures right { IfOk result (λ fault. IfNone fault (IsToldLine (shown world.old) line.now (shown world.new))) }
    ensures wrong { IfOk result (λ fault. IfSome fault (λ _. (new : Shown)
        → IsToldLine (shown world.old) line.now new → ⊥)) }
{
    let text = told_text(world)?;
    if let [b'\n', due @ ..] = text.as_slice() {
        if is_same(line, due) {
            world.told = NameList::new(world.alloc);
            return Ok(None);
        }
        return Ok(Some(kinds::due(world.alloc, b"report", due)?));
    }
    none_due(world)
}

// The report of the lowest arena that is out.
fn swept_report(world: &World, arena: u32) -> Report
    ensures { result ≡ the_report.Swept arena (whites_in world.now.whites arena) }
{
    Report::Swept(arena, names_64(world.whites.of(arena)))
}

// The names of an arena's cells.
fn names_64(names: &[Name]) -> Names64
    requires { length names.now ≤ 64 }
    ensures { result ≡ names.now }
{
    let mut list = Names64::new();
    for name in names {
        list.push(*name);
    }
    list
}

fn swept(world: &mut World, arena: u32, line: &[u8]) -> Result<Fault, NoMemory>
    requires { IsDue (due.Swept arena) (shown world.old) }
    ensures right { IfOk result (λ fault. IfNone fault ((names : List AName)
        × (line.now ≡ report_text (the_report.Swept arena names))
        × Sweeps (shown world.old) arena names (shown world.new))) }
    ensures wrong { IfOk result (λ fault. IfSome fault (λ _.
        line.now ≢ report_text (the_report.Swept arena (whites_in world.old.whites arena)))) }
{
    let report = swept_report(world, arena);
    let due = report_text(world.alloc, &report)?;
    if is_same(line, due.as_slice()) {
        world.sweep(arena)?;
        return Ok(None);
    }
    Ok(Some(kinds::swept(world, arena, due.as_slice(), line)?))
}

// A copy of names for a report.
fn listed(names: &[Name], world: &World) -> Result<NameList, NoMemory>
    ensures { IfOk result (λ list. list ≡ names.now) }
{
    Ok(NameList::from_vec(Vec::from_slice(world.alloc, names)?))
}

fn ended_text(world: &World, end: &GroupEnd) -> Result<Vec<u8>, NoMemory>
    ensures { IfOk result (λ text.
        text.items ≡ report_text (the_report.Ended end.now.zones end.now.grays.items [])) }
{
    let grays = listed(end.grays.as_slice(), world)?;
    let report = Report::Ended(end.zones, grays, NameList::new(world.alloc));
    report_text(world.alloc, &report)
}

fn ended(graph: &Graph, world: &mut World, line: &[u8]) -> Result<Fault, NoMemory>
    requires due { IsDue due.Ended (shown world.old) }
    requires sound { IsSound graph.now (shown world.old) }
    ensures right { IfOk result (λ fault. IfNone fault (IsEndedLine graph.now (shown world.old) line.now
        (shown world.new))) }
    ensures wrong { IfOk result (λ fault. IfSome fault (λ _. (group : AZoneSet) (grays : List AName)
        → line.now ≡ report_text (the_report.Ended group grays [])
        → MayEnd graph.now (shown world.old) group grays → ⊥)) }
{
    let Some(end) = world.group_end(graph)? else {
        return none_due(world);
    };
    let due = ended_text(world, &end)?;
    if is_same(line, due.as_slice()) {
        world.end_group(&end)?;
        return Ok(None);
    }
    Ok(Some(kinds::ended(world, &end, due.as_slice(), line)?))
}

// The groups that a line writes, if it is their text.
fn groups_of(world: &World, line: &[u8]) -> Result<Option<Vec<ZoneSet>>, NoMemory>
    ensures some { IfOk result (λ it. IfSome it (λ groups. line.now ≡ report_text (the_report.Groups groups.items))) }
    ensures exact { (groups : List AZoneSet) → AreListed groups → line.now ≡ report_text (the_report.Groups groups)
        → IfOk result (λ it. MatchOption it ⊥ (λ read. read.items ≡ groups)) }
{
    let Some(text) = line.strip_prefix(b"groups".as_slice()) else {
        return Ok(None);
    };
    let Some(read) = groups_in(world.alloc, text)? else {
        return Ok(None);
    };
    let groups = Vec::from_slice(world.alloc, read.as_slice())?;
    let due = report_text(world.alloc, &Report::Groups(read))?;
    if is_same(line, due.as_slice()) {
        Ok(Some(groups))
    } else {
        Ok(None)
    }
}

fn formed(graph: &Graph, world: &mut World, line: &[u8]) -> Result<Fault, NoMemory>
    requires due { IsDue due.Groups (shown world.old) }
    requires sound { IsSound graph.now (shown world.old) }
    ensures right { IfOk result (λ fault. IfNone fault (IsGroupsLine graph.now (shown world.old) line.now
        (shown world.new))) }
    ensures wrong { IfOk result (λ fault. IfSome fault (λ _. (groups : List AZoneSet)
        → line.now ≡ report_text (the_report.Groups groups) → AreForbidden graph.now (shown world.old) groups)) }
{
    let Some(groups) = groups_of(world, line)? else {
        return Ok(Some(kinds::due(world.alloc, b"report", b"groups ..")?));
    };
    form(graph, world, groups)
}

// Judges the groups of a line, and forms them if nothing is wrong with them.
fn form(graph: &Graph, world: &mut World, groups: Vec<ZoneSet>) -> Result<Fault, NoMemory>
    requires due { IsDue due.Groups (shown world.old) }
    requires sound { IsSound graph.now (shown world.old) }
    ensures forms { IfOk result (λ fault. IfNone fault (Forms graph.now (shown world.old) groups.items
        (shown world.new))) }
    ensures caught { IfOk result (λ fault. IfNone fault
        (CatchUp world.old.former.graph (walks_of world.old.phase) (walks_of world.new.phase))) }
    ensures forbidden { IfOk result (λ fault. IfSome fault (λ _. AreForbidden graph.now (shown world.old)
        groups.items)) }
{
    let alloc = world.alloc;
    let Phase::Collecting(collection) = &mut world.phase else {
        return none_due(world);
    };
    if let Some(fault) = parts(alloc, collection.zones, groups.as_slice())? {
        return Ok(Some(fault));
    }
    let (places, former) = (&world.places, &world.former);
    let fault = judge_edges(alloc, graph, places, former, collection, groups.as_slice())?;
    if let Some(fault) = fault {
        return Ok(Some(fault));
    }
    collection.form(groups);
    Ok(None)
}

// In each group edges lead from each zone to each other, by what was known as marking began, and none leads from a
// later group to an earlier one, by what is known now.
fn judge_edges(
    alloc: Global,
    graph: &Graph,
    places: &BTreeMap<Name, Place>,
    former: &Former,
    collection: &mut Collection,
    groups: &[ZoneSet],
) -> Result<Fault, NoMemory>
    ensures stage { OnOk result (stage_in collection.new ≡ stage_in collection.old) }
    ensures walks { OnOk result
        (CatchesUp former.now.graph (walks_in collection.old) (walks_in collection.new)) }
    ensures allowed { IfOk result (λ fault. IfNone fault (AreInOrder graph.now former.now.graph places.now
        collection.old collection.new groups.now)) }
    ensures forbidden { IfOk result (λ fault. IfSome fault (λ _. AreInOrder graph.now former.now.graph places.now
        collection.old collection.new groups.now → ⊥)) }
{
    let first = zone_edges(graph, former.graph(), places, collection);
    collection.catch_up(former.graph())?;
    let last = zone_edges(graph, graph, places, collection);
    if let Some((group, zone)) = first_apart(&first, groups) {
        return Ok(Some(kinds::apart(alloc, group, zone)?));
    }
    match first_backward(&last, groups) {
        None => Ok(None),
        Some(edge) => Ok(Some(kinds::backward(alloc, graph, places, collection, edge)?)),
    }
}

// The groups part the zones of the collection: each zone is in one of them, and no group is empty.
fn parts(alloc: Global, zones: ZoneSet, groups: &[ZoneSet]) -> Result<Fault, NoMemory>
    ensures none { IfOk result (λ fault. IfNone fault (AreParts zones groups.now)) }
    ensures some { IfOk result (λ fault. IfSome fault (λ _. AreParts zones groups.now → ⊥)) }
{
    if are_parts(zones, groups) {
        Ok(None)
    } else {
        Ok(Some(kinds::partition(alloc, zones)?))
    }
}

fn are_parts(zones: ZoneSet, groups: &[ZoneSet]) -> bool
    ensures { IsTrue result ↔ AreParts zones groups.now }
{
    let mut seen = ZoneSet::new();
    for group in groups {
        if !fits(zones, seen, *group) {
            return false;
        }
        seen = seen.union(*group);
    }
    zones.without(seen).first().is_none()
}

// Whether a group has zones, all of them among these, and none that was seen before.
fn fits(zones: ZoneSet, seen: ZoneSet, group: ZoneSet) -> bool
    ensures { IsTrue result ↔ Fits zones seen group }
{
    if group.first().is_none() {
        return false;
    }
    if group.intersection(seen).first().is_some() {
        return false;
    }
    group.without(zones).first().is_none()
}
