// The verdict on a dump, line by line.
ghost use Rattle.std.specs.Prelude.{◌≡◌, ◌<◌, ◌≤◌, ◌+◌, ◌^◌, List, [], None, OnErr, OnOk};
ghost use Rattle.gz_names.specs.declared.dumps.DumpLine.{DumpLine as ALine};
ghost use Rattle.gz_names.specs.DumpTexts.{FitsLine, SpellsLine};
ghost use Rattle.gz_names.specs.Dumps.{AreSoundLines, fault_among, target_colour};
ghost use Rattle.dump_check.specs.Checking.{may_follow, part_number, way_fault};

use crate::cells::Cells;
use crate::lines::parse;
use gz_names::{DumpColour, DumpFault, DumpLine, Name, NoMemory};
use std::alloc::Global;
use std::marker::Model;

/// What is to be said of a dump.
#[derive(Clone, Copy, Debug, PartialEq, Eq)]
pub enum Verdict {
    /// It is sound. The numbers are those of its cells, edges and weak entries.
    Sound(u64, u64, u64),
    /// This line, counted from 1, is the first at fault.
    Fault(u64, DumpFault),
    /// This line, counted from 1, is the first that is none of a dump, or stands in the wrong part,
    /// and no line before it is at fault.
    Bad(u64),
}

/// The parts of a dump, in their order.
#[derive(Clone, Copy, Debug, PartialEq, Eq, PartialOrd, Ord)]
pub enum Part {
    Cells,
    Edges,
    WeakEntries,
    End,
}

/// Judges a dump that it is given line by line.
#[derive(Drop)]
pub struct Checker {
    cells: Cells,
    part: Part,
    edges: u64,
    entries: u64,
    lines: u64,
}

impl Model for Checker {
    ghost use Rattle.std.specs.Prelude.{◌≤◌};
    ghost use Rattle.dump_check.specs.Checking.{part_number, Progress};

    ghost Value = { Progress };

    ghost view = { λ c. record {
      cells = c.cells;
      part = part_number c.part;
      edges = c.edges;
      entries = c.entries;
      lines = c.lines;
    } };

    ghost invariant = { λ c. (c.edges ≤ c.lines) × (c.entries ≤ c.lines) };
}

impl Checker {
    ghost use Rattle.dump_check.specs.Checking.{may_follow, part_number, read_of, Says, SaysAtEnd, with_line};

    /// A checker that was given no line. It takes no memory.
    pub fn new(alloc: Global) -> Self
        ensures { result ≡ read_of [] }
    {
        Checker {
            cells: Cells::new(alloc),
            part: Part::Cells,
            edges: 0,
            entries: 0,
            lines: 0,
        }
    }

    /// Judges the next line, without its line feed: nothing is said of a sound one. After a verdict
    /// the checker is given no more. Out of memory, the line was not taken.
    pub fn line(&mut self, text: &[u8]) -> Result<Option<Verdict>, NoMemory>
        requires { self.old.lines + 1 < 2 ^ 64 }
        ensures says { (ls : List ALine) → AreSoundLines [] ls → self.old ≡ read_of ls
            → Says ls text.now result self.new }
        ensures count { self.new.lines ≤ self.old.lines + 1 }
        ensures only { (l m : ALine) → SpellsLine text.now l → SpellsLine text.now m → l ≡ m }
    {
        let number = self.lines + 1;
        let Some(line) = parse(text) else {
            return Ok(Some(Verdict::Bad(number)));
        };
        if !may_follow(self.part, &line) {
            return Ok(Some(Verdict::Bad(number)));
        }
        if let Some(why) = fault(&self.cells, &line) {
            return Ok(Some(Verdict::Fault(number, why)));
        }
        self.take(line)?;
        Ok(None)
    }

    /// The verdict where no line follows.
    pub fn end(self) -> Verdict
        requires { self.lines + 1 < 2 ^ 64 }
        ensures { (ls : List ALine) → AreSoundLines [] ls → self ≡ read_of ls → SaysAtEnd ls result }
    {
        match self.part {
            Part::End => Verdict::Sound(self.cells.len() as u64, self.edges, self.entries),
            Part::Cells | Part::Edges | Part::WeakEntries => {
                Verdict::Fault(self.lines + 1, DumpFault::Cut)
            }
        }
    }

    // Goes on behind a sound line.
    fn take(&mut self, line: DumpLine) -> Result<(), NoMemory>
        requires more { self.old.lines + 1 < 2 ^ 64 }
        requires fits { FitsLine line }
        requires sound { fault_among self.old.cells line ≡ None }
        ensures ok { OnOk result (self.new ≡ with_line self.old line) }
        ensures err { OnErr result (self.new ≡ self.old) }
    {
        match line {
            DumpLine::Cell(name, colour) => {
                self.cells.push(name, colour)?;
                self.part = Part::Cells;
            }
            DumpLine::Edge(..) => {
                self.edges += 1;
                self.part = Part::Edges;
            }
            DumpLine::Weak(..) => {
                self.entries += 1;
                self.part = Part::WeakEntries;
            }
            DumpLine::End => self.part = Part::End,
        }
        self.lines += 1;
        Ok(())
    }
}

// Whether a line may follow one of this part.
fn may_follow(part: Part, line: &DumpLine) -> bool
    ensures { result ≡ may_follow (part_number part) line.now }
{
    match line {
        DumpLine::Cell(..) => matches!(part, Part::Cells),
        DumpLine::Edge(..) => matches!(part, Part::Cells | Part::Edges),
        DumpLine::Weak(..) | DumpLine::End => !matches!(part, Part::End),
    }
}

// Why a line is at fault after these cells, if it is.
fn fault(cells: &Cells, line: &DumpLine) -> Option<DumpFault>
    ensures { result ≡ fault_among cells.now line.now }
{
    match *line {
        DumpLine::Cell(name, colour) => cell_fault(cells, name, colour),
        DumpLine::Edge(object, target) => edge_fault(cells, object, target),
        DumpLine::Weak(map, key, value) => entry_fault(cells, map, key, value),
        DumpLine::End => None,
    }
}

// The fault of what has a colour and leads to this.
fn way_fault(from: DumpColour, to: Option<DumpColour>) -> Option<DumpFault>
    ensures { result ≡ way_fault from to }
{
    match (from, to) {
        (_, None) => Some(DumpFault::Absent),
        (DumpColour::Black, Some(DumpColour::Gray)) => Some(DumpFault::Gray),
        (_, Some(_)) => None,
    }
}

fn cell_fault(cells: &Cells, name: Name, colour: DumpColour) -> Option<DumpFault>
    ensures { result ≡ fault_among cells.now (ALine.Cell name colour) }
{
    if !cells.is_after(name) {
        return Some(DumpFault::Order);
    }
    match name {
        Name::Cell(_) => None,
        Name::Wrap(_, target) => way_fault(colour, cells.colour(Name::Cell(target))),
    }
}

fn edge_fault(cells: &Cells, object: u64, target: Name) -> Option<DumpFault>
    ensures { result ≡ fault_among cells.now (ALine.Edge object target) }
{
    match cells.colour(Name::Cell(object)) {
        None => Some(DumpFault::Absent),
        Some(from) => way_fault(from, cells.colour(target)),
    }
}

// The colour of a wrapper's target, if it has a line.
fn target_colour(cells: &Cells, name: Name) -> Option<DumpColour>
    ensures { result ≡ target_colour cells.now name }
{
    match name {
        Name::Cell(_) => None,
        Name::Wrap(_, target) => cells.colour(Name::Cell(target)),
    }
}

fn entry_fault(cells: &Cells, map: u64, key: Name, value: Name) -> Option<DumpFault>
    ensures { result ≡ fault_among cells.now (ALine.Weak map key value) }
{
    let Some(map) = cells.colour(Name::Cell(map)) else {
        return Some(DumpFault::Absent);
    };
    let Some(by) = cells.colour(key) else {
        return Some(DumpFault::Absent);
    };
    let Some(to) = cells.colour(value) else {
        return Some(DumpFault::Absent);
    };
    match (map, by) {
        (DumpColour::Gray, _) => None,
        (DumpColour::Black, DumpColour::Black) => way_fault(by, Some(to)),
        (DumpColour::Black, DumpColour::Gray) => match target_colour(cells, key) {
            Some(target) => way_fault(target, Some(by)),
            None => None,
        },
    }
}
