// Texts that are due, and texts of what is wrong.
ghost use Rattle.std.specs.Prelude.{◌≡◌, ◌-◌, Decides, IfOk, length, take};
ghost use Rattle.trace_lang.specs.Texts.{reply_text, report_text};

use crate::collection::Root;
use gz_io::MemSink;
use gz_names::{Name, NoMemory, Reply, Report, ZoneNo, ZoneSet};
use itoa::Buffer;
use std::alloc::{AllocError, Global};
use trace_lang::{write_reply, write_report};

// A line without its line feed.
fn without_last(alloc: Global, line: &[u8]) -> Result<Vec<u8>, NoMemory>
    ensures { IfOk result (λ text. text.items ≡ take (length line.now - 1) line.now) }
{
    match line {
        [] => Ok(Vec::new(alloc)),
        _ => Vec::from_slice(alloc, &line[..line.len() - 1]),
    }
}

/// Whether a line is a text.
pub fn is_same(line: &[u8], text: &[u8]) -> bool
    ensures { Decides result (line.now ≡ text.now) }
{
    line == text
}

/// The text of a reply, without its last line feed.
pub fn reply_text(alloc: Global, reply: &Reply) -> Result<Vec<u8>, NoMemory>
    ensures { IfOk result (λ text. text.items ≡ reply_text reply.now) }
{
    let mut sink = MemSink::new(Vec::new(alloc), usize::MAX, &[]);
    if write_reply(&mut sink, reply).is_err() {
        return Err(AllocError);
    }
    without_last(alloc, sink.bytes())
}

/// The text of a report, without its line feed.
pub fn report_text(alloc: Global, report: &Report) -> Result<Vec<u8>, NoMemory>
    ensures { IfOk result (λ text. text.items ≡ report_text report.now) }
{
    let mut sink = MemSink::new(Vec::new(alloc), usize::MAX, &[]);
    if write_report(&mut sink, report).is_err() {
        return Err(AllocError);
    }
    without_last(alloc, sink.bytes())
}

// What held the first name of a way that is given backwards.
fn first_root(way: &[Name], roots: &[(Name, Root)]) -> Option<Root> {
    let first = *way.last()?;
    for (name, root) in roots {
        if *name == first {
            return Some(*root);
        }
    }
    None
}

/// A text that is composed.
#[derive(Drop)]
pub struct Text {
    bytes: Vec<u8>,
}

impl Text {
    pub fn new(alloc: Global) -> Self {
        Text {
            bytes: Vec::new(alloc),
        }
    }

    pub fn into_bytes(self) -> Vec<u8> {
        self.bytes
    }

    pub fn push(&mut self, bytes: &[u8]) -> Result<(), NoMemory> {
        self.bytes.extend_from_slice(bytes)
    }

    pub fn push_number(&mut self, number: u64) -> Result<(), NoMemory> {
        let mut digits = Buffer::new();
        self.push(digits.format(number).as_bytes())
    }

    pub fn push_name(&mut self, name: Name) -> Result<(), NoMemory> {
        match name {
            Name::Cell(number) => self.push_number(number),
            Name::Wrap(comp, target) => {
                self.push_number(u64::from(comp.0))?;
                self.push(b":")?;
                self.push_number(target)
            }
        }
    }

    /// Zones with a space between them.
    pub fn push_zones(&mut self, zones: ZoneSet) -> Result<(), NoMemory> {
        let mut left = zones;
        for place in 0..64u8 {
            let Some(zone) = left.first() else {
                break;
            };
            if place > 0 {
                self.push(b" ")?;
            }
            self.push_zone(zone)?;
            left.remove(zone);
        }
        Ok(())
    }

    pub fn push_zone(&mut self, zone: ZoneNo) -> Result<(), NoMemory> {
        self.push_number(u64::from(zone.index()))
    }

    fn push_root(&mut self, root: Root) -> Result<(), NoMemory> {
        match root {
            Root::Register(index) => {
                self.push(b"r")?;
                self.push_number(u64::from(index))
            }
            Root::Slot(index) => {
                self.push(b"g")?;
                self.push_number(u64::from(index))
            }
        }
    }

    /// A way, given backwards: the root that held its first name, if one did, and each name behind ` > `.
    pub fn push_way(&mut self, way: &[Name], roots: &[(Name, Root)]) -> Result<(), NoMemory> {
        match first_root(way, roots) {
            Some(root) => self.push_root(root)?,
            None => self.push(b"..")?,
        }
        for name in way.iter().rev() {
            self.push(b" > ")?;
            self.push_name(*name)?;
        }
        Ok(())
    }

    /// A line that is due, between quotes; of a long one, its beginning.
    pub fn push_due(&mut self, line: &[u8]) -> Result<(), NoMemory> {
        self.push(b"\"")?;
        let shown = line.len().min(LONGEST_DUE);
        self.push(&line[..shown])?;
        if shown < line.len() {
            self.push(b"..")?;
        }
        self.push(b"\"")
    }
}

// Of a line that is due, as much is shown.
const LONGEST_DUE: usize = 120;
