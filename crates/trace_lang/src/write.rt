// The texts of names, replies and reports. A line goes out in one piece, but for a list that is
// longer than a piece.
ghost use Rattle.std.specs.Prelude.{◌≡◌, ◌≤◌, ◌<◌, ◌+◌, ◌++◌, length, OnOk, OnErr, codes};
ghost use Rattle.std.specs.Fmt.{decimal};
ghost use Rattle.std.specs.Io.KnownBytes.{Appends};
ghost use Rattle.gz_io.specs.Causes.{HasCause, AppendsFront};
ghost use Rattle.gz_names.specs.Zones.{zones_in};
ghost use Rattle.trace_lang.specs.Words.{number_word, number_words};
ghost use Rattle.trace_lang.specs.Owing.{Owes};
ghost use Rattle.trace_lang.specs.Texts.{name_text, names_text, name_words, refusal_text, reply_text, report_text};
ghost use Rattle.trace_lang.specs.Texts.{groups_text, dump_lines_text, told_line, told_text, line_of};

use crate::piece::Piece;
use crate::tail::Tail;
use gz_io::{Sink, WriteFault, write_all};
use gz_names::{DumpLine, Name, Refusal, Reply, Report, ZoneSet};

// What a name behind a space takes, and a line feed.
const NAME_ROOM: usize = 48;

// What a bar and the zones of a set take, and a line feed.
const GROUP_ROOM: usize = 256;

// What a line of a dump takes, and its line feed.
const DUMP_ROOM: usize = 256;

// Writes what is held where it leaves less room than this.
fn make_room<K: Sink>(piece: &mut Piece, sink: &mut K, room: usize) -> Result<(), WriteFault>
    requires { room ≤ 512 }
    ensures ok { OnOk result (Owes (K.written sink.old) (K.written sink.new) piece.new piece.old) }
    ensures room { OnOk result (length piece.new + room ≤ 512) }
    ensures err { OnErr result (AppendsFront (K.written sink.old) (K.written sink.new) piece.old) }
    ensures cause { HasCause (K.faults sink.old) (K.faults sink.new) result }
{
    if piece.len() > 512 - room {
        write_all(sink, piece.text())?;
        piece.clear();
    }
    Ok(())
}

// Ends the line that is held.
fn end_line<K: Sink>(piece: &mut Piece, sink: &mut K) -> Result<(), WriteFault>
    requires { length piece.old < 512 }
    ensures ok { OnOk result
        (Appends (K.written sink.old) (K.written sink.new) (line_of piece.old)) }
    ensures err { OnErr result
        (AppendsFront (K.written sink.old) (K.written sink.new) (line_of piece.old)) }
    ensures cause { HasCause (K.faults sink.old) (K.faults sink.new) result }
{
    piece.push(b"\n");
    write_all(sink, piece.text())
}

// Ends the line that is held with names, each behind a space.
fn end_with_some<K: Sink>(piece: &mut Piece, sink: &mut K, names: &[Name]) -> Result<(), WriteFault>
    requires { length piece.old ≤ 256 }
    ensures ok { OnOk result (Appends (K.written sink.old) (K.written sink.new)
        (line_of (piece.old ++ name_words names.now))) }
    ensures err { OnErr result (AppendsFront (K.written sink.old) (K.written sink.new)
        (line_of (piece.old ++ name_words names.now))) }
    ensures cause { HasCause (K.faults sink.old) (K.faults sink.new) result }
{
    for name in names {
        match make_room(piece, sink, NAME_ROOM) {
            Ok(()) => piece.push_name(*name),
            Err(fault) => return Err(fault),
        }
    }
    end_line(piece, sink)
}

// Ends the line that is held with a list of names.
fn end_with_names<K: Sink>(
    piece: &mut Piece,
    sink: &mut K,
    names: &[Name],
) -> Result<(), WriteFault>
    requires { length piece.old ≤ 256 }
    ensures ok { OnOk result (Appends (K.written sink.old) (K.written sink.new)
        (line_of (piece.old ++ names_text names.now))) }
    ensures err { OnErr result (AppendsFront (K.written sink.old) (K.written sink.new)
        (line_of (piece.old ++ names_text names.now))) }
    ensures cause { HasCause (K.faults sink.old) (K.faults sink.new) result }
{
    if names.is_empty() {
        piece.push(b" -");
        return end_line(piece, sink);
    }
    end_with_some(piece, sink, names)
}

// Ends the line that is held with groups of zones.
fn end_with_groups<K: Sink>(
    piece: &mut Piece,
    sink: &mut K,
    groups: &[ZoneSet],
) -> Result<(), WriteFault>
    requires { length piece.old ≤ 256 }
    ensures ok { OnOk result (Appends (K.written sink.old) (K.written sink.new)
        (line_of (piece.old ++ groups_text 0 groups.now))) }
    ensures err { OnErr result (AppendsFront (K.written sink.old) (K.written sink.new)
        (line_of (piece.old ++ groups_text 0 groups.now))) }
    ensures cause { HasCause (K.faults sink.old) (K.faults sink.new) result }
{
    for (i, zones) in groups.iter().enumerate() {
        match make_room(piece, sink, GROUP_ROOM) {
            Ok(()) => {
                piece.push_bar(i);
                piece.push_zones(*zones);
            }
            Err(fault) => return Err(fault),
        }
    }
    end_line(piece, sink)
}

// Writes the lines of a dump.
fn write_dump<K: Sink>(sink: &mut K, lines: &[DumpLine]) -> Result<(), WriteFault>
    ensures ok { OnOk result (Appends (K.written sink.old) (K.written sink.new)
        (line_of (dump_lines_text 0 lines.now))) }
    ensures err { OnErr result (AppendsFront (K.written sink.old) (K.written sink.new)
        (line_of (dump_lines_text 0 lines.now))) }
    ensures cause { HasCause (K.faults sink.old) (K.faults sink.new) result }
{
    let mut piece = Piece::new();
    for (i, line) in lines.iter().enumerate() {
        match make_room(&mut piece, sink, DUMP_ROOM) {
            Ok(()) => {
                piece.push_break(i);
                piece.push_dump(*line);
            }
            Err(fault) => return Err(fault),
        }
    }
    end_line(&mut piece, sink)
}

// Writes how many cells were moved and how many arenas given up.
fn write_compacted<K: Sink>(sink: &mut K, moved: u64, given: u64) -> Result<(), WriteFault>
    ensures ok { OnOk result (Appends (K.written sink.old) (K.written sink.new)
        (line_of (codes "compacted" ++ number_word moved ++ number_word given))) }
    ensures err { OnErr result (AppendsFront (K.written sink.old) (K.written sink.new)
        (line_of (codes "compacted" ++ number_word moved ++ number_word given))) }
    ensures cause { HasCause (K.faults sink.old) (K.faults sink.new) result }
{
    let mut piece = Piece::new();
    piece.push(b"compacted");
    piece.push_number(moved);
    piece.push_number(given);
    end_line(&mut piece, sink)
}

// Writes the line of the watched names that died, where there are some.
fn write_told<K: Sink>(sink: &mut K, names: &[Name]) -> Result<(), WriteFault>
    ensures ok { OnOk result (Appends (K.written sink.old) (K.written sink.new) (told_line names.now)) }
    ensures err { OnErr result (AppendsFront (K.written sink.old) (K.written sink.new)
        (told_line names.now)) }
    ensures cause { HasCause (K.faults sink.old) (K.faults sink.new) result }
{
    if names.is_empty() {
        return Ok(());
    }
    let mut piece = Piece::new();
    piece.push(b"told");
    end_with_some(&mut piece, sink, names)
}

// Writes the end of a group: its zones, its gray names, and the watched names that died with it.
fn write_ended<K: Sink>(
    sink: &mut K,
    zones: ZoneSet,
    grays: &[Name],
    told: &[Name],
) -> Result<(), WriteFault>
    ensures ok { OnOk result (Appends (K.written sink.old) (K.written sink.new) (line_of
        (codes "ended" ++ number_words (zones_in zones) ++ codes " gray" ++ names_text grays.now
        ++ told_text told.now))) }
    ensures err { OnErr result (AppendsFront (K.written sink.old) (K.written sink.new) (line_of
        (codes "ended" ++ number_words (zones_in zones) ++ codes " gray" ++ names_text grays.now
        ++ told_text told.now))) }
    ensures cause { HasCause (K.faults sink.old) (K.faults sink.new) result }
{
    let mut piece = Piece::new();
    piece.push(b"ended");
    piece.push_zones(zones);
    piece.push(b" gray");
    match end_with_names(&mut piece, sink, grays) {
        Ok(()) => write_told(sink, told),
        Err(fault) => Err(fault),
    }
}

// Writes a line of a word and a number.
#[inline(always)]
fn write_numbered<K: Sink>(sink: &mut K, word: &[u8], n: u64) -> Result<(), WriteFault>
    requires { length word.now ≤ 6 }
    ensures ok { OnOk result
        (Appends (K.written sink.old) (K.written sink.new) (line_of (word.now ++ decimal n))) }
    ensures err { OnErr result
        (AppendsFront (K.written sink.old) (K.written sink.new) (line_of (word.now ++ decimal n))) }
    ensures cause { HasCause (K.faults sink.old) (K.faults sink.new) result }
{
    let mut tail = Tail::new();
    tail.byte(b'\n');
    tail.number(n);
    tail.bytes(word);
    write_all(sink, tail.text())
}

// Writes a line of a name.
#[inline(always)]
fn write_named<K: Sink>(sink: &mut K, name: Name) -> Result<(), WriteFault>
    ensures ok { OnOk result
        (Appends (K.written sink.old) (K.written sink.new) (line_of (name_text name))) }
    ensures err { OnErr result
        (AppendsFront (K.written sink.old) (K.written sink.new) (line_of (name_text name))) }
    ensures cause { HasCause (K.faults sink.old) (K.faults sink.new) result }
{
    let mut tail = Tail::new();
    tail.byte(b'\n');
    tail.name(name);
    write_all(sink, tail.text())
}

// The line of a refusal.
fn refusal_line(refusal: Refusal) -> &'static [u8]
    ensures { result.now ≡ line_of (refusal_text refusal) }
{
    match refusal {
        Refusal::Full => b"full\n",
        Refusal::NoZone => b"no-zone\n",
        Refusal::NoComp => b"no-comp\n",
        Refusal::Empty => b"empty\n",
        Refusal::Kind => b"kind\n",
        Refusal::NoField => b"no-field\n",
        Refusal::Cross => b"cross\n",
        Refusal::Running => b"running\n",
        Refusal::Idle => b"idle\n",
        Refusal::Marking => b"marking\n",
    }
}

// Writes the line of the gray names.
#[cold]
fn write_gray<K: Sink>(sink: &mut K, names: &[Name]) -> Result<(), WriteFault>
    ensures ok { OnOk result (Appends (K.written sink.old) (K.written sink.new)
        (line_of (codes "gray" ++ names_text names.now))) }
    ensures err { OnErr result (AppendsFront (K.written sink.old) (K.written sink.new)
        (line_of (codes "gray" ++ names_text names.now))) }
    ensures cause { HasCause (K.faults sink.old) (K.faults sink.new) result }
{
    let mut piece = Piece::new();
    piece.push(b"gray");
    end_with_names(&mut piece, sink, names)
}

/// Writes a name, without a line feed.
pub fn write_name<K: Sink>(sink: &mut K, name: Name) -> Result<(), WriteFault>
    ensures ok { OnOk result (Appends (K.written sink.old) (K.written sink.new) (name_text name)) }
    ensures err { OnErr result
        (AppendsFront (K.written sink.old) (K.written sink.new) (name_text name)) }
    ensures cause { HasCause (K.faults sink.old) (K.faults sink.new) result }
{
    let mut tail = Tail::new();
    tail.name(name);
    write_all(sink, tail.text())
}

// Writes a line, or fails after a prefix of it.
#[inline(always)]
fn write_line<K: Sink, const N: usize>(sink: &mut K, line: [u8; N]) -> Result<(), WriteFault>
    ensures ok { OnOk result (Appends (K.written sink.old) (K.written sink.new) line.entry) }
    ensures err { OnErr result (AppendsFront (K.written sink.old) (K.written sink.new) line.entry) }
    ensures cause { HasCause (K.faults sink.old) (K.faults sink.new) result }
{
    write_all(sink, &line)
}

/// Writes a reply with its line feed, or fails after a prefix of it.
#[inline(always)]
pub fn write_reply<K: Sink>(sink: &mut K, reply: &Reply) -> Result<(), WriteFault>
    ensures ok { OnOk result
        (Appends (K.written sink.old) (K.written sink.new) (line_of (reply_text reply.now))) }
    ensures err { OnErr result
        (AppendsFront (K.written sink.old) (K.written sink.new) (line_of (reply_text reply.now))) }
    ensures cause { HasCause (K.faults sink.old) (K.faults sink.new) result }
{
    match reply {
        Reply::Zone(zone) => write_numbered(sink, b"zone ", u64::from(zone.index())),
        Reply::Comp(comp) => write_numbered(sink, b"comp ", u64::from(comp.0)),
        Reply::Made(n) => write_numbered(sink, b"cell ", *n),
        Reply::Named(name) => write_named(sink, *name),
        Reply::Null => write_line(sink, *b"null\n"),
        Reply::Accepted => write_line(sink, *b"ok\n"),
        Reply::Absent => write_line(sink, *b"absent\n"),
        Reply::GcBegun => write_all(sink, b"gc ok\n"),
        Reply::Sliced(k) => write_numbered(sink, b"slice ", *k),
        Reply::Collected => write_all(sink, b"collected\n"),
        Reply::ResetDone => write_all(sink, b"reset ok\n"),
        Reply::Gray(names) => write_gray(sink, names.as_slice()),
        Reply::Dump(lines) => write_dump(sink, lines.as_slice()),
        Reply::Compacted(moved, given) => write_compacted(sink, *moved, u64::from(*given)),
        Reply::Refused(refusal) => write_all(sink, refusal_line(*refusal)),
    }
}

// Writes the groups that a collection begins with.
fn write_groups<K: Sink>(sink: &mut K, groups: &[ZoneSet]) -> Result<(), WriteFault>
    ensures ok { OnOk result (Appends (K.written sink.old) (K.written sink.new)
        (line_of (codes "groups" ++ groups_text 0 groups.now))) }
    ensures err { OnErr result (AppendsFront (K.written sink.old) (K.written sink.new)
        (line_of (codes "groups" ++ groups_text 0 groups.now))) }
    ensures cause { HasCause (K.faults sink.old) (K.faults sink.new) result }
{
    let mut piece = Piece::new();
    piece.push(b"groups");
    end_with_groups(&mut piece, sink, groups)
}

// Writes that an arena was taken in, and the names of the cells that it lost.
fn write_swept<K: Sink>(sink: &mut K, arena: u32, names: &[Name]) -> Result<(), WriteFault>
    ensures ok { OnOk result (Appends (K.written sink.old) (K.written sink.new)
        (line_of (codes "swept" ++ number_word arena ++ names_text names.now))) }
    ensures err { OnErr result (AppendsFront (K.written sink.old) (K.written sink.new)
        (line_of (codes "swept" ++ number_word arena ++ names_text names.now))) }
    ensures cause { HasCause (K.faults sink.old) (K.faults sink.new) result }
{
    if names.is_empty() {
        return write_kept(sink, arena);
    }
    let mut piece = Piece::new();
    piece.push(b"swept");
    piece.push_number(u64::from(arena));
    end_with_some(&mut piece, sink, names)
}

// Writes that an arena was taken in that lost no cell.
fn write_kept<K: Sink>(sink: &mut K, arena: u32) -> Result<(), WriteFault>
    ensures ok { OnOk result (Appends (K.written sink.old) (K.written sink.new)
        (line_of (codes "swept" ++ number_word arena ++ codes " -"))) }
    ensures err { OnErr result (AppendsFront (K.written sink.old) (K.written sink.new)
        (line_of (codes "swept" ++ number_word arena ++ codes " -"))) }
    ensures cause { HasCause (K.faults sink.old) (K.faults sink.new) result }
{
    let mut tail = Tail::new();
    tail.bytes(b" -\n");
    tail.number(u64::from(arena));
    tail.bytes(b"swept ");
    write_all(sink, tail.text())
}

// Writes that a collection was given up, and in which zones.
fn write_stopped<K: Sink>(sink: &mut K, zones: ZoneSet) -> Result<(), WriteFault>
    ensures ok { OnOk result (Appends (K.written sink.old) (K.written sink.new)
        (line_of (codes "stopped" ++ number_words (zones_in zones)))) }
    ensures err { OnErr result (AppendsFront (K.written sink.old) (K.written sink.new)
        (line_of (codes "stopped" ++ number_words (zones_in zones)))) }
    ensures cause { HasCause (K.faults sink.old) (K.faults sink.new) result }
{
    let mut piece = Piece::new();
    piece.push(b"stopped");
    piece.push_zones(zones);
    end_line(&mut piece, sink)
}

/// Writes a report with its line feed, or fails after a prefix of it.
pub fn write_report<K: Sink>(sink: &mut K, report: &Report) -> Result<(), WriteFault>
    ensures ok { OnOk result
        (Appends (K.written sink.old) (K.written sink.new) (line_of (report_text report.now))) }
    ensures err { OnErr result (AppendsFront (K.written sink.old) (K.written sink.new)
        (line_of (report_text report.now))) }
    ensures cause { HasCause (K.faults sink.old) (K.faults sink.new) result }
{
    match report {
        Report::Started => write_all(sink, b"started\n"),
        Report::Groups(groups) => write_groups(sink, groups.as_slice()),
        Report::Ended(zones, grays, told) => {
            write_ended(sink, *zones, grays.as_slice(), told.as_slice())
        }
        Report::Swept(arena, names) => write_swept(sink, *arena, names.as_slice()),
        Report::Done => write_all(sink, b"done\n"),
        Report::Stopped(zones) => write_stopped(sink, *zones),
    }
}
