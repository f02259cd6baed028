// From a line to its command.
ghost use Rattle.std.specs.Prelude.{◌≡◌, ◌<◌, ◌≤◌, ◌++◌, ℕ, List, [], Some, Ok, codes, length};
ghost use Rattle.std.specs.Prelude.{IfSome, IfOk, MatchOption};
ghost use Rattle.std.specs.Io.{StartsWith};
ghost use Rattle.gz_io.specs.Lines.{IsPlain};
ghost use Rattle.gz_names.specs.declared.commands.Cmd.{Cmd};
ghost use Rattle.gz_names.specs.declared.zone_sets.ZoneSet.{ZoneSet};
ghost use Rattle.trace_lang.specs.declared.words.Word.{Word};
ghost use Rattle.trace_lang.specs.Words.{word_text, number_word, IsBreak, IsWord};
ghost use Rattle.trace_lang.specs.Grammar.{Spells, SpellsRest, SpellsZones};

use crate::arguments::{one, two};
use crate::fronts::{begins_spaced, begins_with};
use crate::numbers::spaced_number;
use crate::rows::{
    CopyRow, DropRow, ExposeRow, FindRow, GetRow, HoldRow, MapRow, NewRow, PutRow, Row, SetRow,
    SliceRow, UnwrapRow, WrapRow,
};
use crate::words::{Word, word_of};
use crate::zone_bits::with_zone;
use gz_names::{Cmd, GraphCmd, WeakCmd, ZoneSet};

/// The line is outside the grammar.
#[derive(Clone, Copy, Debug, PartialEq, Eq)]
pub struct BadLine;

// A text as far as its first space, and the rest.
fn split_at_space(text: &[u8]) -> (&[u8], &[u8])
    ensures parts { text.now ≡ result.0.now ++ result.1.now }
    ensures word { IsWord result.0.now }
    ensures rest { IsBreak result.1.now }
{
    let mut end = 0usize;
    for byte in text {
        if *byte == b' ' {
            break;
        }
        end += 1;
    }
    (&text[..end], &text[end..])
}

// The word that a line begins with, and the rest.
fn first_word(line: &[u8]) -> Option<(Word, &[u8])>
    ensures some { IfSome result (λ p. line.now ≡ word_text p.0 ++ p.1.now) }
    ensures exact { (w : Word) (rest : List ℕ) → IsBreak rest → line.now ≡ word_text w ++ rest
        → MatchOption result ⊥ (λ p. (p.0 ≡ w) × (p.1.now ≡ rest)) }
{
    let (first, rest) = split_at_space(line);
    Some((word_of(first)?, rest))
}

// A zone that is not below the lowest, and what follows it.
fn next_zone(text: &[u8], lowest: u64) -> Option<(u64, &[u8])>
    ensures some { IfSome result
        (λ p. (lowest ≤ p.0) × (p.0 < 64) × (text.now ≡ number_word p.0 ++ p.1.now)) }
    ensures exact { (z : ℕ) (rest : List ℕ) → lowest ≤ z → z < 64 → IsBreak rest
        → text.now ≡ number_word z ++ rest
        → MatchOption result ⊥ (λ p. (p.0 ≡ z) × (p.1.now ≡ rest)) }
{
    let (zone, rest) = spaced_number(text, 64)?;
    if zone < lowest {
        None
    } else {
        Some((zone, rest))
    }
}

// The set of zones that a text lists, each behind a space and greater than the one before.
fn zone_list(text: &[u8]) -> Option<ZoneSet>
    ensures some { IfSome result (λ zones. SpellsZones zones text.now) }
    ensures exact { (zones : ZoneSet) → SpellsZones zones text.now → result ≡ Some zones }
{
    let mut bits = 0u64;
    let mut lowest = 0u64;
    let mut rest = text;
    while !rest.is_empty() {
        let Some((zone, others)) = next_zone(rest, lowest) else {
            return None;
        };
        bits = with_zone(bits, zone);
        lowest = zone + 1;
        rest = others;
    }
    if bits == 0 {
        None
    } else {
        Some(ZoneSet { bits })
    }
}

// A command of one word, if the line is over.
fn no_more(rest: &[u8], cmd: Cmd) -> Option<Cmd>
    ensures some { IfSome result (λ c. (c ≡ cmd) × (rest.now ≡ [])) }
    ensures exact { rest.now ≡ [] → result ≡ Some cmd }
{
    if rest.is_empty() { Some(cmd) } else { None }
}

// The command for a word and the rest of its line.
fn command(word: Word, rest: &[u8]) -> Option<Cmd>
    ensures some { IfSome result (SpellsRest word rest.now) }
    ensures exact { (c : Cmd) → SpellsRest word rest.now c → result ≡ Some c }
{
    match word {
        Word::Zone => no_more(rest, Cmd::Graph(GraphCmd::Zone)),
        Word::Comp => Some(Cmd::Graph(GraphCmd::Comp(one(rest)?))),
        Word::New => NewRow::read(rest),
        Word::Map => MapRow::read(rest),
        Word::Get => GetRow::read(rest),
        Word::Set => SetRow::read(rest),
        Word::Wrap => WrapRow::read(rest),
        Word::Unwrap => UnwrapRow::read(rest),
        Word::Copy => CopyRow::read(rest),
        Word::Drop => DropRow::read(rest),
        Word::Hold => HoldRow::read(rest),
        Word::Release => Some(Cmd::Graph(GraphCmd::Release(one(rest)?))),
        Word::Expose => ExposeRow::read(rest),
        Word::Put => PutRow::read(rest),
        Word::Del => {
            let (m, k) = two(rest)?;
            Some(Cmd::Graph(GraphCmd::Del(m, k)))
        }
        Word::Find => FindRow::read(rest),
        Word::Gc => Some(Cmd::Gc(zone_list(rest)?)),
        Word::Slice => SliceRow::read(rest),
        Word::Finish => no_more(rest, Cmd::Finish),
        Word::Collect => Some(Cmd::Collect(zone_list(rest)?)),
        Word::Colours => no_more(rest, Cmd::Colours),
        Word::Dump => no_more(rest, Cmd::Dump),
        Word::Reset => no_more(rest, Cmd::Reset),
        Word::Weaken => {
            let (q, r) = two(rest)?;
            Some(Cmd::Weak(WeakCmd::Weaken(q, r)))
        }
        Word::Deref => {
            let (r, q) = two(rest)?;
            Some(Cmd::Weak(WeakCmd::Deref(r, q)))
        }
        Word::Watch => Some(Cmd::Weak(WeakCmd::Watch(one(rest)?))),
        Word::Unwatch => Some(Cmd::Weak(WeakCmd::Unwatch(one(rest)?))),
        Word::Compact => Some(Cmd::Compact(one(rest)?)),
    }
}

// The command that a line stands for, whatever its first word is.
#[inline(never)]
fn rare_command(line: &[u8]) -> Option<Cmd>
    ensures some { IfSome result (Spells line.now) }
    ensures exact { (c : Cmd) → Spells line.now c → result ≡ Some c }
{
    let (word, rest) = first_word(line)?;
    command(word, rest)
}

// The command of a line that begins with a row's word, of this number of bytes, and a space.
#[inline(always)]
fn command_after<R: Row>(line: &[u8], len: usize) -> Option<Cmd>
    requires front { StartsWith line.now (word_text R.first ++ codes " ") }
    requires len { len ≡ length (word_text R.first) }
    ensures some { IfSome result (Spells line.now) }
    ensures exact { (c : Cmd) → Spells line.now c → result ≡ Some c }
{
    R::read(&line[len..])
}

// Returns what `rare_command` would, in a few steps for eight frequent words.
#[inline(never)]
fn any_command(line: &[u8]) -> Option<Cmd>
    ensures some { IfSome result (Spells line.now) }
    ensures exact { (c : Cmd) → Spells line.now c → result ≡ Some c }
{
    match line {
        [b'm', b'a', b'p', b' ', ..] => command_after::<MapRow>(line, 3),
        [b'p', b'u', b't', b' ', ..] => command_after::<PutRow>(line, 3),
        [b'w', b'r', b'a', b'p', b' ', ..] => command_after::<WrapRow>(line, 4),
        [b'h', b'o', b'l', b'd', b' ', ..] => command_after::<HoldRow>(line, 4),
        [b'f', b'i', b'n', b'd', b' ', ..] => command_after::<FindRow>(line, 4),
        [b's', b'l', b'i', b'c', b'e', b' ', ..] => command_after::<SliceRow>(line, 5),
        [b'u', b'n', b'w', b'r', b'a', b'p', b' ', ..] => command_after::<UnwrapRow>(line, 6),
        [b'e', b'x', b'p', b'o', b's', b'e', b' ', ..] => command_after::<ExposeRow>(line, 6),
        _ => rare_command(line),
    }
}

// Returns what `any_command` would, in a few steps for the words that most lines begin with.
#[inline(always)]
fn command_of(line: &[u8]) -> Option<Cmd>
    ensures some { IfSome result (Spells line.now) }
    ensures exact { (c : Cmd) → Spells line.now c → result ≡ Some c }
{
    if begins_with(line, *b"get ") {
        return command_after::<GetRow>(line, 3);
    }
    if begins_with(line, *b"set ") {
        return command_after::<SetRow>(line, 3);
    }
    if begins_with(line, *b"new ") {
        return command_after::<NewRow>(line, 3);
    }
    if begins_spaced(line, *b"copy") {
        return command_after::<CopyRow>(line, 4);
    }
    if begins_spaced(line, *b"drop") {
        return command_after::<DropRow>(line, 4);
    }
    any_command(line)
}

/// The command that a line stands for.
#[inline(always)]
pub fn parse(line: &[u8]) -> Result<Cmd, BadLine>
    ensures ok { IfOk result (Spells line.now) }
    ensures exact { (c : Cmd) → Spells line.now c → result ≡ Ok c }
    ensures short { IfOk result (λ _. length line.now ≤ 189) }
    ensures plain { IfOk result (λ _. IsPlain line.now) }
{
    match command_of(line) {
        Some(cmd) => Ok(cmd),
        None => Err(BadLine),
    }
}
