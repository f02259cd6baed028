// Reading the groups that a line lists.
//
// The zones of a group stand in a line as those of `gc` do in a trace, and `parse` reads these wherever they stand. So
// each list of groups is read from its text. What a text that lists none is read as decides nothing: the text of what
// was read is compared with the line.
ghost use Rattle.std.specs.Prelude.{◌≡◌, ◌≢◌, ◌∷◌, [], IfOk, List, MatchOption, Some};
ghost use Rattle.gz_names.specs.Zones.{zones_in};
ghost use Rattle.gz_names.specs.declared.commands.Cmd.TheVariants.{Gc};
ghost use Rattle.gz_names.specs.declared.zone_sets.ZoneSet.{ZoneSet as AZoneSet};
ghost use Rattle.trace_lang.specs.Grammar.{SpellsZones};
ghost use Rattle.trace_lang.specs.Texts.{groups_text};
ghost use Rattle.trace_lang.specs.Words.{number_words};
ghost use Rattle.judge.specs.Parts.{AreListed};

use crate::lines::place_of;
use gz_names::{Cmd, Groups, NoMemory, ZoneSet};
use std::alloc::Global;
use trace_lang::parse;

// The zones of the first group of a text, and what follows its bar.
fn first_group(text: &[u8]) -> (&[u8], Option<&[u8]>)
    ensures { (group : AZoneSet) (groups : List AZoneSet) → text.now ≡ groups_text 0 (group ∷ groups)
        → (result.0.now ≡ number_words (zones_in group))
        × MatchOption result.1 (groups ≡ []) (λ rest. (groups ≢ []) × (rest.now ≡ groups_text 0 groups)) }
{
    match place_of(text, b'|') {
        None => (text, None),
        Some(bar) => (&text[..bar.saturating_sub(1)], Some(&text[bar + 1..])),
    }
}

// The zones of `gc`.
fn zones_of_gc(command: &Cmd) -> Option<ZoneSet>
    ensures { (zones : AZoneSet) → command.now ≡ Gc zones → result ≡ Some zones }
{
    match command {
        Cmd::Gc(zones) => Some(*zones),
        _ => None,
    }
}

// The set of the zones that a text lists.
fn zones_of(alloc: Global, words: &[u8]) -> Result<Option<ZoneSet>, NoMemory>
    ensures { (zones : AZoneSet) → SpellsZones zones words.now → IfOk result (λ it. it ≡ Some zones) }
{
    let mut line = Vec::from_slice(alloc, b"gc")?;
    line.extend_from_slice(words)?;
    match parse(line.as_slice()) {
        Err(_) => Ok(None),
        Ok(command) => Ok(zones_of_gc(&command)),
    }
}

/// The groups that a text lists, with a bar between two.
pub fn groups_in(alloc: Global, text: &[u8]) -> Result<Option<Groups>, NoMemory>
    ensures { (groups : List AZoneSet) → AreListed groups → text.now ≡ groups_text 0 groups
        → IfOk result (λ it. it ≡ Some groups) }
{
    let mut groups = Groups::new();
    if text.is_empty() {
        return Ok(Some(groups));
    }
    let mut rest = text;
    for read in 0..64u8 {
        let (words, others) = first_group(rest);
        let Some(group) = zones_of(alloc, words)? else {
            return Ok(None);
        };
        groups.push(group);
        let Some(others) = others else {
            return Ok(Some(groups));
        };
        rest = others;
    }
    Ok(None)
}
