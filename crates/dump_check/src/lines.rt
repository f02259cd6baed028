// From a line of text to the line of a dump that it is.
ghost use Rattle.std.specs.Prelude.{◌≡◌, ◌++◌, ◌∷◌, ◌<◌, ◌^◌, ℕ, List, codes, IfSome, MatchOption, Some};
ghost use Rattle.std.specs.Fmt.{decimal};
ghost use Rattle.gz_names.specs.declared.names.Name.{Name as AName};
ghost use Rattle.gz_names.specs.declared.dumps.DumpLine.{DumpLine as ALine};
ghost use Rattle.gz_names.specs.declared.dumps.DumpColour.{DumpColour as AColour};
ghost use Rattle.gz_names.specs.DumpTexts.{colour_text, FitsName, name_text, SpellsLine};
ghost use Rattle.dump_check.specs.declared.lines.Word.{Word as AWord};
ghost use Rattle.dump_check.specs.Words.{word_text};

use crate::numbers::{only_name, spaced_name, spaced_number};
use gz_names::{DumpColour, DumpLine, Name};

// The colour that a text is the letter of.
fn colour(text: &[u8]) -> Option<DumpColour>
    ensures some { IfSome result (λ c. text.now ≡ colour_text c) }
    ensures exact { (c : AColour) → text.now ≡ colour_text c → result ≡ Some c }
{
    match text {
        b"b" => Some(DumpColour::Black),
        b"g" => Some(DumpColour::Gray),
        _ => None,
    }
}

// A cell and its colour, behind `cell `.
fn cell(text: &[u8]) -> Option<(Name, DumpColour)>
    ensures some { IfSome result
        (λ p. FitsName p.0 × (text.now ≡ name_text p.0 ++ 32 ∷ colour_text p.1)) }
    ensures exact { (x : AName) (c : AColour) → FitsName x
        → text.now ≡ name_text x ++ 32 ∷ colour_text c → result ≡ Some (x, c) }
{
    let (name, rest) = spaced_name(text)?;
    Some((name, colour(rest)?))
}

// An object's number and what a field of it holds, behind `edge `.
fn edge(text: &[u8]) -> Option<(u64, Name)>
    ensures some { IfSome result
        (λ p. (p.0 < 2 ^ 32) × FitsName p.1 × (text.now ≡ decimal p.0 ++ 32 ∷ name_text p.1)) }
    ensures exact { (n : ℕ) (x : AName) → n < 2 ^ 32 → FitsName x
        → text.now ≡ decimal n ++ 32 ∷ name_text x → result ≡ Some (n, x) }
{
    let (object, rest) = spaced_number(text)?;
    Some((object, only_name(rest)?))
}

// A map's number, a key and a value, behind `weak `.
fn entry(text: &[u8]) -> Option<(u64, Name, Name)>
    ensures some { IfSome result (λ p. (p.0 < 2 ^ 32) × FitsName p.1 × FitsName p.2
        × (text.now ≡ decimal p.0 ++ 32 ∷ name_text p.1 ++ 32 ∷ name_text p.2)) }
    ensures exact { (m : ℕ) (k v : AName) → m < 2 ^ 32 → FitsName k → FitsName v
        → text.now ≡ decimal m ++ 32 ∷ name_text k ++ 32 ∷ name_text v → result ≡ Some (m, k, v) }
{
    let (map, rest) = spaced_number(text)?;
    let (key, rest) = spaced_name(rest)?;
    Some((map, key, only_name(rest)?))
}

// The word that a line begins with, but for the end.
#[derive(Clone, Copy, Debug, PartialEq, Eq)]
pub enum Word {
    Cell,
    Edge,
    Weak,
}

// The word that a text is, with the space behind it.
fn word_of(text: &[u8]) -> Option<Word>
    ensures some { IfSome result (λ w. text.now ≡ word_text w) }
    ensures exact { (w : AWord) → text.now ≡ word_text w → result ≡ Some w }
{
    match text {
        b"cell " => Some(Word::Cell),
        b"edge " => Some(Word::Edge),
        b"weak " => Some(Word::Weak),
        _ => None,
    }
}

// The word that a text begins with, and what follows its space.
fn first_word(text: &[u8]) -> Option<(Word, &[u8])>
    ensures some { IfSome result (λ p. text.now ≡ word_text p.0 ++ p.1.now) }
    ensures exact { (w : AWord) (rest : List ℕ) → text.now ≡ word_text w ++ rest
        → MatchOption result ⊥ (λ p. (p.0 ≡ w) × (p.1.now ≡ rest)) }
{
    if text.len() < 5 {
        return None;
    }
    let (word, rest) = text.split_at(5);
    Some((word_of(word)?, rest))
}

// The last line, where a text is that.
fn end(text: &[u8]) -> Option<DumpLine>
    ensures some { IfSome result (λ l. (l ≡ ALine.End) × (text.now ≡ codes "end")) }
    ensures exact { text.now ≡ codes "end" → result ≡ Some ALine.End }
{
    match text {
        b"end" => Some(DumpLine::End),
        _ => None,
    }
}

/// The line of a dump that a text is.
pub fn parse(text: &[u8]) -> Option<DumpLine>
    ensures some { IfSome result (SpellsLine text.now) }
    ensures exact { (l : ALine) → SpellsLine text.now l → result ≡ Some l }
{
    let Some((word, rest)) = first_word(text) else {
        return end(text);
    };
    match word {
        Word::Cell => {
            let (name, colour) = cell(rest)?;
            Some(DumpLine::Cell(name, colour))
        }
        Word::Edge => {
            let (object, target) = edge(rest)?;
            Some(DumpLine::Edge(object, target))
        }
        Word::Weak => {
            let (map, key, value) = entry(rest)?;
            Some(DumpLine::Weak(map, key, value))
        }
    }
}
