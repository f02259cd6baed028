// Reading an answer for the words that say what is wrong with it. Nothing here decides what is lawful.
use gz_names::{CompNo, Name, NoMemory};
use std::alloc::Global;

/// The number that a word writes.
pub fn parse_number(word: &[u8]) -> Option<u64> {
    if word.is_empty() {
        return None;
    }
    let mut number = 0u64;
    for byte in word {
        if !byte.is_ascii_digit() {
            return None;
        }
        number = number
            .checked_mul(10)?
            .checked_add(u64::from(*byte - b'0'))?;
    }
    Some(number)
}

/// What follows a word and a space.
pub fn after<'a>(line: &'a [u8], word: &[u8]) -> Option<&'a [u8]> {
    if line.len() > word.len() && &line[..word.len()] == word && line[word.len()] == b' ' {
        Some(&line[word.len() + 1..])
    } else {
        None
    }
}

/// A text as far as its first space, and what follows the space.
pub fn next_word(text: &[u8]) -> (&[u8], &[u8]) {
    match text.iter().position(|byte| *byte == b' ') {
        None => (text, &[]),
        Some(place) => (&text[..place], &text[place + 1..]),
    }
}

/// A name.
pub fn parse_name(word: &[u8]) -> Option<Name> {
    match word.iter().position(|byte| *byte == b':') {
        None => Some(Name::Cell(parse_number(word)?)),
        Some(place) => {
            let comp = parse_number(&word[..place])?;
            let target = parse_number(&word[place + 1..])?;
            if comp < 256 {
                Some(Name::Wrap(CompNo(comp as u8), target))
            } else {
                None
            }
        }
    }
}

/// A list of names with a space between two; a `-` stands for none.
pub fn parse_names(alloc: Global, text: &[u8]) -> Result<Option<Vec<Name>>, NoMemory> {
    let mut names = Vec::new(alloc);
    if text == b"-".as_slice() {
        return Ok(Some(names));
    }
    let mut rest = text;
    for _ in 0..text.len() {
        if rest.is_empty() {
            break;
        }
        let (word, others) = next_word(rest);
        let Some(name) = parse_name(word) else {
            return Ok(None);
        };
        names.push(name)?;
        rest = others;
    }
    Ok(Some(names))
}
