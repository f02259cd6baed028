// What is wrong with a line, in words. A word says of which kind it is; what follows says more.
//
//     reply     another reply is due
//     end       no line is due, or the answer before is not whole
//     report    another report is due, or none
//     colour    a cell is listed gray and is not, or is gray and is not listed
//     freed     a cell is freed and is reached
//     kept      a cell is dead and is not freed
//     arena     another arena is to be swept, or this one was swept before
//     groups    the groups do not part the zones, or an edge between zones forbids them
//     units     the number of units
use crate::collection::{Collection, GroupEnd};
use crate::edges::wrapper_between;
use crate::parse::{after, next_word, parse_name, parse_names, parse_number};
use crate::text::Text;
use crate::world::World;
use gz_names::{Name, NoMemory, Place, ZoneNo, ZoneSet};
use plain_graph::{Graph, Walk};
use std::alloc::Global;
use std::collections::BTreeMap;

/// Another line is due.
pub fn due(alloc: Global, kind: &[u8], line: &[u8]) -> Result<Vec<u8>, NoMemory> {
    let mut text = Text::new(alloc);
    text.push(kind)?;
    text.push(b", due is ")?;
    text.push_due(line)?;
    Ok(text.into_bytes())
}

/// A fixed text.
pub fn said(alloc: Global, words: &[u8]) -> Result<Vec<u8>, NoMemory> {
    Vec::from_slice(alloc, words)
}

/// A command comes before the answer to the last one is whole.
pub fn unfinished(alloc: Global, line: &[u8]) -> Result<Vec<u8>, NoMemory> {
    let mut text = Text::new(alloc);
    text.push(b"end, the answer before is not whole")?;
    if !line.is_empty() {
        text.push(b", due is ")?;
        text.push_due(line)?;
    }
    Ok(text.into_bytes())
}

/// More units are counted than the bound allows.
pub fn bound(alloc: Global, units: u128, limit: u128) -> Result<Vec<u8>, NoMemory> {
    let mut text = Text::new(alloc);
    text.push(b"units, the collection has taken ")?;
    text.push_number(shown_number(units))?;
    text.push(b" units, and may take ")?;
    text.push_number(shown_number(limit))?;
    Ok(text.into_bytes())
}

// A number as it is printed: 2^64 - 1 stands for a larger one.
fn shown_number(number: u128) -> u64 {
    u64::try_from(number).unwrap_or(u64::MAX)
}

/// The groups do not part the zones of the collection.
pub fn partition(alloc: Global, zones: ZoneSet) -> Result<Vec<u8>, NoMemory> {
    let mut text = Text::new(alloc);
    text.push(b"groups, each of the zones ")?;
    text.push_zones(zones)?;
    text.push(b" has to be in one of them, and no other")?;
    Ok(text.into_bytes())
}

/// A group in which edges do not lead from each zone to each other.
pub fn apart(alloc: Global, group: ZoneSet, zone: ZoneNo) -> Result<Vec<u8>, NoMemory> {
    let mut text = Text::new(alloc);
    text.push(b"groups, edges do not lead from zone ")?;
    text.push_zone(zone)?;
    text.push(b" to the others of ")?;
    text.push_zones(group)?;
    text.push(b" and back")?;
    Ok(text.into_bytes())
}

/// An edge leads from a later group to an earlier one.
pub fn backward(
    alloc: Global,
    graph: &Graph,
    places: &BTreeMap<Name, Place>,
    collection: &Collection,
    edge: (ZoneNo, ZoneNo),
) -> Result<Vec<u8>, NoMemory> {
    let mut text = Text::new(alloc);
    text.push(b"groups, zone ")?;
    text.push_zone(edge.0)?;
    text.push(b" ends after zone ")?;
    text.push_zone(edge.1)?;
    match wrapper_between(graph, places, collection, edge) {
        None => {}
        Some((wrapper, true)) => {
            text.push(b", into which ")?;
            text.push_name(wrapper)?;
            text.push(b" leads, whose target is not black")?;
        }
        Some((wrapper, false)) => {
            text.push(b", out of which ")?;
            text.push_name(wrapper)?;
            text.push(b" leads, which is a key and whose target is not black")?;
        }
    }
    Ok(text.into_bytes())
}

// The first name of one list that is not in the other; both ascend.
fn first_missing(from: &[Name], other: &[Name]) -> Option<Name> {
    for name in from {
        if other.binary_search(name).is_err() {
            return Some(*name);
        }
    }
    None
}

// A way to a name, if it was found, from what held its first name as marking began.
fn push_reached(
    text: &mut Text,
    world: &World,
    reached: &Walk,
    name: Name,
) -> Result<(), NoMemory> {
    let way = reached.way_to(world.alloc, name)?;
    if way.is_empty() {
        return Ok(());
    }
    text.push(b": ")?;
    match world.collection() {
        None => text.push_way(way.as_slice(), &[]),
        Some(collection) => text.push_way(way.as_slice(), collection.roots.as_slice()),
    }
}

// A cell that is listed gray, and what it is.
fn listed_gray(world: &World, name: Name) -> Result<Vec<u8>, NoMemory> {
    let mut text = Text::new(world.alloc);
    text.push(b"colour, ")?;
    text.push_name(name)?;
    let Some(collection) = world.collection() else {
        text.push(b" is gray here and has to be black")?;
        return Ok(text.into_bytes());
    };
    if !world.is_present(name) {
        text.push(b" is gray here and is not in the heap")?;
    } else if collection.black.contains(name) {
        text.push(b" is gray here and has to be black")?;
        push_reached(&mut text, world, &collection.black, name)?;
    } else if !collection.live.contains(name) {
        text.push(b" is gray here and has to be white: nothing reaches it")?;
    } else {
        text.push(b" is gray here and is of another zone")?;
    }
    Ok(text.into_bytes())
}

// A cell that is gray, and is not listed.
fn left_out(world: &World, name: Name) -> Result<Vec<u8>, NoMemory> {
    let mut text = Text::new(world.alloc);
    text.push(b"colour, ")?;
    text.push_name(name)?;
    text.push(b" is black or white here and has to be gray")?;
    if let Some(collection) = world.collection() {
        push_reached(&mut text, world, &collection.live, name)?;
    }
    Ok(text.into_bytes())
}

// What follows the word `gray` in a line.
fn gray_list(line: &[u8]) -> Option<&[u8]> {
    let mut rest = line;
    for _ in 0..line.len() {
        if let Some(list) = after(rest, b"gray") {
            return Some(list);
        }
        rest = next_word(rest).1;
    }
    None
}

/// A line in place of the end of a group.
pub fn ended(
    world: &World,
    end: &GroupEnd,
    line_due: &[u8],
    line: &[u8],
) -> Result<Vec<u8>, NoMemory> {
    match gray_list(line) {
        Some(list) if has_head_of(line, list, line_due) => {
            grays(world, end.grays.as_slice(), b"report", line_due, list)
        }
        _ => due(world.alloc, b"report", line_due),
    }
}

// Whether the part of a line before its list is that of the line that is due.
fn has_head_of(line: &[u8], list: &[u8], line_due: &[u8]) -> bool {
    let head = line.len().saturating_sub(list.len());
    head <= line_due.len() && line[..head] == line_due[..head]
}

/// A list of gray names in place of another one.
pub fn grays(
    world: &World,
    wanted: &[Name],
    kind: &[u8],
    line_due: &[u8],
    list: &[u8],
) -> Result<Vec<u8>, NoMemory> {
    let Some(mut given) = parse_names(world.alloc, list)? else {
        return due(world.alloc, kind, line_due);
    };
    given.sort_unstable();
    if let Some(name) = first_missing(wanted, given.as_slice()) {
        return left_out(world, name);
    }
    if let Some(name) = first_missing(given.as_slice(), wanted) {
        return listed_gray(world, name);
    }
    due(world.alloc, kind, line_due)
}

/// A line in place of a swept arena.
pub fn swept(world: &World, arena: u32, line_due: &[u8], line: &[u8]) -> Result<Vec<u8>, NoMemory> {
    let Some(rest) = after(line, b"swept") else {
        return due(world.alloc, b"report", line_due);
    };
    let (word, list) = next_word(rest);
    match parse_number(word) {
        None => due(world.alloc, b"report", line_due),
        Some(given) if given != u64::from(arena) => other_arena(world, arena, given),
        Some(_) => freed(world, arena, line_due, list),
    }
}

fn other_arena(world: &World, arena: u32, given: u64) -> Result<Vec<u8>, NoMemory> {
    let mut text = Text::new(world.alloc);
    text.push(b"arena, ")?;
    text.push_number(given)?;
    if world.arenas.is_out(given) {
        text.push(b" is swept too soon")?;
    } else if given < u64::from(arena) && is_of_ended(world, given) {
        text.push(b" was swept before")?;
    } else {
        text.push(b" is not to be swept")?;
    }
    text.push(b", due is arena ")?;
    text.push_number(u64::from(arena))?;
    Ok(text.into_bytes())
}

// Whether an arena is of a group that has ended.
fn is_of_ended(world: &World, arena: u64) -> bool {
    match world.collection() {
        None => false,
        Some(collection) => world
            .arenas
            .is_of(collection.zones.without(collection.marking), arena),
    }
}

fn freed(world: &World, arena: u32, line_due: &[u8], list: &[u8]) -> Result<Vec<u8>, NoMemory> {
    let Some(mut given) = parse_names(world.alloc, list)? else {
        return due(world.alloc, b"report", line_due);
    };
    given.sort_unstable();
    let wanted = world.whites.of(arena);
    if let Some(name) = first_missing(given.as_slice(), wanted) {
        return freed_wrongly(world, name);
    }
    if let Some(name) = first_missing(wanted, given.as_slice()) {
        let mut text = Text::new(world.alloc);
        text.push(b"kept, ")?;
        text.push_name(name)?;
        text.push(b" is dead and is not freed")?;
        return Ok(text.into_bytes());
    }
    due(world.alloc, b"report", line_due)
}

fn freed_wrongly(world: &World, name: Name) -> Result<Vec<u8>, NoMemory> {
    let mut text = Text::new(world.alloc);
    text.push(b"freed, ")?;
    text.push_name(name)?;
    match world.collection() {
        Some(collection) if collection.live.contains(name) => {
            text.push(b" is freed and is reached")?;
            push_reached(&mut text, world, &collection.live, name)?;
        }
        _ if world.is_present(name) => text.push(b" is freed and is alive")?,
        _ => text.push(b" is freed and does not lie in this arena")?,
    }
    Ok(text.into_bytes())
}

/// A line in place of the reply to `colours` or of a line of a dump.
pub fn settled(world: &World, line_due: &[u8], line: &[u8]) -> Result<Vec<u8>, NoMemory> {
    match (after(line_due, b"gray"), after(line, b"gray")) {
        (Some(_), Some(list)) => {
            let names = world.gray_names()?;
            grays(world, names.as_slice(), b"reply", line_due, list)
        }
        _ => coloured(world, line_due, line),
    }
}

// A line of a dump with another colour.
fn coloured(world: &World, line_due: &[u8], line: &[u8]) -> Result<Vec<u8>, NoMemory> {
    let cell = match (after(line_due, b"cell"), after(line, b"cell")) {
        (Some(wanted), Some(given)) if next_word(wanted).0 == next_word(given).0 => {
            parse_name(next_word(given).0)
        }
        _ => None,
    };
    let Some(cell) = cell else {
        return due(world.alloc, b"reply", line_due);
    };
    let mut text = Text::new(world.alloc);
    text.push(b"colour, ")?;
    text.push_name(cell)?;
    if world.black.contains(cell) {
        text.push(b" has to be black")?;
        push_reached(&mut text, world, &world.black, cell)?;
    } else {
        text.push(b" has to be gray")?;
    }
    Ok(text.into_bytes())
}
