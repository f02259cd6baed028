// The entries of weak maps: a finite map from a map and a key to a value.
//
// [gczone] Weak maps
//
// An entry of a weak map is an ephemeron: its value is kept alive by the map and the key together,
// and by neither of them alone. An object with properties cannot do this. There the value lives as
// long as the map does; here it lives as long as both the map and the key do, so a program can tie
// data to an object without keeping the object. An entry is gone as soon as its map, its key or its
// value is. The rules are those of js/src/gc/WeakMap.h.
//
// So the table here keeps none of its cells alive. Marking does not walk it as it walks fields: it
// asks for entries, and marks a value only as strongly as the weaker of its map and its key is
// marked. The two may be marked in either order, and the entry must be met by the second one:
//
//     map first, then key     as the key is marked:   the entries of that key, by all maps
//     key first, then map     as the map is marked:   the entries of that map, by all keys
//
// A key that is a wrapper lives on even if nothing else holds it, as long as its map and what it leads
// to do: the latter is the entry's *delegate* (js/src/gc/WeakMap.h, "delegate"). So an entry with such
// a key is met as its delegate is marked, too. It has a row in a second table, and entries with other
// keys have none, and pay one test. The rows are also listed by zone: a delegate may lie in a zone that
// is not collected, where nothing scans it, and so a zone whose gray marking begins asks for the maps
// of its rows.
//
// Hence two lists beside the table, one of each map's entries and one of each key's. Without the
// second, each newly marked cell would cost a walk over all entries (SpiderMonkey's weak keys table
// is there for the same reason). The lists hold numbers of entries, and an entry's number is its
// place in the table. An entry that goes leaves its number to the last one. Each entry knows where it
// stands in both lists, so putting, finding and deleting one takes a constant number of steps:
//
//     table       0: (m1,k1) -> v1    1: (m2,k1) -> v2    2: (m1,k3) -> v3
//     by map      m1: 0 2             m2: 1
//     by key      k1: 0 1             k3: 2
//
// Marking looks at one entry at a time. As it has followed a cell it starts that cell's two lists in
// its colour, black or gray, and from then on each entry in them is still to be looked at. These
// entries are the front part of the list, and a look takes the last of that part:
//
//     entries of one place      0  1  2  3 | 4  5  6
//                               still to be  looked at, or
//                               looked at    put since
//
// So a new entry comes last and is not looked at, an entry of the front part that goes is replaced by
// the last one of that part, and there is nothing else that a deletion could leave wrong. An entry is
// looked at once for its map, once for its key and once for its delegate each time these are started.
// Marking starts each list at most once in either colour, so an entry is looked at at most six times in
// a collection, and at most four times if its key is no wrapper. A
// list of which some entries are left in black stays in black as it is started in gray, since a look
// does the same in either colour.
//
// The lists with a front part wait in a queue, one for black and one for gray. A list whose front part
// became empty by deletions stays in its queue until the next look passes it over. Each list is in a
// queue at most once, so there is always room, and neither starting nor looking takes memory.
//
// Places are given again, so an entry must not outlive a cell that it names: its new tenant would
// be found under the old one's name. Where a group of zones ends, `drop_entries_in` takes out the
// entries of the dead maps and keys of an arena, and looks at no others. An entry whose value is dead
// needs no look of its own: marking has ended, so its map or its key is dead as well. An arena none of
// whose cells ever had entries costs a few steps.
//
// Only `put` takes memory. A table changes last, once all of it is there; where a list is refused
// some, the entry goes from the other lists again. What may stay is an empty list, which no
// caller sees, and which is used again as soon as its place has an entry.
//
//     colours    black and gray
//     numbers    lists of numbers; up to three numbers take no memory of their own
//     listings   the entries of one place, and how many of them are still to be looked at
//     queues     the lists that wait
//     seats      where each entry stands in the lists of one side
//     heads      the number of the list of each place
//     sides      the entries by their maps, or by their keys
//     entries    the table of entries
//     delegates  what keys that are wrappers lead to
//     tables     the two together
#![tactic(auto)]

mod colours;
mod delegates;
mod entries;
mod heads;
mod listings;
mod numbers;
mod queues;
mod seats;
mod sides;
mod tables;

pub use colours::MarkColour;
pub use delegates::Delegate;
pub use entries::{EntryKey, WeakEntry};
pub use tables::WeakMaps;
