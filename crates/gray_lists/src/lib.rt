// The incoming gray wrappers of each compartment.
//
// [gczone] Incoming gray wrappers
//
// Gray marking doesn't leave the current sweep group. Where it comes to a wrapper whose target lies
// in a zone that is still marked black only, the target can't be marked yet, and nothing in its own
// zone need lead to it. So the wrapper is noted for the target's compartment, and as the group of
// that compartment is marked gray, its list is walked (js/src/gc/GC.cpp, gcIncomingGrayPointers):
//
//     group 0                                group 1
//     [ wrapper, gray ] -------------------> [ target, still white ]
//             |                                   ^
//             +- noted for its compartment; taken as group 1 is marked gray
//
// Were the wrapper forgotten, the target would be white as group 1 ends, and would be swept under a
// wrapper that lives.
//
// SpiderMonkey links the wrappers through a slot of their own. Here the links lie beside the heap:
// all lists are in one vector of nodes, and what is on no list of a compartment is on the free list.
//
//     compartment 0    -> [ w3 | -] -> [ w1 | . ]
//     compartment 1    .
//      ..
//     compartment 255  -> [ w7 | . ]
//     free             -> [    | -] -> [    | . ]
//
// Noting moves the first free node (or a new one) to the front of a list; taking moves the first
// node of a list to the front of the free list. So each call but `reserve` is a few reads and
// writes, however many wrappers wait, and nobody searches.
//
// Beside the lists stands the set of the compartments whose lists are not empty, a bit a compartment,
// with a number above them all. So gray marking finds what waits by four words at most and not by 256
// lists, and that nothing waits behind a compartment by one comparison.
//
// Gray marking has no answer for want of memory, so memory comes first: `reserve` is called before a
// wrapper is made. A wrapper stands on at most one list, and once, so no more can wait than there
// are wrappers:
//
//     wrappers that wait + free nodes = nodes <= room <= what the memory holds
//
// What always holds is that each node stands on one list, a number of steps from its end. What this
// rules out: a node on two lists. Taking it from one would send the walk of the other into the free
// list, and dead wrappers would be handed out as gray.
#![tactic(auto)]

mod comp_sets;
mod incoming;
mod nodes;

pub use incoming::Lists;
