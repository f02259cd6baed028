// The wrapper maps: which wrapper stands for a cell of another compartment.
//
// [gczone] Wrapper maps
//
// A cell refers to a cell of another compartment only through a wrapper, which lies in its own
// compartment (js/src/vm/Compartment.h, the wrapper map). There is at most one wrapper for a
// compartment and a target; it is found by these two, so a wrapper that died and is made again is
// found under its old name. The maps keep nothing alive: where a wrapper is white as its zone's
// group ends, its entry is dropped.
//
// Two walks go over the wrappers, and both stop and go on later while a program runs: the look for
// zone edges, and the search for gray and black wrappers that lead into a collection. So the
// wrappers of a zone are kept in the order in which they were added, and a walk is a cursor:
//
//     added first                 cursor          added last
//     [ visited, each once        | not yet visited         ] <- new wrappers come in here
//
// As long as no wrapper of the zone is dropped, nothing moves across the cursor: a wrapper that is
// added behind a walk that has come to the end is the next that the walk visits. A map in hash
// order would not do: a new wrapper could come to stand before the cursor, and an edge between two
// zones would never be seen, so the target's zone could end its marking before the wrapper's.
//
// Each zone has a map of its own, so that the end of a group walks the maps of its zones alone.
// Beside them `TargetZones` notes for each zone in which zones the targets of its wrappers lie, so that a
// walk can pass over zones that cannot lead into a collection.
//
// All wrappers of a compartment are in one zone, the compartment's; which one is remembered from
// the last wrapper that was added.
#![tactic(auto)]

mod target_zones;
mod wrapper_maps;

pub use target_zones::TargetZones;
pub use wrapper_maps::{WrapperKey, Wrappers};
