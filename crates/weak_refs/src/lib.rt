// Weak slots and watched cells: names of cells that keep none of them alive.
//
// [gczone] Weak references
//
// A weak slot names a cell (js/src/builtin/WeakRefObject.h; 64 slots in place of objects are our choice). A watched
// cell's death comes into a report (js/src/builtin/FinalizationRegistryObject.h; a set of cells, and no callbacks, is
// our choice). Both are beside the graph: marking never looks at them, so neither keeps a cell.
//
// Places are given again, so neither may outlive its cell: its new tenant would be handed out in its stead, or told
// dead while it lives. So where a group of zones ends, `drop_dead` empties the slots and unwatches the cells that are
// not present any more, in the unit in which they stop being present, and before an arena is taken in. Where a zone is
// compacted, `forwarded` is what is named and watched at the places to which cells have gone, made anew.
//
// Most heaps have neither: then a group's end costs two tests.
#![tactic(auto)]

mod weak_names;

pub use weak_names::WeakRefs;
