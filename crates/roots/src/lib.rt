// The roots of the heap, and what waits for gray marking.
//
// [gczone] Roots
//
// The registers are the black roots: what a program holds itself. The first 16 are an array; behind
// them stand the pinned roots, as many as there is memory for: pinned root n is register 16 + n, which
// no command names (a pinned root is what a JS::PersistentRooted of js/public/RootingAPI.h is). So
// whatever is said of registers is said of both: a pinned root that marking or a move overlooked would
// hold a cell that is freed, or the place that the cell has left. Its number stays its own until it is
// unpinned, and only then can another cell get it.
//
// The 64 gray slots are the gray roots: what the world around the program holds (in Firefox the cycle
// collector's side, which may find that nothing else holds it, and drop it). Registers and slots are
// places, each full or empty.
//
// A collection may not look at the gray slots late: a program that runs between two slices moves
// cells from slots to registers and back, and a slot that is emptied before it is looked at would
// have hidden its cell. So as a collection begins, each zone of it gets a buffer
// (js/src/gc/RootMarking.cpp buffers gray roots for the same reason), which holds
//
//     the cells of the zone that the gray slots hold, and
//     the gray wrappers of zones outside the collection whose targets lie in the zone,
//
// and gray marking of the zone takes them out one by one, each once. The buffers take their memory
// as they are filled, all of it before anything is put in; taking out never fails. Beside them a
// set says which zones have something left, so that nobody looks through 64 empty buffers.
#![tactic(auto)]

mod buffers;
mod roots_held;

pub use roots_held::Roots;
