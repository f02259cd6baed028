// Zones, their compartments, and how far each zone is in a collection.
//
// [gczone] Zones
//
// A zone is what is collected as one (js/src/gc/Zone.h); a compartment belongs to one zone for good
// (js/src/vm/Compartment.h). Both are numbered from 0 in order of making, and none goes away. Each
// zone has a state, and the states follow each other in one order:
//
//     NoGC -> Prepare -> MarkBlackOnly -> MarkBlackAndGray -> Sweep -> Finished
//      ^                                                                 |
//      +-----------------------------------------------------------------+
//
//     a collection begins        its zones go to Prepare, and their mark bits are cleared
//     its marking begins         they go to MarkBlackOnly
//     a group begins             its zones go to MarkBlackAndGray, one after another
//     a group ends               its zones go to Sweep
//     its arenas are taken in    its zones go to Finished
//     the collection is over     all its zones go back to NoGC
//     it is stopped before that  its zones go back to NoGC, whatever their states are
//
// A zone is *marking* in MarkBlackOnly and MarkBlackAndGray. Gray marking must not enter a zone
// that is still MarkBlackOnly: a gray cell there could be reached by black marking that is still to
// come, and would have to be marked again. So gray waits at the zone's edge, and black does not.
//
// Which zones are in a state is asked in each unit of collection, so besides the state of each zone
// a set of zones is kept for each state; it is the same fact read the other way round.
#![tactic(auto)]

mod states;
mod zones_made;

pub use states::State;
pub use zones_made::{CompFault, ZoneFault, Zones};
