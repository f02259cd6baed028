// What threads may do with a board: share it, and hand its seats on.
use crate::board::{Board, Claim, HelperSeat, MainSeat};
use crate::flight::InFlight;

// Some thread may own such a value.
fn may_cross<T: Send>() {}

// Several threads may hold references to such a value.
fn may_share<T: Sync>() {}

// Nobody calls it: it is proved because a board may be shared, and all else may cross.
#[allow(dead_code)]
fn board_crosses_threads() {
    may_share::<Board>();
    may_cross::<Board>();
    may_cross::<MainSeat>();
    may_cross::<HelperSeat>();
    may_cross::<Claim>();
    may_cross::<InFlight<'static>>();
}
