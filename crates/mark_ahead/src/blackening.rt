// What marking black all at once finds.
use gz_names::Place;

/// What marking found.
#[derive(Debug, Drop)]
pub struct Marked {
    /// The cells that turned black, each once, if the heap has weak entries. If it has none, there is nothing to look
    /// at for these cells, and the list may be empty.
    pub won: Vec<Place>,
    /// The targets that lie outside the marking zones, of the cells that turned black and of those that
    /// marking began from. One that is a target of several edges comes as often.
    pub outside: Vec<Place>,
}
