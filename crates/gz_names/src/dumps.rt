// Lines of a dump: the present cells with their colours, their edges, and the weak entries.
use crate::names::Name;

/// The colour of a present cell while no zone is marking: what a collection found dead is not
/// present, so none is white (js/src/gc/Cell.h; js::DumpHeap writes these two as B and G).
#[derive(Clone, Copy, Debug, PartialEq, Eq)]
pub enum DumpColour {
    Black,
    Gray,
}

/// A line of a dump (our choice, after the lines of js::DumpHeap).
#[derive(Clone, Copy, Debug, PartialEq, Eq)]
pub enum DumpLine {
    /// A present cell and its colour.
    Cell(Name, DumpColour),
    /// A field of an object, by the object's number, and the cell that it holds.
    Edge(u64, Name),
    /// An entry of a weak map: the map's number, the key, the value.
    Weak(u64, Name, Name),
    /// The last line.
    End,
}

/// Why a line of a dump is at fault. Of several reasons the first counts, in this order.
#[derive(Clone, Copy, Debug, PartialEq, Eq)]
pub enum DumpFault {
    /// A cell's name is not greater than that of the cell before.
    Order,
    /// A cell is named that has no line before, or a wrapper whose target has none.
    Absent,
    /// What is black leads to what is gray, so the cycle collector could take away what is in use.
    Gray,
    /// The dump is over before its last line.
    Cut,
}
