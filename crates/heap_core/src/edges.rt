// Edges of cells, for readers that count nothing.
ghost use Rattle.std.specs.Prelude.{◌≡◌, None};
ghost use Rattle.heap_core.specs.Shape.{IsPresent, field_at};

use crate::heap::Heap;
use gz_names::Place;

impl Heap {
    /// The i-th edge of a present cell, as `reached_by` answers it, in a heap whose edges are not
    /// counted: for several threads that read it at once.
    pub fn edge_at(&self, place: Place, i: u8) -> Option<Place>
        requires present { IsPresent self.now.shape place }
        requires uncounted { self.now.ledger ≡ None }
        ensures { result ≡ field_at self.now.shape place i }
    {
        self.field(place, i)
    }
}
