// The tries that marking begins with.
ghost use Rattle.std.specs.Prelude.{◌≡◌, ◌+◌, ◌≤◌, ◌++◌, length, vec_capacity, All, IfOk};
ghost use Rattle.mark_ahead.specs.Edges.{targets};
ghost use Rattle.par_mark.specs.Edges.{all_targets};

use crate::graph::Graph;
use gz_names::{NoMemory, Place};
use std::alloc::{AllocError, Global};

/// The targets of all these cells, in order.
pub(crate) fn first_tries<H: Graph>(
    alloc: Global,
    heap: &H,
    from: &[Place],
) -> Result<Vec<Place>, NoMemory>
    requires { All (H.has heap.now) from.now }
    ensures { IfOk result (λ tries. tries.items ≡ all_targets (H.edge heap.now) from.now) }
{
    let room = from.len().checked_mul(8).ok_or(AllocError)?;
    let mut tries = Vec::with_capacity(alloc, room)?;
    for place in from {
        push_targets(heap, *place, &mut tries);
    }
    Ok(tries)
}

// Puts the targets of a cell behind a list.
fn push_targets<H: Graph>(heap: &H, place: Place, tries: &mut Vec<Place>)
    requires present { H.has heap.now place }
    requires room { length tries.old.items + length (targets (H.edge heap.now) place) ≤ vec_capacity tries.old }
    ensures tries { tries.new.items ≡ tries.old.items ++ targets (H.edge heap.now) place }
    ensures room { vec_capacity tries.new ≡ vec_capacity tries.old }
{
    for i in 0..heap.edge_count(place) {
        if let Some(target) = heap.edge_at(place, i) {
            tries.push_reserved(target);
        }
    }
}
