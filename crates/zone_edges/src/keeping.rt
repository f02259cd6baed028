// What commands keep of the looks.
ghost use Rattle.gz_names.specs.declared.replies.Reply.{Reply};
ghost use Rattle.wrappers.specs.WrapperMaps.{AreApart};
ghost use Rattle.heap_core.specs.declared.plans.Change.{Change};
ghost use Rattle.heap_core.specs.Answers.{IsSound};
ghost use Rattle.heap_core.specs.Heap.{HeapState};
ghost use Rattle.heap_core.specs.Plans.{ChangesBy, IsAble};
ghost use Rattle.zone_edges.specs.Looks.{AreLeftBlack, WrapsBlack};
ghost use Rattle.zone_edges.specs.Noted.{Noted};

/// Once each wrapper that was not looked at has a black target, the change of a command leaves it so,
/// whichever it is: a wrapper that it makes has a black target too, since that came from a register.
/// So commands may run between two grouping steps, and the looks that are left note nothing.
pub fn left_black_law()
    ensures { (old new : HeapState) (ch : Change) (answer : Reply) (n : Noted)
        → IsSound old → AreApart old.shape.wrappers.lists → IsAble old.shape old.made ch
        → ChangesBy old ch answer new → WrapsBlack old ch → AreLeftBlack old n → AreLeftBlack new n }
{}
