// The mark rule in words.
ghost use Rattle.std.specs.Prelude.{ℕ, List};
ghost use Rattle.atomic_table.specs.Table.{State};
ghost use Rattle.mark_words.specs.declared.view.MarkView.{MarkView as AView};
ghost use Rattle.mark_words.specs.Rule.{MarkRule};
ghost use Rattle.mark_words.specs.InWords.{MarkRuleInWords};

use crate::place_list::PlaceList;

/// The rule that holds between any two steps on marks says this much: each black word is its first
/// value with the bits of the cells that seats won, those cells are listed, and no cell is won twice.
pub fn mark_rule_in_words<L: PlaceList>()
    ensures { (first : List ℕ) (s : State (Unit {0}) AView)
        → MarkRule L.places first s → MarkRuleInWords L.places first s }
{}
