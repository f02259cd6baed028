// The board rule in words.
ghost use Rattle.std.specs.Prelude.{List};
ghost use Rattle.atomic_table.specs.Table.{State};
ghost use Rattle.cell_bits.specs.declared.jobs.Job.{Job as AJob};
ghost use Rattle.sweep_board.specs.declared.view.View.{View as AView};
ghost use Rattle.sweep_board.specs.Rule.{BoardRule};
ghost use Rattle.sweep_board.specs.InWords.{BoardRuleInWords};

/// The rule that holds between any two steps on a board says this much: each claimed arena has one
/// claimer, no wake is lost, and what was freed are the cells that were white at hand-out.
pub fn board_rule_in_words()
    ensures { (jobs : List AJob) (s : State (Unit {0}) AView) → BoardRule jobs s → BoardRuleInWords jobs s }
{}
