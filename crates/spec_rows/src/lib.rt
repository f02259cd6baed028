// Worked rows: traces whose answers are lawful, beside answers that are not.
//
// [gczone] Worked rows
//
// Definitions can be wrong without a law noticing: if no group's end were ever lawful, every law of lawful runs would
// hold, of runs that reach no such end. A row is a short trace with its answers, both written out (specs/Rows). That
// its answers are lawful shows that runs of its kind exist; that another answer is not lawful shows that the
// definitions do not let everything through. Each row stands for one idea:
//
//     linked and dropped       what nothing holds is freed, and nothing else
//     gray slot alone          what a gray slot alone holds is gray, until the slot hands it out
//     gray key                 the value of a gray key is gray
//     made while marking       a cell that is made while its zone is marking lives through this collection
//     one way, gray            a group comes before those into which its gray wrappers lead
//     made while preparing     a cell that is made before marking begins can be freed by this collection
//     given up                 a collection that is given up leaves all cells of its zones black
//     given up while marking   so does one whose marking has begun
//     weakly named, compacted  a weak slot and a watch keep nothing; what is then empty is given up
//     wrapper key              a wrapper key is reached with its map and its target, and not with its map alone
//
// No crate uses this one: the proofs are long, since they write each world out, and nothing else needs them.
#![tactic(auto)]

ghost use Rattle.std.specs.Prelude.{◌≡◌, ◌∷◌, [], Contains};
ghost use Rattle.gz_names.specs.declared.names.Name.{Name};
ghost use Rattle.gz_names.specs.declared.names.Name.TheVariants.{Cell, Wrap};
ghost use Rattle.gz_names.specs.declared.replies.Reply.TheVariants as reply;
ghost use Rattle.colour_defs.specs.Closure.{Closure};
ghost use Rattle.colour_defs.specs.Lawful.{IsLawfulOutput};
ghost use Rattle.spec_rows.specs.Rows.{linked_and_dropped, answers_linked_and_dropped, answers_without_freed_cell};
ghost use Rattle.spec_rows.specs.Rows.{gray_slot_alone, answers_gray_slot_alone, gray_key, answers_gray_key};
ghost use Rattle.spec_rows.specs.Rows.{made_while_marking, answers_made_while_marking, one_way_gray};
ghost use Rattle.spec_rows.specs.Rows.{answers_one_way_gray, made_while_preparing, answers_while_preparing, given_up};
ghost use Rattle.spec_rows.specs.Rows.{answers_given_up, given_up_while_marking, answers_given_up_while_marking};
ghost use Rattle.spec_rows.specs.Rows.{weakly_named, answers_weakly_named, compacted, answers_compacted};
ghost use Rattle.spec_rows.specs.Rows.{comp_0, wrapper_key};

/// A cell is linked to another one, a third one is dropped: the third is freed, and nothing else.
pub fn linked_and_dropped_law()
    ensures lawful { IsLawfulOutput linked_and_dropped answers_linked_and_dropped }
    ensures freed { IsLawfulOutput linked_and_dropped answers_without_freed_cell → ⊥ }
{}

/// What a gray slot alone holds is gray, with what it leads to, until the slot hands it out.
pub fn gray_slot_alone_law()
    ensures { IsLawfulOutput gray_slot_alone answers_gray_slot_alone }
{}

/// The value of a black map's gray key is gray, and turns black with the key.
pub fn gray_key_law()
    ensures { IsLawfulOutput gray_key answers_gray_key }
{}

/// A cell made and dropped while its zone is marking lives through this collection, and not through
/// the next.
pub fn made_while_marking_law()
    ensures { IsLawfulOutput made_while_marking answers_made_while_marking }
{}

/// A gray cell holds a wrapper into another zone: its zone ends first, and the target is gray too.
pub fn one_way_gray_law()
    ensures { IsLawfulOutput one_way_gray answers_one_way_gray }
{}

/// A cell made and dropped while its zone is prepared is white, and this collection frees it; until
/// marking begins and ends, colours are not told.
pub fn made_while_preparing_law()
    ensures lawful { IsLawfulOutput made_while_preparing (answers_while_preparing (Cell 0 ∷ [])) }
    ensures freed { IsLawfulOutput made_while_preparing (answers_while_preparing []) → ⊥ }
{}

/// A collection that is given up while it is prepared leaves every cell of its zones black.
pub fn given_up_law()
    ensures lawful { IsLawfulOutput given_up (answers_given_up []) }
    ensures black { IsLawfulOutput given_up (answers_given_up (Cell 0 ∷ [])) → ⊥ }
{}

/// So does one that is given up once its marking has begun.
pub fn given_up_while_marking_law()
    ensures lawful { IsLawfulOutput given_up_while_marking (answers_given_up_while_marking []) }
    ensures black { IsLawfulOutput given_up_while_marking (answers_given_up_while_marking (Cell 0 ∷ [])) → ⊥ }
{}

/// A weak slot and a watch keep no cell: its death is told, and the slot names nothing then.
pub fn weakly_named_law()
    ensures lawful { IsLawfulOutput weakly_named (answers_weakly_named reply.Null) }
    ensures nothing_named { IsLawfulOutput weakly_named (answers_weakly_named (reply.Named (Cell 0))) → ⊥ }
{}

/// A compaction gives up the arena in which no cell is left.
pub fn compacted_law()
    ensures lawful { IsLawfulOutput compacted (answers_compacted 1) }
    ensures none_kept { IsLawfulOutput compacted (answers_compacted 0) → ⊥ }
{}

/// A wrapper that is a key is reached with its map and its target, and with it the value; with the
/// map alone neither is.
pub fn wrapper_key_law()
    ensures key { Closure wrapper_key (Contains (Cell 0 ∷ Cell 1 ∷ [])) (Wrap comp_0 1) }
    ensures value { Closure wrapper_key (Contains (Cell 0 ∷ Cell 1 ∷ [])) (Cell 2) }
    ensures map_alone { (x : Name) → Closure wrapper_key (Contains (Cell 0 ∷ [])) x → Cell 0 ≡ x }
{}
