// Five more laws of the definitions, on which the collector's proofs do not rest.
//
// [gczone] Laws of the specification
//
// A reader of the definitions asks more of them than the proofs of the collector need. These laws answer five such
// questions, each for every lawful answer or every valid world:
//
//     what may stand before a last line?     reports of whole units, which go on to the end
//     is a dump sound?                       yes, whenever no zone is marking
//     what does a compaction keep?           each present cell; and no placement of them takes fewer arenas
//     what do weak slots and watches keep?   exactly what is still present
//     what becomes of a cell's number?       it is given once, and listed once as freed
//
// Without the first, a run whose output stopped in the middle of a line's reports would be outside the specification,
// though nothing is wrong with it. Without the fourth, a weak slot could go on naming a cell that is gone, or lose one
// that is there; without the last, who keeps data by a cell's number could not tell when to let it go.
//
// Only the check of dumps uses one of them (trace_cli, `dump_law`). So they stand beside the crates of the collector,
// and not below them.
#![tactic(auto)]

ghost use Rattle.std.specs.Prelude.{◌≡◌, ℕ, List, ◌++◌};
ghost use Rattle.gz_names.specs.declared.commands.Cmd.{Cmd};
ghost use Rattle.gz_names.specs.declared.commands.WeakCmd.TheVariants as weak_cmd;
ghost use Rattle.gz_names.specs.declared.replies.Reply.{Reply};
ghost use Rattle.gz_names.specs.declared.replies.Report.{Report};
ghost use Rattle.gz_names.specs.declared.dumps.DumpLine.{DumpLine};
ghost use Rattle.gz_names.specs.Dumps.{IsSoundDump};
ghost use Rattle.colour_defs.specs.Dumps.{IsDump};
ghost use Rattle.colour_defs.specs.World.{World, IsSettled, first_world};
ghost use Rattle.colour_defs.specs.Lawful.{Answers, AreLawfulUnits, Run, StartsToAnswer};
ghost use Rattle.colour_defs.specs.Laws.{IsValid, IsNoWeakCmd};
ghost use Rattle.colour_defs.specs.Compaction.{Compacts};
ghost use Rattle.colour_defs.specs.WeakRefs.{WeakInWorld};
ghost use Rattle.collection_laws.specs.Numbers.{IsAccounted};
ghost use Rattle.spec_laws.specs.Kept.{IsTight, KeepsWeak};
ghost use Rattle.spec_laws.specs.NumbersInRuns.{GiveInOrder, freed_by, given_in};

/// The reports of a lawful answer may be written before its last line, and the first units of
/// lawful units are lawful.
pub fn starts_law()
    ensures whole { (w v : World) (c : Cmd) (reports : List Report) (answer : Reply)
        → Answers w c reports answer v → StartsToAnswer w c reports }
    ensures first_units { (w v : World) (units more : List (List Report))
        → AreLawfulUnits w (units ++ more) v
        → (u : World) × AreLawfulUnits w units u × AreLawfulUnits u more v }
{}

/// The dump of a valid world in which no zone is marking is sound: whoever checks it finds no fault.
pub fn dump_law()
    ensures { (w : World) (lines : List DumpLine)
        → IsValid w → IsSettled w → IsDump w lines → IsSoundDump lines }
{}

/// A compaction keeps what is present, and no arena more than the zone's cells need.
pub fn compaction_law()
    ensures { (w v : World) (zone moved given : ℕ)
        → Compacts w zone moved given v → IsTight w zone given v }
{}

/// Each line but a weak command leaves in weak slots and among watched cells exactly what is still
/// present, and reading a weak slot changes none of them.
pub fn weak_law()
    ensures line { (w v : World) (c : Cmd) (reports : List Report) (answer : Reply)
        → IsValid w → IsNoWeakCmd c → Answers w c reports answer v → KeepsWeak w v }
    ensures deref { (w v : World) (r q : ℕ) (answer : Reply)
        → WeakInWorld w (weak_cmd.Deref r q) answer v → v.weak ≡ w.weak }
{}

/// In every run replies give the numbers of objects and maps from 0 on, each once, and reports list each number
/// once as freed, whose cell is neither present nor still to be swept.
pub fn run_numbers_law()
    ensures { (commands : List Cmd) (answers : List (List Report × Reply)) (w : World)
        → Run first_world commands answers w
        → GiveInOrder 0 answers × IsAccounted w (given_in 0 answers) (freed_by answers) }
{}
