// Laws of every lawful run. Each is the contract of a function that does nothing.
ghost use Rattle.std.specs.Prelude.{◌≡◌, ◌↔◌, ℕ, List, Some};
ghost use Rattle.gz_names.specs.declared.names.Name.{Name};
ghost use Rattle.gz_names.specs.declared.commands.GraphCmd.{GraphCmd};
ghost use Rattle.gz_names.specs.declared.commands.Cmd.{Cmd};
ghost use Rattle.gz_names.specs.declared.replies.Reply.{Reply};
ghost use Rattle.gz_names.specs.declared.replies.Reply.TheVariants as reply;
ghost use Rattle.gz_names.specs.declared.replies.Report.{Report};
ghost use Rattle.gz_names.specs.declared.replies.Refusal.{Refusal};
ghost use Rattle.colour_defs.specs.Graph.{GraphState};
ghost use Rattle.colour_defs.specs.Step.{step_of};
ghost use Rattle.colour_defs.specs.World.{World, Collection, Has, CommandInWorld};
ghost use Rattle.colour_defs.specs.Lawful.{Answers, Prepares, Begins, EndsGroup, IsLawfulUnit, Finishes};
ghost use Rattle.colour_defs.specs.Lawful.{HoldsInEveryRun};
ghost use Rattle.colour_defs.specs.Laws.{IsValid, IsMarking, NamesOnlyPresent};
ghost use Rattle.colour_defs.specs.Laws.{RegistersAreBlack, ClosuresAreClosed, ReachedIsInClosures};
ghost use Rattle.colour_defs.specs.Laws.{ClosuresAreClosedAtEnd, GarbageGoesAtEnd, GarbageIsGone};
ghost use Rattle.colour_defs.specs.Groups.{IsFirstEdge, IsLastEdge};
ghost use Rattle.colour_defs.specs.Present.{Agrees, Shows};

/// Every world that a lawful run reaches is valid.
pub fn valid_law()
    ensures { HoldsInEveryRun IsValid }
{}

/// One more lawful answer keeps a world valid.
pub fn answer_law()
    ensures { (w v : World) (c : Cmd) (reports : List Report) (answer : Reply)
        → IsValid w → Answers w c reports answer v → IsValid v }
{}

/// The reports of one unit keep a world valid, also between two commands' answers.
pub fn unit_law()
    ensures { (w v : World) (reports : List Report)
        → IsValid w → IsLawfulUnit w reports v → IsValid v }
{}

/// The beginning of a collection keeps a world valid, and so does the beginning of its marking.
pub fn begin_law()
    ensures prepares { (w v : World) (zones : List ℕ) → IsValid w → Prepares w zones v → IsValid v }
    ensures begins { (w v : World) (zones : List ℕ) → IsValid w → Begins w zones v → IsValid v }
{}

/// Registers, gray slots and what is present name what is present.
pub fn presence_law()
    ensures { HoldsInEveryRun NamesOnlyPresent }
{}

/// Registers hold black cells.
pub fn register_law()
    ensures { HoldsInEveryRun RegistersAreBlack }
{}

/// Black leads to black, and live to live.
pub fn closure_law()
    ensures { HoldsInEveryRun ClosuresAreClosed }
{}

/// What is reached now from a register is black, and what is reached from a root is live.
pub fn reached_law()
    ensures { HoldsInEveryRun ReachedIsInClosures }
{}

/// The two laws before hold as a group ends, too, also as the last one ends.
pub fn end_law()
    ensures { (w v : World) (zones : List ℕ) (grays told : List Name)
        → IsValid w → (end : EndsGroup w zones grays told v) → ClosuresAreClosedAtEnd end.collection v }
{}

/// What the snapshot reaches neither from the live starts nor from a woken name goes with the group of its
/// zone, and has gone when the collection is done.
pub fn garbage_law()
    ensures at_end { (w v : World) (zones : List ℕ) (grays told : List Name)
        → IsValid w → (end : EndsGroup w zones grays told v)
        → GarbageGoesAtEnd w end.collection zones v }
    ensures when_done { (w v : World)
        → IsValid w → (done : Finishes w v) → GarbageIsGone w done.over.collection }
{}

/// A refused command leaves the graph as it is.
pub fn refusal_law()
    ensures { (g : GraphState) (c : GraphCmd) (why : Refusal)
        → (step_of g c).1 ≡ reply.Refused why → (step_of g c).0 ≡ g }
{}

/// The present part of a graph answers every command as the whole graph does, and goes on to agree
/// with it.
pub fn agrees_law()
    ensures { (g h : GraphState) (c : GraphCmd)
        → Agrees g h
        → ((step_of h c).1 ≡ (step_of g c).1) × Agrees (step_of g c).0 (step_of h c).0 }
{}

/// A graph that shows what is present of a world answers every command as the world does, and goes
/// on to show it.
pub fn shown_law()
    ensures { (w v : World) (h : GraphState) (c : GraphCmd) (answer : Reply)
        → IsValid w → Shows w h → CommandInWorld w c answer v
        → ((step_of h c).1 ≡ answer) × Shows v (step_of h c).0 }
{}

/// Where nothing was woken since marking began, the first edges between zones are the last ones.
pub fn edges_law()
    ensures { (w : World) (k : Collection) → IsValid w → w.collection ≡ Some k → IsMarking k
        → ((x : Name) → Has k.woken x → ⊥)
        → (a b : ℕ) → IsFirstEdge w k a b ↔ IsLastEdge w k a b }
{}
