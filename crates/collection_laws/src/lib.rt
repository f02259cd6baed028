// What a collection of all zones leaves.
//
// [gczone] Collection laws
//
// The definitions say what a collection may do unit by unit. These laws say what comes of it as a whole, in the words
// of the graph alone:
//
//     kept    what registers and gray slots reach       present, and nothing else is
//     used    what registers reach                      black, and nothing else is
//     gray    what is kept and not used
//
// They hold where a collection names every zone that was made, and no command comes between its beginning and its end.
// If it left a zone out, all that is present there would be a root; if a command woke a name, that name, which may be
// garbage by then, would be kept.
//
// The graph itself is what the commands on it lead to, one after another. So what such a collection leaves depends on
// the commands alone, and not on how they were cut into slices, where cells lay, or what earlier collections freed.
#![tactic(auto)]

ghost use Rattle.std.specs.Prelude.{◌≡◌, ◌++◌, ◌∷◌, [], ℕ, List, All, None};
ghost use Rattle.std.specs.List.{flat_map};
ghost use Rattle.gz_names.specs.declared.commands.Cmd.{Cmd};
ghost use Rattle.gz_names.specs.declared.commands.Cmd.TheVariants as command;
ghost use Rattle.gz_names.specs.declared.commands.GraphCmd.{GraphCmd};
ghost use Rattle.gz_names.specs.declared.names.Name.{Name};
ghost use Rattle.gz_names.specs.declared.replies.Reply.{Reply};
ghost use Rattle.gz_names.specs.declared.replies.Report.{Report};
ghost use Rattle.gz_names.specs.declared.zone_sets.ZoneSet.{ZoneSet};
ghost use Rattle.gz_names.specs.Zones.{zones_in};
ghost use Rattle.colour_defs.specs.Graph.{GraphState, empty_graph};
ghost use Rattle.colour_defs.specs.Step.{refusal_in, step_of};
ghost use Rattle.colour_defs.specs.World.{CommandInWorld, World, first_world};
ghost use Rattle.colour_defs.specs.Lawful.{AreLawfulUnits, Prepares, Collects, Run};
ghost use Rattle.colour_defs.specs.Laws.{IsNoWeakCmd, IsValid};
ghost use Rattle.collection_laws.specs.Collected.{AreAllZones, IsCollected};
ghost use Rattle.collection_laws.specs.Graphs.{MakesNoZone, graph_after};
ghost use Rattle.collection_laws.specs.Numbers.{GivesNext, IsAccounted, freed_in, given_after};
ghost use Rattle.collection_laws.specs.Replies.{IsReplyTo};

/// A run without weak commands leads to the graph that its commands on the graph lead to.
pub fn graph_law()
    ensures { (commands : List Cmd) (answers : List (List Report × Reply)) (w v : World)
        → All IsNoWeakCmd commands → Run w commands answers v
        → v.graph ≡ graph_after w.graph commands }
{}

/// Only the command `zone` makes a zone.
pub fn zones_law()
    ensures { (g : GraphState) (commands : List Cmd) → All MakesNoZone commands
        → (graph_after g commands).zones ≡ g.zones }
{}

/// A collection of all zones keeps exactly what registers and gray slots reach, and of this exactly what
/// registers reach is black.
pub fn collection_law()
    ensures { (commands : List Cmd) (answers : List (List Report × Reply)) (w v : World)
        (zones : List ℕ) (reports : List Report)
        → Run first_world commands answers w → AreAllZones w.graph zones → Collects w zones reports v
        → IsCollected v × (v.graph ≡ w.graph) }
{}

/// So does a run that ends with `finish`, `collect` of all zones, and `colours`: none of the three is refused for
/// another cause than that no collection runs, and `colours` changes nothing.
pub fn last_collection_law()
    ensures { (commands : List Cmd) (answers : List (List Report × Reply)) (v : World) (zones : ZoneSet)
        → All IsNoWeakCmd commands → AreAllZones (graph_after empty_graph commands) (zones_in zones)
        → Run first_world (commands ++ command.Finish ∷ command.Collect zones ∷ command.Colours ∷ []) answers v
        → IsCollected v × (v.graph ≡ graph_after empty_graph commands) }
{}

/// A command on the graph that is not refused has a reply of its form: `get` names what a register holds or says that
/// it is null, `set` says that it is done, and so on.
pub fn reply_law()
    ensures { (g : GraphState) (c : GraphCmd) → refusal_in (step_of g c).1 ≡ None
        → IsReplyTo c (step_of g c).1 }
{}

/// A number is given once, to an object or a map, and listed once as freed: so it is from the first world on, with
/// each command on the graph, each beginning of a collection, and each unit.
pub fn numbers_law()
    ensures first { IsAccounted first_world 0 [] }
    ensures command { (w v : World) (c : GraphCmd) (answer : Reply) (given : ℕ) (freed : List Name)
        → IsValid w → IsAccounted w given freed → CommandInWorld w c answer v
        → GivesNext given answer × IsAccounted v (given_after given answer) freed }
    ensures begins { (w v : World) (zones : List ℕ) (given : ℕ) (freed : List Name)
        → IsAccounted w given freed → Prepares w zones v → IsAccounted v given freed }
    ensures units { (w v : World) (units : List (List Report)) (given : ℕ) (freed : List Name)
        → IsAccounted w given freed → AreLawfulUnits w units v
        → IsAccounted v given (freed ++ freed_in (flat_map (λ u. u) units)) }
{}
