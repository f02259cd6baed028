// Components are lawful sweep groups.
//
// [gczone] Group laws
//
// Two crates speak of groups. zone_edges knows sets of zones and edges that were noted; colour_defs
// knows a world, in which an edge between zones is a wrapper and its target. Looks at wrappers and
// commands may alternate, so the second one has two kinds of edge: a *first edge*, whose target was
// outside the black closure at `gc`, and a *last edge*, whose target is outside it as the groups are
// formed. Black closures only grow, so each last edge is a first edge too:
//
//     last edges   within   noted edges   within   first edges
//
// What is noted lies between both. If an edge were noted that is no first edge, groups could be
// joined that nothing joins; if a last edge were not noted, a zone could finish after one that its
// wrappers still keep alive.
#![tactic(auto)]

ghost use Rattle.group_laws.specs.Laws.{ComponentsAreLawful, GroupsAreComponents};

/// The components of the noted edges, each as an ascending list, are lawful groups of the zones of a
/// collection, where each noted edge is a first edge and each last edge is noted.
pub fn components_law()
    ensures { ComponentsAreLawful }
{}

/// Lawful groups are exactly the strongly connected components by first edges, where nothing was woken
/// since the collection began.
pub fn exact_law()
    ensures { GroupsAreComponents }
{}
