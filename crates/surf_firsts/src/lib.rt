//! The first of the loops that are chosen at a base, by the loops of all edges there.
//!
//! The loop of each edge at a base is, up to a boundary, a sum of chosen loops there that come no
//! later by length and edge, since the tree of faces is heaviest. So of the loops of edges at the
//! base that are at most so long, in order, the greedy choice is the chosen loops that are at most
//! so long: a search that reaches no farther finds them (`law_of_first_loops`).
//!
//! A search at a vertex that finds nothing but loops much longer than those kept tells of the
//! vertices near it too, though it goes by lengths that bar the ways through vertices for which
//! what is kept is enough already (`law_of_near_vertices`). For a loop at a vertex near it is the
//! sum of two closed walks over that vertex and the loop's least base, each no longer than the
//! loop. Such a walk that meets one of the barred vertices is a sum of loops there that come no
//! later than the loop. One that meets none is as long by the lengths of the search, so it is a sum
//! of loops that the search could find, longer by no more than the way there and back.
//!
//! Each law is the contract of a function that does nothing.
#![tactic(auto)]

ghost use Rattle.surf_firsts.specs.Firsts.{LoopsDependOnNoLater, FirstLoopsAreGreedy};
ghost use Rattle.surf_firsts.specs.Near.{NearVerticesNeedNoMore};

/// The loop of each edge at a base depends on the chosen loops there that come no later, and the
/// greedy choice from loops of edges that are at most so long is the chosen loops that are.
pub fn law_of_first_loops()
    ensures no_later { LoopsDependOnNoLater }
    ensures greedy { FirstLoopsAreGreedy }
{}

/// Where loops are enough for a set of vertices, and the loops at a vertex by lengths that may
/// differ at that set depend on those of them that are shorter by more than a way there and back,
/// they are enough for the vertices that are no farther away by these lengths.
pub fn law_of_near_vertices()
    ensures near { NearVerticesNeedNoMore }
{}
