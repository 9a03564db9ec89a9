//! Homology over the field with two elements on two graphs that share their edges, as laws.
//!
//! `Cells` (specs/Cells.antt) are vertices, edges and faces by their numbers, where each edge runs
//! between two vertices and lies between two faces. So there are two graphs on one set of edges:
//! `primal`, of the vertices, and `dual`, of the faces. Nothing is said of polygons here:
//! `IsCellComplex` asks that both graphs are connected and that each face has an even number of
//! edges at each vertex, and that is all that the laws need.
//!
//! - A chain is a set of edges. It is even where an even number of its edges end at each vertex,
//!   and null where it is the boundary of a set of faces.
//! - A split is a spanning tree of the vertices, a spanning tree of the faces over other edges (the
//!   cotree), and the edges left over, of which there are 2 - χ (`law_of_left_count`).
//! - Each edge has a signature, a set of left edges. An even chain is null exactly where the
//!   signatures of its edges sum to zero (`law_of_null_chains`), so independence is decided by
//!   signatures (`law_of_independent_chains`).
//! - Through a tree, each edge has a loop. An even chain is the sum of the loops of its edges
//!   (`law_of_even_chains`). With a shortest tree and a heaviest cotree the loops of the left edges
//!   are a least system of loops at the root (`law_of_least_loops`), and cycles that cover the loops
//!   through the shortest trees at all vertices are a least basis (`law_of_covering_cycles`).
//! - Trees grow by an edge at a time (`law_of_growing_trees`, `law_of_growing_heavy_trees`), which
//!   is how programs find them.
//!
//! Trees and cotrees are those of Eppstein 2003, "Dynamic generators of topologically embedded
//! graphs"; the loops of a heaviest cotree those of Erickson and Whittlesey, "Greedy Optimal
//! Homotopy and Homology Generators", SODA 2005. Each law is the contract of a function that does
//! nothing.
#![tactic(auto)]

ghost use Rattle.surf_graphs.specs.Laws.{EvenInTreeIsEmpty, CellBoundariesAreEven};
ghost use Rattle.surf_graphs.specs.Laws.{ClosedGraphWalksAreEven, EdgesOutsideTreeJoinFaces};
ghost use Rattle.surf_graphs.specs.Laws.{TreesHaveOneEdgeLess, LeftEdgesCount, NullChains};
ghost use Rattle.surf_graphs.specs.Laws.{NullWalks, CellFacesSumToZero, EvenChainsAreSumsOfLoops};
ghost use Rattle.surf_graphs.specs.Laws.{LoopsOfWalkAreNoLonger, ShortLeftLoopsSpan};
ghost use Rattle.surf_graphs.specs.Laws.{IndependentChains, IndependentChainsAreFew};
ghost use Rattle.surf_graphs.specs.Laws.{LeftLoopsAreIndependent, LeftGraphLoopsAreLeast};
ghost use Rattle.surf_graphs.specs.Laws.{CoveringCyclesAreLeast, CotreeEdgesPart};
ghost use Rattle.surf_graphs.specs.Laws.{FacesAreClosedWalks, NullGraphCyclesSeparate};
ghost use Rattle.surf_graphs.specs.Laws.{SidesMakeCornersEven, SidesConnectVertices};
ghost use Rattle.surf_graphs.specs.Laws.{GraphLoopsAreClosed, LoopsAreWalks, NonNullWalksHaveShortLoops};
ghost use Rattle.surf_graphs.specs.Laws.{ClosedWalksAreSimpleOrTwo, RoundsAreEven};
ghost use Rattle.surf_graphs.specs.Laws.{LeftEdgesAreEven, MatesAreRounds, SplitsExist};
ghost use Rattle.surf_graphs.specs.Laws.{BordersAreConnected, RanksAreDistances, TreesGrow};
ghost use Rattle.surf_graphs.specs.Laws.{HeavyTreesGrow, HeavyTreesAreHeaviest};
ghost use Rattle.surf_graphs.specs.Laws.{GrownTreesByTables, GrownTreesSpan, SimpleCyclesRunOnce};
ghost use Rattle.surf_graphs.specs.Laws.{FacesAreSimpleCycles, WaysGoByParents};

/// An even chain inside a spanning tree is empty.
pub fn law_of_even_chains_in_trees()
    ensures { EvenInTreeIsEmpty }
{}

/// The boundary of a set of faces is even at each vertex.
pub fn law_of_boundaries()
    ensures { CellBoundariesAreEven }
{}

/// A closed walk runs an even number of edges at each node an odd number of times.
pub fn law_of_closed_walks()
    ensures { ClosedGraphWalksAreEven }
{}

/// The edges outside a spanning tree of the vertices join all faces.
pub fn law_of_edges_outside_trees()
    ensures { EdgesOutsideTreeJoinFaces }
{}

/// A spanning tree has one edge less than nodes.
pub fn law_of_tree_edges()
    ensures { TreesHaveOneEdgeLess }
{}

/// The edges outside both trees are 2 - χ.
pub fn law_of_left_count()
    ensures { LeftEdgesCount }
{}

/// An even chain is null exactly where its signature is zero.
pub fn law_of_null_chains()
    ensures { NullChains }
{}

/// A closed walk is null exactly where its signature is zero.
pub fn law_of_null_walks()
    ensures { NullWalks }
{}

/// The signatures of a face's edges sum to zero.
pub fn law_of_sums_of_faces()
    ensures { CellFacesSumToZero }
{}

/// An even chain is the sum of the loops of its edges.
pub fn law_of_even_chains()
    ensures { EvenChainsAreSumsOfLoops }
{}

/// Of a closed walk at the root of a shortest tree, no edge that it runs an odd number of times has
/// a loop that is longer than the walk.
pub fn law_of_loops_of_walks()
    ensures { LoopsOfWalkAreNoLonger }
{}

/// Where the cotree is heaviest, each loop's signature is a sum of those of left loops that are no
/// longer.
pub fn law_of_short_left_loops()
    ensures { ShortLeftLoopsSpan }
{}

/// Even chains are independent exactly where their signatures are.
pub fn law_of_independent_chains()
    ensures { IndependentChains }
{}

/// No more than 2 - χ even chains are independent.
pub fn law_of_few_chains()
    ensures { IndependentChainsAreFew }
{}

/// The left loops are independent.
pub fn law_of_independent_loops()
    ensures { LeftLoopsAreIndependent }
{}

/// The left loops of a shortest tree and its heaviest cotree are a least system of loops.
pub fn law_of_least_loops()
    ensures { LeftGraphLoopsAreLeast }
{}

/// Cycles that cover the loops through all shortest trees are a least basis.
pub fn law_of_covering_cycles()
    ensures { CoveringCyclesAreLeast }
{}

/// What it means that two faces lie on different sides of an edge of the cotree.
pub fn law_of_cotree_edges()
    ensures { CotreeEdgesPart }
{}

/// Each face has an even number of edges at each vertex where faces are closed walks.
pub fn law_of_walks_round_faces()
    ensures { FacesAreClosedWalks }
{}

/// A simple cycle is null exactly where it separates.
pub fn law_of_null_cycles()
    ensures { NullGraphCyclesSeparate }
{}

/// Faces that are run round by their sides have an even number of edges at each vertex.
pub fn law_of_corners()
    ensures { SidesMakeCornersEven }
{}

/// The vertices are connected where the faces are.
pub fn law_of_connected_vertices()
    ensures { SidesConnectVertices }
{}

/// In any tree the loop of an edge is a closed walk at the root.
pub fn law_of_closed_loops()
    ensures { GraphLoopsAreClosed }
{}

/// In a shortest tree of a graph without double edges, the loop of an edge is a closed walk at the
/// root, with the loop's edges and length.
pub fn law_of_loop_walks()
    ensures { LoopsAreWalks }
{}

/// For a closed walk that is not null there is an edge, whether or not the walk runs it, whose loop
/// is not null and no longer than the walk.
pub fn law_of_short_loops()
    ensures { NonNullWalksHaveShortLoops }
{}

/// In a graph without double edges and without edges from a node to itself, a closed walk that runs
/// some edge an odd number of times is a simple cycle, or the sum of two.
pub fn law_of_simple_parts()
    ensures { ClosedWalksAreSimpleOrTwo }
{}

/// The rounds of three turns of which one is the other two make an even number with what they turn.
pub fn law_of_rounds()
    ensures { RoundsAreEven }
{}

/// The number of left edges is even where the sides can be turned about faces and vertices alike.
pub fn law_of_left_edges()
    ensures { LeftEdgesAreEven }
{}

/// The mates go round in pairs.
pub fn law_of_mates()
    ensures { MatesAreRounds }
{}

/// Each cell complex with a vertex and a face has a tree, a cotree and left edges.
pub fn law_of_splits()
    ensures { SplitsExist }
{}

/// The border of a disc is connected.
pub fn law_of_borders()
    ensures { BordersAreConnected }
{}

/// In a graph without double edges the ranks of a shortest tree are distances.
pub fn law_of_distances()
    ensures { RanksAreDistances }
{}

/// A tree grows by an edge to a new node.
pub fn law_of_growing_trees()
    ensures { TreesGrow }
{}

/// A heaviest edge keeps a grown tree heavy.
pub fn law_of_growing_heavy_trees()
    ensures { HeavyTreesGrow }
{}

/// A heavy tree of all faces is a heaviest cotree.
pub fn law_of_heaviest_trees()
    ensures { HeavyTreesAreHeaviest }
{}

/// Tables that say the same are the same grown tree.
pub fn law_of_trees_by_tables()
    ensures { GrownTreesByTables }
{}

/// A grown tree that has reached all nodes is a spanning tree.
pub fn law_of_grown_trees()
    ensures { GrownTreesSpan }
{}

/// A simple cycle runs each edge that it runs an odd number of times.
pub fn law_of_simple_cycles()
    ensures { SimpleCyclesRunOnce }
{}

/// Each face has an even number of edges at each vertex where faces are simple cycles.
pub fn law_of_cycles_round_faces()
    ensures { FacesAreSimpleCycles }
{}

/// The ways between the root of a tree and its nodes go from parent to parent.
pub fn law_of_ways()
    ensures { WaysGoByParents }
{}
