//! Polygon meshes and closed surfaces: the definitions that all answers are stated in, and their
//! laws.
//!
//! A mesh is a number of vertices and a list of faces, each the list of its corners
//! (specs/Mesh.antt). Its edges are the unordered pairs that are sides of faces, numbered in order.
//! A mesh is a surface (specs/Surface.antt) where each edge has two faces, the faces at each vertex
//! are one fan, and all faces hang together; it may be one-sided.
//!
//! Over these stand walks, their lengths and parities (Walk), boundaries, null walks, independent
//! lists, loop systems, bases and what makes them least (Homology), simple cycles and which of them
//! separate (Cycle), distances (Distance), discs and openings (Disc), and orientations and one-sided
//! chains (Surface, Turning). None of these speaks of trees, signatures or an order of search.
//!
//! Where several answers are least, one is chosen: the tree of shortest walks with least parents
//! (ShortestTree), the heaviest tree of faces over the other edges (Cotree), the loops of the edges
//! that are left, and from the loops at all vertices, by length, base and edge, the basis and the
//! first cycle (Choice).
//!
//! The laws say that
//!
//! - edges, sides and corners count as they should (`law_of_edges`, `law_of_faces`, `law_of_sides`,
//!   `law_of_fans`);
//! - a surface is a cell complex of `surf_graphs`, with the same walks, parities, null walks and
//!   independent lists (`law_of_cells`), so that what holds there holds of meshes
//!   (`law_of_classes`, `law_of_least`, `law_of_cycles`);
//! - the choice exists and is one, its loops are a least loop system, its basis is a least basis of
//!   simple cycles, and the first candidate is a shortest nonseparating cycle (`law_of_trees`,
//!   `law_of_loops`, `law_of_basis`, `law_of_first_cycle`);
//! - searches at a few vertices find the bases of the basis and of the first candidate, and the
//!   choice from these bases is the choice (`law_of_least_bases`, `law_of_few_bases`,
//!   `law_of_found_loops`, `law_of_short_searches`, `law_of_some_bases`, `law_of_first_found`);
//! - what is least in total is least place by place, against all independent closed walks
//!   (`law_of_places`, `law_of_chosen_places`), and exactly where each closed walk is, up to a
//!   boundary, a sum of members that are no longer (`law_of_short_sums`);
//! - its shortest is a shortest of all closed walks that are not null, and these are the shortest
//!   nonseparating cycles (`law_of_shortest_walks`);
//! - a one-sided chain excludes every turning (`law_of_orientations`).
//!
//! Each law is the contract of a function that does nothing. `docs/definitions.md` has the
//! definitions in prose.
#![tactic(auto)]

ghost use Rattle.std.specs.Prelude.{◌≡◌, ℕ, List, [], ◌∷◌, pos, true};
ghost use Rattle.surf_surfaces.specs.Laws.{EdgesAreInOrder, EdgesAreSides, EdgesAreOrdered};
ghost use Rattle.surf_surfaces.specs.Laws.{EdgesAreDetermined, EdgesAreNumbered, FacesAreListed};
ghost use Rattle.surf_surfaces.specs.Laws.{EdgesHaveTwoFaces, SidesDiffer, CornersHaveTwoSides};
ghost use Rattle.surf_surfaces.specs.Laws.{FaceMeetsVertices, VerticesAreJoined, ClosedWalksAreEven};
ghost use Rattle.surf_surfaces.specs.Laws.{BoundariesAreEven, SizesAreTwiceEdges};
ghost use Rattle.surf_surfaces.specs.Laws.{EdgesAreAsManyAsCorners, OnlyAllOrNoneIsClosed};
ghost use Rattle.surf_surfaces.specs.Laws.{BoundariesAdd, ParitiesAdd, TotalsAreSums};
ghost use Rattle.surf_surfaces.specs.Mesh.{Mesh, IsMesh, edges, characteristic, tetrahedron};
ghost use Rattle.surf_surfaces.specs.SmallMeshes.{three_torus, three_torus_edges};
ghost use Rattle.surf_surfaces.specs.SmallMeshes.{three_torus_lengths, six_plane, six_plane_edges};
ghost use Rattle.surf_surfaces.specs.Walk.{parity, walk_length};
ghost use Rattle.surf_surfaces.specs.Surface.{IsSurface, IsOrientable, faces_of, faces_with};
ghost use Rattle.surf_surfaces.specs.Fan.{FansAreWhole, ListedFacesAreFan};
ghost use Rattle.surf_surfaces.specs.Side.{SidesAreByPlace, SidesArePlaced, CornersHaveNeighbours};
ghost use Rattle.surf_surfaces.specs.Side.{SidesHaveMates};
ghost use Rattle.surf_surfaces.specs.Turning.{OneSidedChainsExcludeOrientations};
ghost use Rattle.surf_surfaces.specs.Cells.{SurfacesAreCells, BoundariesAreNull, WalksAreGraphWalks};
ghost use Rattle.surf_surfaces.specs.Cells.{IndependenceIsThatOfChains, IndependentWalksAreFew};
ghost use Rattle.surf_surfaces.specs.Class.{NullByClass, IndependentByClasses, LeftLoopsAreLeast};
ghost use Rattle.surf_surfaces.specs.Class.{CoveringBasesAreLeast};
ghost use Rattle.surf_surfaces.specs.Signature.{SignaturesAreClasses, NullBySignature, FacesSumToZero};
ghost use Rattle.surf_surfaces.specs.CycleLaws.{NullCyclesSeparate, CyclesBelowLoopsAreShortest};
ghost use Rattle.surf_surfaces.specs.CycleLaws.{LeastLoopsAreShortestCycles, CyclesSeparateOnSphere};
ghost use Rattle.surf_surfaces.specs.ShortestTree.{ShortestTreesAreOne};
ghost use Rattle.surf_surfaces.specs.Cotree.{CotreesAreOne, HeavyCotreesAreHeaviest};
ghost use Rattle.surf_surfaces.specs.ChoiceLaws.{ChoiceExists, LoopsAreLeast, LoopsAreOne, BasisIsLeast};
ghost use Rattle.surf_surfaces.specs.ChoiceLaws.{BasisIsOne, BasisIsKeptBaseByBase, FirstIsShortest};
ghost use Rattle.surf_surfaces.specs.ChoiceLaws.{CandidatesBelowTwo, SimpleCyclesSeparate};
ghost use Rattle.surf_surfaces.specs.ChoiceLaws.{LoopsAreClosed, CandidatesAreOne, BasesAreOne};
ghost use Rattle.surf_surfaces.specs.FewBases.{LeastTablesAreLeast, SignedEndsMeetAll, FewBasesSuffice};
ghost use Rattle.surf_surfaces.specs.FewBases.{PlacesAreThoseOfBasis, ChosenTreesAreShortest, BasisIsKeptAmong};
ghost use Rattle.surf_surfaces.specs.FewBases.{BasisIsKeptOver};
ghost use Rattle.surf_surfaces.specs.FewBases.{BasisIsKeptOverFew, FirstIsAtLeastBase, LoopsGrowEnough};
ghost use Rattle.surf_surfaces.specs.FewBases.{EnoughLoopsExist, EndsAreNear, NearTreesHaveLoops, ShortSearchesSuffice};
ghost use Rattle.surf_surfaces.specs.Homology.{IsLoopCount};
ghost use Rattle.surf_surfaces.specs.Places.{count_up_to, lengths_in_order};
ghost use Rattle.surf_surfaces.specs.PlaceLaws.{NoLongerLaw, LoopSystemsAreLeastInOrder};
ghost use Rattle.surf_surfaces.specs.PlaceLaws.{BasesAreLeastInOrder, LeastLoopSystemsAreAlike};
ghost use Rattle.surf_surfaces.specs.PlaceLaws.{LeastBasesAreAlike};
ghost use Rattle.surf_surfaces.specs.PlaceLaws.{ShortestLoopsAreShortestNotNull};
ghost use Rattle.surf_surfaces.specs.PlaceLaws.{ShortestOfBasesAreShortestNotNull};
ghost use Rattle.surf_surfaces.specs.PlaceLaws.{ShortestNotNullIsNonseparating, BasesHaveShortest};
ghost use Rattle.surf_surfaces.specs.PlaceLaws.{ShortestIsFirstInOrder, LeastBasesMeasureShortest};
ghost use Rattle.surf_surfaces.specs.PlaceLaws.{FirstLoopIsShortestNotNull, FirstOfBasisIsShortestNotNull};
ghost use Rattle.surf_surfaces.specs.PlaceLaws.{LoopSystemsAreLeastByShortSums};
ghost use Rattle.surf_surfaces.specs.PlaceLaws.{BasesAreLeastByShortSums};
ghost use Rattle.surf_surfaces.specs.PlaceLaws.{ChosenLoopsAreInOrder, ChosenLoopsAreLeastInOrder};
ghost use Rattle.surf_surfaces.specs.PlaceLaws.{ChosenBasisIsInOrder, ChosenBasisIsLeastInOrder};
ghost use Rattle.surf_surfaces.specs.Pillow.{pillow};

/// The edges of a mesh are the sides of its faces, in order.
pub fn law_of_edges()
    ensures in_order { EdgesAreInOrder }
    ensures sides { EdgesAreSides }
    ensures ordered { EdgesAreOrdered }
    ensures determined { EdgesAreDetermined }
    ensures numbered { (mesh : Mesh) → IsMesh mesh → EdgesAreNumbered mesh }
{}

/// The faces of an edge, and which vertices a face meets.
pub fn law_of_faces()
    ensures listed { (mesh : Mesh) (p : ℕ × ℕ) → FacesAreListed mesh p }
    ensures two { EdgesHaveTwoFaces }
    ensures sides_differ { SidesDiffer }
    ensures two_sides { CornersHaveTwoSides }
    ensures meets { (mesh : Mesh) → IsSurface mesh → FaceMeetsVertices mesh }
    ensures sizes { SizesAreTwiceEdges }
    ensures degrees { EdgesAreAsManyAsCorners }
{}

/// Any two vertices of a surface are joined by a walk.
pub fn law_of_walks()
    ensures { VerticesAreJoined }
{}

/// Closed walks and boundaries are even at each vertex.
pub fn law_of_evenness()
    ensures walks { ClosedWalksAreEven }
    ensures boundaries { BoundariesAreEven }
{}

/// Boundaries, and the parities of walks, add up.
pub fn law_of_sums()
    ensures closed { OnlyAllOrNoneIsClosed }
    ensures boundaries { BoundariesAdd }
    ensures walks { ParitiesAdd }
    ensures totals { TotalsAreSums }
{}

/// A surface is a cell complex: two connected graphs over one list of edges, its vertices and its
/// faces. Its walks are
/// walks of the graph of vertices.
pub fn law_of_cells()
    ensures surfaces { SurfacesAreCells }
    ensures boundaries { BoundariesAreNull }
    ensures walks { (mesh : Mesh) → IsSurface mesh → WalksAreGraphWalks mesh }
    ensures independent { IndependenceIsThatOfChains }
{}

/// Which closed walks are null and which are independent, by their signatures.
pub fn law_of_classes()
    ensures few { IndependentWalksAreFew }
    ensures null { NullByClass }
    ensures independent { IndependentByClasses }
    ensures signatures { SignaturesAreClasses }
    ensures null_signature { NullBySignature }
    ensures faces { FacesSumToZero }
{}

/// What makes a loop system or a basis a least one.
pub fn law_of_least()
    ensures loops { LeftLoopsAreLeast }
    ensures bases { CoveringBasesAreLeast }
{}

/// Which simple cycles separate, and what makes one a shortest that doesn't.
pub fn law_of_cycles()
    ensures null { NullCyclesSeparate }
    ensures below_loops { CyclesBelowLoopsAreShortest }
    ensures least_loops { LeastLoopsAreShortestCycles }
    ensures sphere { CyclesSeparateOnSphere }
{}

/// There is one tree of shortest walks with least parents, and over it one heaviest tree of faces.
pub fn law_of_trees()
    ensures exist { ChoiceExists }
    ensures shortest { ShortestTreesAreOne }
    ensures heaviest { CotreesAreOne }
    ensures heavy { HeavyCotreesAreHeaviest }
{}

/// The loops that are chosen at a base are a least loop system.
pub fn law_of_loops()
    ensures { LoopsAreLeast }
{}

/// In any tree of the vertices the loop of an edge is a closed walk at the root.
pub fn law_of_loop_walks()
    ensures { LoopsAreClosed }
{}

/// What is chosen is one, whichever trees show it: the loops at a base, the candidates and the
/// basis.
pub fn law_of_one_choice()
    ensures loops { LoopsAreOne }
    ensures candidates { CandidatesAreOne }
    ensures basis { BasesAreOne }
{}

/// The basis that is chosen is a least one, of simple cycles. There is one, and it may be kept base
/// by base.
pub fn law_of_basis()
    ensures least { BasisIsLeast }
    ensures one { BasisIsOne }
    ensures by_bases { BasisIsKeptBaseByBase }
{}

/// The first candidate is a shortest nonseparating cycle, and there is one exactly where not all
/// simple cycles separate.
pub fn law_of_first_cycle()
    ensures first { FirstIsShortest }
    ensures below_two { CandidatesBelowTwo }
    ensures separate { SimpleCyclesSeparate }
{}

/// A table gives the least vertices on shortest walks from a vertex.
pub fn law_of_least_bases()
    ensures { LeastTablesAreLeast }
{}

/// Loops that were found at the vertices of a set which every closed walk meets that isn't null
/// have the lengths and bases of the basis; and such sets are known by signatures.
pub fn law_of_few_bases()
    ensures meets { SignedEndsMeetAll }
    ensures suffice { FewBasesSuffice }
    ensures places { PlacesAreThoseOfBasis }
    ensures trees { ChosenTreesAreShortest }
{}

/// Enough loops are found vertex by vertex, and there are such loops.
pub fn law_of_found_loops()
    ensures grow { LoopsGrowEnough }
    ensures exist { EnoughLoopsExist }
{}

/// A search need go no farther than half the greatest length that was kept.
pub fn law_of_short_searches()
    ensures near { EndsAreNear }
    ensures loops { NearTreesHaveLoops }
    ensures suffice { ShortSearchesSuffice }
{}

/// What is kept from some bases is the basis, where these have the bases of the basis.
pub fn law_of_some_bases()
    ensures among { BasisIsKeptAmong }
    ensures over { BasisIsKeptOver }
    ensures few { BasisIsKeptOverFew }
{}

/// The first loop that was found has the length and the base of the first candidate.
pub fn law_of_first_found()
    ensures { FirstIsAtLeastBase }
{}

/// A loop system or a basis is least in total exactly where it is least place by place, and then
/// its lengths are those of each least one.
pub fn law_of_places()
    ensures no_longer { (mesh : Mesh) (lengths : List ℕ) (walks others : List (List ℕ)) →
        NoLongerLaw mesh lengths walks others }
    ensures loops { LoopSystemsAreLeastInOrder }
    ensures bases { BasesAreLeastInOrder }
    ensures loops_alike { LeastLoopSystemsAreAlike }
    ensures bases_alike { LeastBasesAreAlike }
{}

/// What is chosen stands in the order of length, and place by place no independent closed walks are
/// shorter.
pub fn law_of_chosen_places()
    ensures loops { ChosenLoopsAreLeastInOrder }
    ensures loops_in_order { ChosenLoopsAreInOrder }
    ensures basis { ChosenBasisIsLeastInOrder }
    ensures basis_in_order { ChosenBasisIsInOrder }
{}

/// A loop system or a basis is least exactly where each closed walk is, up to a boundary, a sum of
/// members that are no longer than it.
pub fn law_of_short_sums()
    ensures loops { LoopSystemsAreLeastByShortSums }
    ensures bases { BasesAreLeastByShortSums }
{}

/// The shortest of a least loop system is a shortest of all closed walks at its base that are not
/// null, that of a least basis one of all such walks anywhere. These are the shortest nonseparating
/// cycles.
pub fn law_of_shortest_walks()
    ensures loops { ShortestLoopsAreShortestNotNull }
    ensures bases { ShortestOfBasesAreShortestNotNull }
    ensures nonseparating { ShortestNotNullIsNonseparating }
    ensures some { BasesHaveShortest }
    ensures in_order { ShortestIsFirstInOrder }
    ensures measure { LeastBasesMeasureShortest }
    ensures first_loop { FirstLoopIsShortestNotNull }
    ensures first_of_basis { FirstOfBasisIsShortestNotNull }
{}

/// Two triangles with the same corners are a two-sided surface.
pub fn smallest_surface()
    ensures surface { IsSurface pillow }
    ensures two_sided { IsOrientable pillow }
    ensures count { IsLoopCount pillow 0 }
{}

/// The edges of four small meshes, faces of an edge, characteristics, the length and the parity of
/// a walk, and walks by their lengths.
pub fn small_meshes()
    ensures tetrahedron_edges { edges tetrahedron ≡ (0, 1) ∷ (0, 2) ∷ (0, 3) ∷ (1, 2) ∷
        (1, 3) ∷ (2, 3) ∷ [] }
    ensures tetrahedron_faces { faces_of tetrahedron 1 ≡ (0, 2) }
    ensures tetrahedron_characteristic { characteristic tetrahedron ≡ pos 2 }
    ensures pillow_edges { edges pillow ≡ (0, 1) ∷ (0, 2) ∷ (1, 2) ∷ [] }
    ensures pillow_faces { faces_with pillow (0, 1) ≡ 0 ∷ 1 ∷ [] }
    ensures pillow_characteristic { characteristic pillow ≡ pos 2 }
    ensures torus_edges { edges three_torus ≡ three_torus_edges }
    ensures torus_faces { faces_with three_torus (0, 1) ≡ 1 ∷ 12 ∷ [] }
    ensures torus_characteristic { characteristic three_torus ≡ pos 0 }
    ensures torus_walk { walk_length three_torus three_torus_lengths (2 ∷ 5 ∷ 3 ∷ 7 ∷ 2 ∷ []) ≡ 81 }
    ensures torus_order { lengths_in_order three_torus three_torus_lengths
        ((2 ∷ 5 ∷ 3 ∷ 7 ∷ 2 ∷ []) ∷ (3 ∷ 5 ∷ 3 ∷ []) ∷ (4 ∷ 3 ∷ 4 ∷ []) ∷ []) ≡ 44 ∷ 58 ∷ 81 ∷ [] }
    ensures torus_count { count_up_to three_torus three_torus_lengths 58 ((2 ∷ 5 ∷ 3 ∷ 7 ∷ 2 ∷ []) ∷
        (3 ∷ 5 ∷ 3 ∷ []) ∷ (4 ∷ 3 ∷ 4 ∷ []) ∷ []) ≡ 2 }
    ensures torus_parity { parity three_torus (0 ∷ 1 ∷ 0 ∷ 1 ∷ []) 0 ≡ true }
    ensures plane_edges { edges six_plane ≡ six_plane_edges }
    ensures plane_faces { faces_with six_plane (4, 5) ≡ 3 ∷ 8 ∷ [] }
    ensures plane_characteristic { characteristic six_plane ≡ pos 1 }
{}

/// The sides of a face by their places, and the one other side that is the same edge.
pub fn law_of_sides()
    ensures by_place { SidesAreByPlace }
    ensures placed { SidesArePlaced }
    ensures neighbours { CornersHaveNeighbours }
    ensures mates { (mesh : Mesh) → IsSurface mesh → SidesHaveMates mesh }
{}

/// The faces at a vertex.
pub fn law_of_fans()
    ensures whole { FansAreWhole }
    ensures listed { ListedFacesAreFan }
{}

/// A one-sided chain of faces excludes every turning.
pub fn law_of_orientations()
    ensures { OneSidedChainsExcludeOrientations }
{}
