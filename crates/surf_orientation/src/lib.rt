//! Turnings, one-sided chains and the Euler characteristic of a surface, as laws.
//!
//! A turning is a flag for each face that says whether to run it backwards, so that the two faces
//! of each edge run it in opposite ways. A one-sided chain is a chain of faces back to its
//! beginning that passes an odd number of edges which both faces run the same way.
//!
//! - A surface has a turning or a one-sided chain (`law_of_orientations`), and `surf_surfaces` says
//!   that it never has both. Flags that are carried along a tree of the faces decide it: they fit
//!   all edges, or the chain of an edge that they don't fit is one-sided.
//! - Where there is a turning, vertices, edges and faces are an even number in all, so 2 - χ is
//!   twice the genus (`law_of_genus`). The reason is a law on permutations: of three turns, of
//!   which one is the other two one after the other, the rounds and what is turned are an even
//!   number in all (`law_of_rounds`). The three are those of the sides about edges, faces and
//!   vertices.
//! - χ is at most 2 (`law_of_splits`), and a surface where it is 2 has a turning
//!   (`law_of_misfits`).
//!
//! Each law is the contract of a function that does nothing.
#![tactic(auto)]

ghost use Rattle.surf_orientation.specs.Statements.{NamedRoundsAreEven, CountsAreEven};
ghost use Rattle.surf_orientation.specs.Statements.{ConnectedGraphsHaveTrees, SurfacesHaveSplits};
ghost use Rattle.surf_orientation.specs.Statements.{CharacteristicsAreAtMostTwo, CountsAreAtMostTwoMore};
ghost use Rattle.surf_orientation.specs.Statements.{GenusIsHalf, GenusIsLoopCount};
ghost use Rattle.surf_orientation.specs.Statements.{LeftEdgesAreTwiceGenus, OrientationsFit};
ghost use Rattle.surf_orientation.specs.Statements.{MisfitsAreOneSided, SurfacesAreTwoSidedOrOneSided};
ghost use Rattle.surf_orientation.specs.Statements.{MisfitsAreEven, TwoSidedWhereMisfitsAreBoundary};
ghost use Rattle.surf_orientation.specs.Statements.{SpheresAreTwoSided};
ghost use Rattle.surf_orientation.specs.Statements.{OneSidedCharacteristicsAreAtMostOne};
ghost use Rattle.surf_orientation.specs.Statements.{OrientationsAreDetermined, TreeChainsGoByStep, genus_of};
ghost use Rattle.surf_orientation.specs.Examples.{half_cube, half_cube_chain, five_torus};
ghost use Rattle.surf_surfaces.specs.Mesh.{characteristic};
ghost use Rattle.surf_surfaces.specs.Surface.{IsSurface, IsOrientation};
ghost use Rattle.surf_surfaces.specs.Turning.{IsOneSided};
ghost use Rattle.std.specs.Prelude.{◌≡◌, false, pos};

/// The rounds of three turns, of which one is the other two one after the other.
pub fn law_of_rounds()
    ensures { NamedRoundsAreEven }
{}

/// Each connected graph has a spanning tree, each surface has a tree, a cotree and left edges, and
/// its characteristic is at most 2.
pub fn law_of_splits()
    ensures trees { ConnectedGraphsHaveTrees }
    ensures splits { SurfacesHaveSplits }
    ensures at_most_two { CharacteristicsAreAtMostTwo }
    ensures counts { CountsAreAtMostTwoMore }
{}

/// With a turning, 2 minus the characteristic is twice the genus.
pub fn law_of_genus()
    ensures even { CountsAreEven }
    ensures half { GenusIsHalf }
    ensures loops { GenusIsLoopCount }
    ensures left { LeftEdgesAreTwiceGenus }
{}

/// A surface has a turning or a one-sided chain, and flags along a tree of its faces give one of
/// them.
pub fn law_of_orientations()
    ensures fit { OrientationsFit }
    ensures misfit { MisfitsAreOneSided }
    ensures kinds { SurfacesAreTwoSidedOrOneSided }
    ensures determined { OrientationsAreDetermined }
    ensures by_step { TreeChainsGoByStep }
{}

/// The edges that flags do not fit are even at each vertex. They are a boundary exactly where there
/// is a turning, and so wherever the characteristic is 2.
pub fn law_of_misfits()
    ensures even { MisfitsAreEven }
    ensures boundary { TwoSidedWhereMisfitsAreBoundary }
    ensures spheres { SpheresAreTwoSided }
    ensures one_sided { OneSidedCharacteristicsAreAtMostOne }
{}

/// A one-sided surface of characteristic 1, and a torus with a turning.
pub fn small_surfaces()
    ensures surface { IsSurface half_cube }
    ensures torus { IsSurface five_torus }
    ensures one_sided { IsOneSided half_cube half_cube_chain }
    ensures characteristic { characteristic half_cube ≡ pos 1 }
    ensures turning { IsOrientation five_torus (λ f. false) }
    ensures genus { genus_of five_torus ≡ 1 }
{}
