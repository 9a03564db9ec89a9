//! Sheets: what shows that closed walks are a least basis, with neither a tree nor a shortest walk.
//!
//! A cocycle is a set of edges that has an even number of the edges of each face, so that a closed
//! walk which is null crosses it an even number of times. Let as many closed walks as 2 − χ be
//! given, in the order of length, and with each of them a cocycle that it crosses an odd number of
//! times, while none before it does. Then the walks are independent, and a closed walk that is odd
//! on no cocycle is null. So each closed walk is, up to a boundary, the sum of walks of which the
//! last is one on whose cocycle it is odd.
//!
//! It remains that a closed walk which is odd on a cocycle is no shorter than the walk with its
//! number. A sheet shows that for all walks over a part of the surface and what is near it. It has
//! a label of two at each vertex, a distance from the part that no edge changes by more than its
//! length, and a bound: the way from the part over an edge whose ends' labels don't go with the
//! cocycle, and back, is as long as the walk. Round a closed walk over the part the labels cancel,
//! so where it is odd on the cocycle it runs such an edge, and is as long. As each closed walk that
//! is odd on a cocycle runs one of its edges, it is enough that each of these has an end that is
//! near the part of some sheet.
//!
//! Among walks of one length the choice of a basis goes by the base, the least vertex. A sheet that
//! has also a bound for the least vertex on the ways from its part, which falls along them, shows
//! that no closed walk which is odd on a cocycle comes sooner than the walk with its number, by
//! length and base.
//!
//! Each least basis has such cocycles and sheets: whether one of its walks takes part in a closed
//! walk tells a cocycle, and a walk in which it does is no shorter. Then single vertices are parts
//! enough, with the shortest ways from them.
//!
//! - Walks that are null are even on cocycles (`law_of_cocycles`).
//! - Such walks are a least basis, in total and place by place (`law_of_sheets`).
//! - With such bounds, their lengths and bases are those of the basis that is chosen
//!   (`law_of_sheet_places`).
//! - Each least basis is shown by some, and the one that is chosen with its bases
//!   (`law_of_enough_sheets`).
//!
//! Each law is the contract of a function that does nothing.
#![tactic(auto)]

ghost use Rattle.surf_sheets.specs.Laws.{SidesAreBorderEdges, NullWalksAreEvenOnCocycles};
ghost use Rattle.surf_sheets.specs.Laws.{OddWalksAreNoShorter, ShownWalksAreLeast};
ghost use Rattle.surf_sheets.specs.Laws.{ShownWalksAreLeastInOrder, EarlierPlacesArePast};
ghost use Rattle.surf_sheets.specs.Laws.{PlacedWalksAreShown, OddWalksComeNoSooner};
ghost use Rattle.surf_sheets.specs.Laws.{PlacedWalksHavePlacesOfBasis, LeastBasesAreShown};
ghost use Rattle.surf_sheets.specs.Laws.{ChosenBasesArePlaced};

/// A cocycle has an even number of the edges that border each face, and of the steps of each closed
/// walk that is null.
pub fn law_of_cocycles()
    ensures sides { SidesAreBorderEdges }
    ensures null { NullWalksAreEvenOnCocycles }
{}

/// Closed walks with cocycles that are paired with them, and sheets that serve, are a least basis,
/// in total and place by place: for a walk that is odd on a cocycle is no shorter than the walk
/// with its number.
pub fn law_of_sheets()
    ensures no_shorter { OddWalksAreNoShorter }
    ensures least { ShownWalksAreLeast }
    ensures in_order { ShownWalksAreLeastInOrder }
{}

/// Walks that sheets show with their bases are shown, and have the lengths and bases of the basis
/// that is chosen, one by one: for a walk that is odd on a cocycle comes no sooner than the walk
/// with its number. Of the numbers that an edge crosses the greatest is enough to look at.
pub fn law_of_sheet_places()
    ensures earlier { EarlierPlacesArePast }
    ensures shown { PlacedWalksAreShown }
    ensures no_sooner { OddWalksComeNoSooner }
    ensures places { PlacedWalksHavePlacesOfBasis }
{}

/// Each least basis is shown so, and the basis that is chosen with its bases: by the cocycles that
/// tell which of its walks take part in a closed walk, and the shortest ways from each vertex.
pub fn law_of_enough_sheets()
    ensures shown { LeastBasesAreShown }
    ensures placed { ChosenBasesArePlaced }
{}
