//! Cocycles that are paired with the walks of a least basis: what they show, and how they are made.
//!
//! Let a least basis be given in the order of length, and with each of its walks a cocycle on which
//! it is odd, while no walk before it is. Any such cocycles do. A closed walk that is odd on one of
//! them is a sum of walks of the basis that are no longer, and of these one has no lesser number:
//! so it is no shorter than the walk with the number of the cocycle.
//!
//! So the shortest ways from a single vertex are a sheet (`surf_sheets`) for all numbers, with
//! labels that tell on which cocycles a way is odd. Way there, edge and way back make a closed walk,
//! which is odd on a cocycle where the edge is crossed. Distances need not be told farther than half
//! the greatest length. One vertex at each edge of a cocycle therefore makes enough sheets.
//!
//! Such cocycles are made by elimination. Each number of a left edge has a row, at first the set of
//! the number itself, and the image of a set is the sum of the rows of its numbers. The classes of
//! the walks are taken in turn. As they are independent, and no set but the empty one has an empty
//! image, the image of the next class has a number that isn't that of a walk before it. That number
//! gives way to the walk's own: the own number is added to each row that has it. Then what the image
//! has above its own number is added to each row that has this. No walk before it changes. An edge
//! is at last in the cocycles that the image of its signature has.
//!
//! - Odd walks are no shorter (`law_of_paired_walks`).
//! - Single vertices are sheets (`law_of_vertex_sheets`).
//! - Elimination pairs one walk after the other (`law_of_elimination`).
//!
//! Each law is the contract of a function that does nothing.
#![tactic(auto)]

ghost use Rattle.surf_paired.specs.Laws.{OddWalksAreNoShorterThanLeast, VerticesAreSheets};
ghost use Rattle.surf_paired.specs.Laws.{ImagesAdd, ImagesMove, UnitsPairNone, NextHasOwn};
ghost use Rattle.surf_paired.specs.Laws.{PairsStay, OnePairMore};

/// A closed walk that is odd on a cocycle is no shorter than the walk of the basis with its number.
pub fn law_of_paired_walks()
    ensures no_shorter { OddWalksAreNoShorterThanLeast }
{}

/// The ways from a vertex, as far as half the greatest length, are a sheet.
pub fn law_of_vertex_sheets()
    ensures sheets { VerticesAreSheets }
{}

/// Rows of independent classes are paired one after the other. At each step there is a number to
/// pair, and what was paired before stays.
pub fn law_of_elimination()
    ensures add { ImagesAdd }
    ensures moves { ImagesMove }
    ensures none { UnitsPairNone }
    ensures next { NextHasOwn }
    ensures stay { PairsStay }
    ensures more { OnePairMore }
{}
