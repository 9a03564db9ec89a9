//! What makes a certificate valid for a mesh and lengths, and what a valid one shows, as laws.
//!
//! A certificate is a record of plain lists (specs/Rows.antt). It is valid where each of its rows
//! and pairs meets a condition that is checked by itself (specs/Valid.antt, specs/Bases.antt): each
//! vertex has a neighbour as parent and is as much farther from the base as that edge is long, no
//! edge is a short cut, each face lies one edge deeper than the one across its side, each edge is
//! in just one of the two trees and the list of left edges, and no edge of the tree of faces could
//! be exchanged for a left edge with a longer loop. A certificate of a basis has a tree at each
//! vertex, and its cycles cover the loops through all of them. The words least and shortest are not
//! in these conditions.
//!
//! - The loops of a valid loop certificate are a least loop system at its base, whichever trees it
//!   has (`law_of_valid_loops`).
//! - The cycles of a valid basis certificate are a least basis (`law_of_valid_bases`).
//! - Both are so place by place, and the shortest loop or cycle of a valid certificate is a
//!   shortest of all closed walks that are not null: that of a basis is a shortest nonseparating
//!   cycle (`law_of_valid_places`, `law_of_valid_shortest`).
//! - The certificate of the trees that are chosen at a base (specs/Chosen.antt) is valid, and there
//!   is one. So is that of the basis that is chosen from the loops at all bases
//!   (`law_of_chosen_certificates`).
//!
//! Each law is the contract of a function that does nothing.
#![tactic(auto)]

ghost use Rattle.surf_validity.specs.Laws.{ValidLoopsAreLeast, ValidBasesAreLeast};
ghost use Rattle.surf_validity.specs.Laws.{ChosenLoopsAreValid, ChosenCertsAreOne};
ghost use Rattle.surf_validity.specs.Laws.{ChosenBasesAreValid, ChosenBasisCertsAreOne};
ghost use Rattle.surf_validity.specs.Laws.{ChosenLoopsTotal, ChosenBasisTotal};
ghost use Rattle.surf_validity.specs.PlaceLaws.{ValidLoopsAreLeastInOrder, ShortestOfValidLoops};
ghost use Rattle.surf_validity.specs.PlaceLaws.{ValidBasesAreLeastInOrder, ShortestOfValidBases};
ghost use Rattle.surf_validity.specs.PlaceLaws.{ValidBasesHaveShortest, ValidBasesMeasureShortest};

/// The loops of a valid loop certificate are a least loop system at its base, and its total is
/// theirs.
pub fn law_of_valid_loops()
    ensures { ValidLoopsAreLeast }
{}

/// The cycles of a valid basis certificate are a least basis.
pub fn law_of_valid_bases()
    ensures { ValidBasesAreLeast }
{}

/// The loops or the cycles of a valid certificate are least place by place, against all independent
/// closed walks.
pub fn law_of_valid_places()
    ensures loops { ValidLoopsAreLeastInOrder }
    ensures bases { ValidBasesAreLeastInOrder }
{}

/// The shortest of them is a shortest of all closed walks that are not null, and that of a basis is
/// a shortest nonseparating cycle.
pub fn law_of_valid_shortest()
    ensures loops { ShortestOfValidLoops }
    ensures bases { ShortestOfValidBases }
    ensures some { ValidBasesHaveShortest }
    ensures length { ValidBasesMeasureShortest }
{}

/// The certificate of the choice among ties is valid, and there is one: that of the loops at a
/// base, and that of the basis. Each has the total of the loops that are chosen.
pub fn law_of_chosen_certificates()
    ensures valid { ChosenLoopsAreValid }
    ensures one { ChosenCertsAreOne }
    ensures valid_basis { ChosenBasesAreValid }
    ensures one_basis { ChosenBasisCertsAreOne }
    ensures loops_total { ChosenLoopsTotal }
    ensures basis_total { ChosenBasisTotal }
{}
