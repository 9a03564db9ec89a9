//! Tori of squares and chains of them, as laws.
//!
//! A mesh is coherently oriented where no two faces run from one vertex to another and each run has
//! one back. Then each edge has two faces (`law_of_coherence`). The torus of a by b squares, each
//! cut into two triangles, is such a mesh from 3 rows and 3 columns on, and with that it is a
//! surface; its characteristic is 0 (`law_of_tori`).
//!
//! Two such surfaces are joined along a triangle that is left out of both: their connected sum. It
//! is a surface where the faces at each vertex stay joined without the triangle, and its
//! characteristic is 2 less than theirs together (`law_of_connected_sums`). A chain is a torus to
//! which others are joined one after the other, so it is a surface too; its characteristic is 2
//! less twice the number of tori (`law_of_chains`).
//!
//! Each law is the contract of a function that does nothing.
#![tactic(auto)]

ghost use Rattle.std.specs.Prelude.{ℕ, ◌≤◌};
ghost use Rattle.surf_tori.specs.Coherent.{CoherentEdgesHaveTwoFaces};
ghost use Rattle.surf_tori.specs.Torus.{TorusCounts, CellsAreFaces, ToriAreSurfaces};
ghost use Rattle.surf_tori.specs.Torus.{ToriHaveCharacteristicZero};
ghost use Rattle.surf_tori.specs.ConnectedSum.{ConnectedSumsAreSurfaces, ConnectedSumsLoseTwo};
ghost use Rattle.surf_tori.specs.Chain.{ChainsAreSurfaces, ChainsHaveCharacteristic, ChainCounts};

/// Coherently oriented meshes.
pub fn law_of_coherence()
    ensures two_faces { CoherentEdgesHaveTwoFaces }
{}

/// Tori of squares.
pub fn law_of_tori()
    ensures surfaces { ToriAreSurfaces }
    ensures characteristic { ToriHaveCharacteristicZero }
    ensures counts { (a b : ℕ) → 3 ≤ a → 3 ≤ b → TorusCounts a b }
    ensures faces { (a b : ℕ) → 3 ≤ a → 3 ≤ b → CellsAreFaces a b }
{}

/// Two surfaces, joined along a triangle that is left out of both.
pub fn law_of_connected_sums()
    ensures surfaces { ConnectedSumsAreSurfaces }
    ensures characteristic { ConnectedSumsLoseTwo }
{}

/// Chains of tori.
pub fn law_of_chains()
    ensures surfaces { ChainsAreSurfaces }
    ensures characteristic { ChainsHaveCharacteristic }
    ensures counts { (g a b : ℕ) → 1 ≤ g → 4 ≤ a → 4 ≤ b → ChainCounts g a b }
{}
