//! The class of a closed walk: evidence of it, and the shortest walks in it, as laws.
//!
//! Closed walks are in one class where the edges that exactly one of them runs an odd number of
//! times are the boundary of a set of faces.
//!
//! - The class of a walk, or how those of two walks differ, is shown by a set of faces whose
//!   boundary is the chain of the walks, or by a set of edges that has an even number of each
//!   face's sides and an odd number of the chain's members (specs/Evidence.antt). Each chain of
//!   closed walks has evidence of one kind, and never of both (`law_of_evidence`,
//!   `law_of_odd_choice`), and of this kind one is chosen (`law_of_choice`). What is wrong with
//!   evidence is its first fault (specs/Faults.antt, `law_of_faults`).
//! - Of the shortest walks in a class one is chosen, in words that speak of no tree and no
//!   signature (specs/Shortest.antt), and there is one (`law_of_chosen_walks`). It is read back
//!   from the least lengths of walks with a signature (specs/Cover.antt, `law_of_read_back`), and a
//!   table is seen to have these by its neighbours alone (`law_of_tables`). Walks with signatures
//!   are the walks of one graph (specs/CoverGraph.antt), which a program can search
//!   (`law_of_cover`).
//!
//! Each law is the contract of a function that does nothing.
#![tactic(auto)]

ghost use Rattle.std.specs.Prelude.{[], ◌∷◌};
ghost use Rattle.surf_surfaces.specs.Pillow.{pillow};
ghost use Rattle.surf_surfaces.specs.SmallMeshes.{three_torus};
ghost use Rattle.surf_surfaces.specs.Walk.{parity};
ghost use Rattle.surf_classes.specs.Evidence.{IsOddEvidence, IsChosenNull};
ghost use Rattle.surf_classes.specs.EvidenceLaws.{EvidenceIsOfOneKind, BoundariesHaveEvidence};
ghost use Rattle.surf_classes.specs.EvidenceLaws.{NullChoiceIsOne, NullChoiceIsFiltered, NullEvidenceGrows};
ghost use Rattle.surf_classes.specs.EvidenceLaws.{OddChoiceIsRight, OddChoiceIsOne, OddChoiceIsFiltered};
ghost use Rattle.surf_classes.specs.EvidenceLaws.{OddChoiceIsThatOfAllTrees, ClassesAreDecided};
ghost use Rattle.surf_classes.specs.EvidenceLaws.{JointSignaturesAdd, OddSumsAreSumsOverEdges};
ghost use Rattle.surf_classes.specs.EvidenceLaws.{FaultsAreTold};
ghost use Rattle.surf_classes.specs.EvidenceLaws.{ChosenEvidenceIsRight, ChosenEvidenceIsOne};
ghost use Rattle.surf_classes.specs.EvidenceLaws.{ClassEvidenceIsRight, ClassEvidenceIsOne};
ghost use Rattle.surf_classes.specs.ShortestLaws.{HomologousBySignature, ChosenWalkIsOne};
ghost use Rattle.surf_classes.specs.ShortestLaws.{NullChoiceIsVertex, ReadBackIsChosen, CertifiedTablesChoose};
ghost use Rattle.surf_classes.specs.ShortestLaws.{TablesAreReadBack, TablesReadOn, CertifiedTablesAreDistances};
ghost use Rattle.surf_classes.specs.ShortestLaws.{SignedDistancesExist};
ghost use Rattle.surf_classes.specs.CoverGraph.{CoversAreGraphs, SearchesCertify};
ghost use Rattle.surf_classes.specs.SmallCases.{torus_pairs};

/// No chain has evidence of both kinds. Boundaries have null evidence, and one that is chosen,
/// which grows along any tree of the faces.
pub fn law_of_evidence()
    ensures one_kind { EvidenceIsOfOneKind }
    ensures boundaries { BoundariesHaveEvidence }
    ensures null_choice { NullChoiceIsOne }
    ensures filtered { NullChoiceIsFiltered }
    ensures grows { NullEvidenceGrows }
{}

/// The chains of closed walks that are no boundaries have odd evidence, and one that is chosen.
pub fn law_of_odd_choice()
    ensures right { OddChoiceIsRight }
    ensures one { OddChoiceIsOne }
    ensures filtered { OddChoiceIsFiltered }
    ensures all_trees { OddChoiceIsThatOfAllTrees }
    ensures decided { ClassesAreDecided }
    ensures signatures { JointSignaturesAdd }
    ensures sums { OddSumsAreSumsOverEdges }
{}

/// Evidence is right exactly where it has no fault, and it has one first fault.
pub fn law_of_faults()
    ensures { FaultsAreTold }
{}

/// Of the evidence of closed walks, of whichever kind there is, one is chosen, and it is right.
pub fn law_of_choice()
    ensures right { ChosenEvidenceIsRight }
    ensures one { ChosenEvidenceIsOne }
    ensures class_right { ClassEvidenceIsRight }
    ensures class_one { ClassEvidenceIsOne }
{}

/// There is one chosen walk in each class.
pub fn law_of_chosen_walks()
    ensures homologous { HomologousBySignature }
    ensures one { ChosenWalkIsOne }
    ensures null { NullChoiceIsVertex }
{}

/// The walk that is read back off the distances by signatures is the chosen one.
pub fn law_of_read_back()
    ensures chosen { ReadBackIsChosen }
    ensures certified { CertifiedTablesChoose }
    ensures exists { TablesAreReadBack }
    ensures reads_on { TablesReadOn }
{}

/// A certified table has the distances by signatures, and they exist.
pub fn law_of_tables()
    ensures distances { CertifiedTablesAreDistances }
    ensures exist { SignedDistancesExist }
{}

/// The cover is a connected graph, and a search over it makes a certified table.
pub fn law_of_cover()
    ensures graphs { CoversAreGraphs }
    ensures searches { SearchesCertify }
{}

/// Evidence on the torus of 3 by 3 squares and on two triangles with the same corners.
pub fn small_cases()
    ensures torus_odd { IsOddEvidence three_torus (parity three_torus (0 ∷ 1 ∷ 2 ∷ 0 ∷ []))
        torus_pairs }
    ensures torus_null { IsChosenNull three_torus (parity three_torus (3 ∷ 6 ∷ 7 ∷ 3 ∷ []))
        (6 ∷ []) }
    ensures pillow_null { IsChosenNull pillow (parity pillow (0 ∷ 1 ∷ 2 ∷ 0 ∷ [])) (1 ∷ []) }
    ensures pillow_empty { IsChosenNull pillow (parity pillow (0 ∷ 1 ∷ 0 ∷ [])) [] }
{}
