//! Cuts through given vertices, the points, as laws.
//!
//! Of the full cut, which has all edges but those of the tree of faces, the cut through the points
//! is the largest set of edges in which no vertex but a point has exactly one
//! (`IsCutThrough`, specs/Through.antt). Through no vertex it is the trimmed cut, where χ is below 2.
//!
//! - There is just one, and it is what is left when edges are taken back one by one, each the only
//!   one at a vertex that is no point, in any order (`law_of_cuts_through`).
//! - Where it has two edges or more, the surface that is opened along it is a disc with every face
//!   once, and there is one such opening with its copies in order (`law_of_openings_through`).
//! - Where χ is below 2 it has two edges or more. Where χ is 2, it has them through three points, and
//!   through two that no edge of the full cut joins, and not through fewer. It is in one piece, and
//!   has an edge at each point where it has an edge at all, so that each point has a copy on the
//!   border. Where χ is 2 it is the union of the ways in the tree between the points
//!   (`law_of_points`).
//!
//! Each law is the contract of a function that does nothing.
#![tactic(auto)]

ghost use Rattle.surf_seams.specs.Laws.{CutsThroughExist, CutsThroughAreOne, TakenBackAreThrough};
ghost use Rattle.surf_seams.specs.Laws.{TakingBackKeeps, TakingBackEnds, EndlessAreThroughNone};
ghost use Rattle.surf_seams.specs.Laws.{CutsThroughGrow, TakenBackAreTrimmed};
ghost use Rattle.surf_seams.specs.Laws.{TakingBackGoesOn, FullCutsStart, OpeningsThroughAtAreOne};
ghost use Rattle.surf_seams.specs.Laws.{OpenedThroughAreOpenings, OpeningsThroughAreOpenings};
ghost use Rattle.surf_seams.specs.Laws.{OpeningsThroughExist, OpeningsThroughAreOne};
ghost use Rattle.surf_seams.specs.Laws.{OpenedAreThrough, CutsThroughAreLong};
ghost use Rattle.surf_seams.specs.Laws.{CutsThroughAreConnected, PointsAreOnCut, PointsAreOnBorder};
ghost use Rattle.surf_seams.specs.Laws.{CutsThroughAreWays, TwoPointsAreCut};
ghost use Rattle.surf_seams.specs.Laws.{PointsApartAreLong, ThreePointsAreLong};
ghost use Rattle.surf_seams.specs.Laws.{OnePointIsNotCut, JoinedPointsAreShort};

/// The cut through some vertices, of any set of edges: it exists, is one, and is reached by taking
/// edges back in any order.
pub fn law_of_cuts_through()
    ensures exist { CutsThroughExist }
    ensures one { CutsThroughAreOne }
    ensures reached { TakenBackAreThrough }
    ensures keeps { TakingBackKeeps }
    ensures ends { TakingBackEnds }
    ensures goes_on { TakingBackGoesOn }
    ensures none { EndlessAreThroughNone }
    ensures grow { CutsThroughGrow }
{}

/// The surface opened along it, where it has two edges or more.
pub fn law_of_openings_through()
    ensures start { FullCutsStart }
    ensures trimmed { TakenBackAreTrimmed }
    ensures discs { OpenedThroughAreOpenings }
    ensures openings { OpeningsThroughAreOpenings }
    ensures exist { OpeningsThroughExist }
    ensures one { OpeningsThroughAreOne }
    ensures opened { OpenedAreThrough }
    ensures at_base { OpeningsThroughAtAreOne }
{}

/// How much is cut, and where the points lie.
pub fn law_of_points()
    ensures long { CutsThroughAreLong }
    ensures two { TwoPointsAreCut }
    ensures apart { PointsApartAreLong }
    ensures three { ThreePointsAreLong }
    ensures alone { OnePointIsNotCut }
    ensures joined { JoinedPointsAreShort }
    ensures connected { CutsThroughAreConnected }
    ensures on_cut { PointsAreOnCut }
    ensures on_border { PointsAreOnBorder }
    ensures ways { CutsThroughAreWays }
{}
