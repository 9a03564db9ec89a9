//! Sheets that leave out what earlier ones serve, and searches that are such sheets.
//!
//! A sheet of `surf_sheets` shows for all closed walks over what is near a part of the surface, and
//! for some numbers, that none of them which is odd on the cocycle with the number comes sooner
//! than the walk with it. It looks at each edge. Searches that follow one another look at fewer:
//! each leaves out what those before it serve. Take a closed walk that is odd on a cocycle, and of
//! the sheets that serve a vertex of it for its number the first one. This leaves out no vertex of
//! the walk, if what it leaves out is served by earlier ones for all of its numbers. So it has
//! looked at all edges of the walk, and shows it as before.
//!
//! Rounds of such sheets show all numbers, each round those of a range, by cocycles of its own. Let
//! there be a label of two at each vertex. If the edges whose ends have different labels change
//! sides, from in the cocycle to out of it and back, then no closed walk that was even becomes odd.
//! So a round may have its cocycles where it searches.
//!
//! A search from a vertex is such a sheet. Its labels tell how often its paths cross the cocycles,
//! and the ways over the edges that are crossed are the loops that are odd on them. If a search
//! finds all loops up to some length, then it is a sheet for those numbers whose walks are shorter
//! by the way across the margin and back, where each loop that it finds is past the place of the
//! last walk on whose cocycle it is odd.
//!
//! - Sheets may leave out what earlier ones serve (`law_of_sheet_order`).
//! - Rounds with cocycles of their own show the places of the basis (`law_of_rounds`).
//! - Classes tell by linear tests what is odd on cocycles (`law_of_tests`).
//! - A search is a sheet (`law_of_search_sheets`).
//! - Of the loops that closed walks need the first are enough to know (`law_of_needs`).
//!
//! Each law is the contract of a function that does nothing.
#![tactic(auto)]

ghost use Rattle.surf_sheetorder.specs.Laws.{SheetsShowMore, OrderedSheetsShow, ServedSetsShow};
ghost use Rattle.surf_sheetorder.specs.Laws.{OrderedSheetsComeFirst, AlikeSetsAreOddAlike};
ghost use Rattle.surf_sheetorder.specs.Laws.{FirstWalksHavePlacesOfBasis, RoundsShowFirst};
ghost use Rattle.surf_sheetorder.specs.Laws.{RoundsHavePlacesOfBasis, TestsAreCocycles, TestsPairWalks};
ghost use Rattle.surf_sheetorder.specs.Laws.{BasesHaveTests, LabelledEdgesShow, SumsPassNone};
ghost use Rattle.surf_sheetorder.specs.Laws.{NonnullWalksComeNoSooner, SumsKeepTests};
ghost use Rattle.surf_sheetorder.specs.Laws.{LoopsPastLaterPlaces, SearchesAreSheets, ListedLoopsShow};
ghost use Rattle.surf_sheetorder.specs.Laws.{SearchesShowMore, SumsNeedFirst, SearchesShowNeeds};
ghost use Rattle.surf_sheetorder.specs.Laws.{LabelledEdgesShowNeeds, LoopsHavePlacesOfBasis};

/// A sheet may leave out vertices that sheets before it serve for all of its numbers. One by one
/// they show more vertices, and where an end of each edge of a cocycle is shown, no closed walk that
/// is odd on it comes sooner than the walk with its number.
pub fn law_of_sheet_order()
    ensures more { SheetsShowMore }
    ensures ordered { OrderedSheetsShow }
    ensures sets { ServedSetsShow }
    ensures first { OrderedSheetsComeFirst }
{}

/// Rounds of such sheets, each for a range of numbers and with cocycles of its own that are alike
/// to those of the walks, show that these have the places of the basis that is chosen, one by one.
pub fn law_of_rounds()
    ensures alike { AlikeSetsAreOddAlike }
    ensures places { FirstWalksHavePlacesOfBasis }
    ensures first { RoundsShowFirst }
    ensures rounds { RoundsHavePlacesOfBasis }
{}

/// A linear test of signatures is a cocycle, and tells of closed walks by their classes whether
/// they are odd on it. Tests of which each walk passes its own and no later one are paired with the
/// walks, and a basis has such tests. A class at each vertex may be added to the signatures of all
/// edges there. A closed walk that isn't null passes the test of some number of left edges. What is
/// a sum of classes that don't pass a test doesn't pass it, so a test may be made of classes up to
/// such sums.
pub fn law_of_tests()
    ensures cocycles { TestsAreCocycles }
    ensures pair { TestsPairWalks }
    ensures exist { BasesHaveTests }
    ensures labelled { LabelledEdgesShow }
    ensures nonnull { NonnullWalksComeNoSooner }
    ensures none { SumsPassNone }
    ensures sums { SumsKeepTests }
{}

/// A search that leaves out vertices is a sheet for the numbers whose places all loops at its base
/// are past that are odd on their cocycles. It is enough to look at those that it lists, and at the
/// last walk on whose cocycle each of them is odd. So it shows the vertices near its base.
pub fn law_of_search_sheets()
    ensures later { LoopsPastLaterPlaces }
    ensures searches { SearchesAreSheets }
    ensures listed { ListedLoopsShow }
    ensures more { SearchesShowMore }
{}

/// Loops are claimed to be a basis. What a closed walk needs of them tells whether it is odd on
/// their cocycles, and of how many of the first its class is a sum bounds what it needs. So
/// searches and labels show by such counts that none of them is needed by a walk that comes sooner,
/// and then they have the places of the basis that is chosen.
pub fn law_of_needs()
    ensures first { SumsNeedFirst }
    ensures searches { SearchesShowNeeds }
    ensures labelled { LabelledEdgesShowNeeds }
    ensures places { LoopsHavePlacesOfBasis }
{}
