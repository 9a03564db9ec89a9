//! Searches that reach no farther than they have to.
//!
//! Let there be some closed walks, in order of length. For each edge, count how many of them its
//! signature needs: its height. A closed walk that is no sum of shorter ones, and longer than the
//! first i of them, has an edge whose height is above i (`law_of_heights`). So it is enough to
//! search at an end of each edge, and no farther than for loops as long as the last walk that its
//! height counts (`law_of_caps`): in what is found, those that depend on no earlier ones have the
//! places of the basis.
//!
//! What is found up to some length is final where nothing longer is sought (`law_of_stages`), and
//! from then on signatures may be taken up to sums of what is final (`law_of_quotients`). A search
//! may leave out vertices that were searched as far before (`law_of_barred_searches`). The last row
//! of a sieve that takes part in reducing a signature is its height (`law_of_used_rows`).
//!
//! Each law is the contract of a function that does nothing.
#![tactic(auto)]

ghost use Rattle.std.specs.Prelude.{ℕ};
ghost use Rattle.surf_z2.specs.Space.{Weighed, numbers, is_nothing};
ghost use Rattle.surf_z2.specs.Sieve.{Row, has};
ghost use Rattle.surf_caps.specs.Heights.{HighEdgesExist};
ghost use Rattle.surf_caps.specs.Caps.{StartLaw, MeetsFewer, AskedEndsMeet, SetsMeet, FoundAreWalks};
ghost use Rattle.surf_caps.specs.Caps.{WalksDependOnEnough, LoopsDependOnEnough, EnoughEverywhere};
ghost use Rattle.surf_caps.specs.Caps.{EverywhereMeets, ChosenLoopsAreMet};
ghost use Rattle.surf_caps.specs.Caps.{EnoughHavePlaces, FullCountHasPlaces, CapsGrowEnough};
ghost use Rattle.surf_caps.specs.Stages.{StagesHavePlaces, StagesMeet};
ghost use Rattle.surf_caps.specs.Stages.{ImagesMeet, ImageHeightsAreHeights, ImageEndsMeet};
ghost use Rattle.surf_caps.specs.Stages.{FoundByImageDepend, ImagesChoose, ImagesChooseNext};
ghost use Rattle.surf_caps.specs.Quotients.{QuotientLaw, QuotientChoice, SievesAreQuotients};
ghost use Rattle.surf_caps.specs.Barred.{BarredSearchesSuffice, BarredLoopsComeNoSooner};
ghost use Rattle.surf_caps.specs.Barred.{NearPlacesNeedNoMore, StageSearchesKeep};
ghost use Rattle.surf_caps.specs.Used.{UsedLaw};

/// A closed walk that is no sum of shorter ones has an edge whose height is above the count of the
/// walks that are shorter than it.
pub fn law_of_heights()
    ensures high { HighEdgesExist }
{}

/// Such a walk goes over an end that is searched as far. Loops on which all loops depend that are
/// sought have the places of the basis; how they are found.
pub fn law_of_caps()
    ensures from_start { StartLaw }
    ensures meet { AskedEndsMeet }
    ensures sets { SetsMeet }
    ensures all { EverywhereMeets }
    ensures found { FoundAreWalks }
    ensures fewer { MeetsFewer }
    ensures walks { WalksDependOnEnough }
    ensures loops { LoopsDependOnEnough }
    ensures everywhere { EnoughEverywhere }
    ensures met { ChosenLoopsAreMet }
    ensures places { EnoughHavePlaces }
    ensures full { FullCountHasPlaces }
    ensures grow { CapsGrowEnough }
{}

/// What is found up to a length is the part of the basis that is no longer.
pub fn law_of_stages()
    ensures places { StagesHavePlaces }
    ensures meet { StagesMeet }
{}

/// Behind what is final, all is told by images under a map that takes just the sums of that to
/// zero.
pub fn law_of_quotients()
    ensures images { ImagesMeet }
    ensures heights { ImageHeightsAreHeights }
    ensures meet { ImageEndsMeet }
    ensures depend { FoundByImageDepend }
    ensures choose { ImagesChoose }
    ensures next { ImagesChooseNext }
    ensures numbers { (image : ℕ → ℕ) → QuotientLaw numbers numbers image }
    ensures choice { (image : ℕ → ℕ) → QuotientChoice numbers numbers image is_nothing is_nothing
        (λ (c : Weighed ℕ). c.vector) }
    ensures sieves { SievesAreQuotients numbers has (λ (r : Row ℕ). r.pivot)
        (λ (r : Row ℕ). r.reduced) (λ (r : Row ℕ). r.original) }
{}

/// A search may bar the vertices that were searched as far. Its loops come no sooner than those of
/// one that bars none.
pub fn law_of_barred_searches()
    ensures barred { BarredSearchesSuffice }
    ensures no_sooner { BarredLoopsComeNoSooner }
    ensures near { NearPlacesNeedNoMore }
    ensures keep { StageSearchesKeep }
{}

/// The last row of a sieve that takes part tells how many of the sets that the rows came from a set
/// needs.
pub fn law_of_used_rows()
    ensures used { UsedLaw numbers has (λ (r : Row ℕ). r.pivot) (λ (r : Row ℕ). r.reduced)
        (λ (r : Row ℕ). r.original) }
{}
