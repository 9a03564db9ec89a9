//! Whether searches that were kept show that loops are a shortest basis.
//!
//! Whoever looks for a basis searches from few vertices, not far, and leaves out what was searched
//! before. That the loops it ends with have the lengths and bases of the chosen basis can be seen
//! from the searches alone, whatever led to them. Each search is kept: from where it went, before
//! which place it lists each loop that isn't null, which vertices it serves, and the loops
//! ([`SearchRecord`]). That much has to be true of a search. Where it was made, how far it went, what
//! it left out and how wide its margin is may be chosen in any way. Wrong choices are refused, and
//! never make a wrong basis.
//!
//! The loops that are claimed stand in the order of length and base, and have numbers. A class is a
//! sum of the first so many of them, and needs none of the others: how many, their ranks tell
//! ([`ranks_of`]). A search shows a number where
//! each of its loops that may need the claimed loop with it is longer than that one, by more than
//! the way across the margin and back, or comes no sooner if there is no margin. Then no closed walk
//! over a vertex within the margin that needs this loop comes sooner. The search may leave out
//! vertices for which that was shown before. So it is enough to keep for each vertex up to which
//! number that was shown, and to take the searches in their order (`serving.rt`).
//!
//! In the end each edge is asked for how many of the first loops its class is a sum, and whether an
//! end of it is served for all of these (`labels.rt`). A class at each vertex may be added to the
//! signatures of the edges there, since a closed walk meets it twice: it moves the edges that need
//! loops to where searches were. Any labels are right. A search that has shown the first numbers
//! goes on with the others in another [`Round`], with labels of its own.
#![tactic(auto)]

mod judging;
mod labels;
mod past;
mod ranks;
mod record;
mod serving;

pub use judging::are_shown;
pub use ranks::ranks_of;
pub use record::{Claim, Labels, Round, SearchRecord};
