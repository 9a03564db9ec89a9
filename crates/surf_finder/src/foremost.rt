//! The first of the loops of edges that a search tells of.
ghost use Rattle.std.specs.Prelude.{ℕ, ◌≡◌, ◌<◌, ◌+◌, IsTrue, slice_index, All, length};
ghost use Rattle.surf_finder.specs.Found.{IsSearched, IsReachedAt, reached_at, is_between, is_earlier, first_with, IsFirstTold};
ghost use Rattle.surf_finder.specs.Rises.{IsRise};

use crate::reached::{Reached, candidate_of, class_of, is_sought, key_of, may_matter};
use crate::rises::{Rise, rise_of};
use surf_base::{EdgeId, VertexId};
use surf_choice::{Candidate, comes_before};

// Whether there is a candidate that comes before another.
fn is_earlier(first: &Option<Candidate>, candidate: &Candidate) -> bool
    ensures earlier { result ≡ is_earlier first.now candidate.now }
{
    match first {
        Some(found) => comes_before(found, candidate),
        None => false,
    }
}

// The first of a candidate and the loop of an edge whose ends were reached, if this is wanted. Its
// class isn't summed where the candidate comes first anyway.
fn first_with(
    reached: &Reached<'_, '_>,
    limit: &Option<Candidate>,
    rise: &Rise,
    first: Option<Candidate>,
) -> Option<Candidate>
    requires searched { IsSearched reached.now }
    requires rise { IsRise reached.now.surface.now.mesh.now rise.now }
    requires between { IsTrue (is_between (reached_at reached.now) rise.now.edge) }
    ensures first { result ≡ first_with (reached_at reached.now) limit.now first rise.now.edge }
{
    let candidate = candidate_of(reached, rise);
    if !is_sought(&candidate, limit) {
        return first;
    }
    if is_earlier(&first, &candidate) {
        return first;
    }
    if class_of(reached, &key_of(reached, rise)).bits().is_empty() {
        return first;
    }
    Some(candidate)
}

// The first of a candidate and the wanted loops of the edges of which a vertex that was reached is
// the lesser end.
fn first_at(
    reached: &Reached<'_, '_>,
    limit: &Option<Candidate>,
    v: VertexId,
    before: Option<Candidate>,
) -> Option<Candidate>
    requires searched { IsSearched reached.now }
    requires vertex { IsReachedAt reached.now v }
    ensures first { (count : ℕ) → v ≡ slice_index reached.now.desk.now.settled count →
        IsFirstTold (reached_at reached.now) limit.now count before →
        IsFirstTold (reached_at reached.now) limit.now (count + 1) result }
{
    let mut first = before;
    let (start, past) = reached.rises.at(v);
    for e in start..past {
        let rise = rise_of(reached.surface.mesh, EdgeId::new(e));
        if may_matter(reached, &rise) {
            first = first_with(reached, limit, &rise, first);
        }
    }
    first
}

// The first of a limit and the loops that come before it.
pub(crate) fn first_told(reached: &Reached<'_, '_>, limit: &Option<Candidate>) -> Option<Candidate>
    requires searched { IsSearched reached.now }
    requires settled { All (IsReachedAt reached.now) reached.now.desk.now.settled }
    ensures first { IsFirstTold (reached_at reached.now) limit.now
        (length reached.now.desk.now.settled) result }
{
    let mut first = *limit;
    for v in reached.desk.settled() {
        first = first_at(reached, limit, *v, first);
    }
    first
}
