//! What the searches of a round cost: those from the vertices of a cut, or those by caps.
ghost use Rattle.std.specs.Prelude.{◌≡◌, ◌<◌, ◌≤◌, ℕ, length, slice_index};

use surf_choice::Candidate;

/// The distances of all vertices from one of them, in order, and whether all edges are as long.
#[derive(Clone, Copy)]
pub(crate) struct Costs<'c> {
    pub distances: &'c [u64],
    pub even: bool,
}

// How many distances, of some in order, are some half of a length at most: a place where that half
// stands or would stand.
fn count_near(distances: &[u64], size: u64) -> u64
    ensures few { result ≤ length distances.now }
{
    match distances.binary_search(&(size / 2)) {
        Ok(place) => place as u64,
        Err(place) => place as u64,
    }
}

// How many vertices searches come to, by the distances from one vertex, from those whose caps are
// greater than how far they were searched.
fn cost_of_round(distances: &[u64], reached: &[u64], caps: &[u64], most: u64) -> u64
    requires count { length caps.now ≡ length reached.now }
    ensures none { ((v : ℕ) → v < length caps.now → slice_index caps.now v ≤ slice_index reached.now v) →
        result ≡ 0 }
{
    let mut cost = 0u64;
    for v in 0..caps.len() {
        if reached[v] < caps[v] {
            cost = cost.saturating_add(count_near(distances, caps[v].min(most)));
        }
    }
    cost
}

/// Whether searches from the vertices of a cut cost less than those by caps. More of them are
/// spared by what was searched before, so that they may come to four times as many vertices, or to
/// half as many again where all edges are as long. This was measured on meshes with many handles.
/// Either answer is right: only the time that it takes depends on it.
pub(crate) fn is_cut_cheaper(
    costs: &Costs<'_>,
    limit: &Option<Candidate>,
    reached: &[u64],
    cut: &[u64],
    caps: &[u64],
) -> bool
    requires cut { length cut.now ≡ length reached.now }
    requires caps { length caps.now ≡ length reached.now }
{
    let most = match limit {
        Some(last) => last.length,
        None => u64::MAX,
    };
    let by_cut = cost_of_round(costs.distances, reached, cut, most);
    let by_caps = cost_of_round(costs.distances, reached, caps, most);
    let halves = if costs.even { 3 } else { 8 };
    by_cut.saturating_mul(2) <= by_caps.saturating_mul(halves)
}
