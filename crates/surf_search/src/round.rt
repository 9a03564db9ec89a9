//! A round of searches: each goes no farther than a cap, and past no vertex that is done with.
ghost use Rattle.std.specs.Prelude.{◌≡◌, ◌≢◌, ◌<◌, ◌≤◌, ◌-◌, ◌^◌, ◌⊎◌, ℕ, true, false, IsTrue, All, IfOk, OnOk, IsPermutation, length, slice_index_or, slice_set};
ghost use Rattle.surf_surfaces.specs.Surface.{edge_count};
ghost use Rattle.surf_choice.specs.Places.{place_of, is_sought};
ghost use Rattle.surf_finder.specs.Found.{surface_of, AreFirstFound};
ghost use Rattle.surf_finder.specs.declared.told_loops.Ties.TheVariants.{LesserBase};
ghost use Rattle.surf_finder.specs.Passing.{is_marked};
ghost use Rattle.surf_search.specs.Rounds.{AreDone, AreFalling, AreKeptUpTo, AreLongerOr, AreNoLess, AreRising, IsBarring, IsCapped, IsKeptAt, KeepsInRound, cap_at, fall_order, in_caps, in_round, IsWider};
ghost use Rattle.surf_finder.specs.Signing.{AreSigned};

use crate::kept_loops::sort_loops;
use crate::pace::{Pace, spare};
use std::alloc::Global;
use surf_base::{EdgeId, NoMemory, VertexId};
use surf_choice::{Candidate, Choice, Signed};
use surf_finder::{Finder, SignedSurface, Ties, is_sought};
use surf_mesh::HalfMesh;

// A vertex with more edges than this has many.
const MANY_EDGES: usize = 16;

/// A round on a surface: when its searches go beyond what they must, the vertices that are marked,
/// where the loops of the round are no longer sought, what the last search found, and a length up
/// to which nothing is left to find.
#[derive(Drop)]
pub(crate) struct Round<'s, 'a> {
    surface: &'s SignedSurface<'a>,
    pace: Pace,
    marks: Vec<bool>,
    found: Vec<Signed>,
    least: u64,
}

// The earlier of a limit and a cap on lengths. The greatest number caps nothing.
pub(crate) fn capped(limit: &Option<Candidate>, cap: u64) -> Option<Candidate>
    ensures capped { IsCapped limit.now cap result }
{
    if cap == u64::MAX {
        return *limit;
    }
    match limit {
        Some(last) if last.length <= cap => *limit,
        _ => Some(Candidate {
            length: cap + 1,
            base: VertexId::new(0),
            edge: EdgeId::new(0),
        }),
    }
}

// How many of some loops there are up to the last that comes before a limit.
fn count_sooner(found: &[Signed], limit: &Option<Candidate>) -> usize
    ensures count { result ≤ length found.now }
    ensures last { (s : Signed) → 0 < result →
        IsTrue (is_sought limit.now
        (place_of (slice_index_or found.now (result - 1) s).candidate)) }
    ensures late { (k : ℕ) (s : Signed) → result ≤ k → k < length found.now →
        is_sought limit.now (place_of (slice_index_or found.now k s).candidate) ≡ false }
{
    let mut count = found.len();
    for k in 0..found.len() {
        count = found.len() - k;
        if is_sought(&found[count - 1].candidate, limit) {
            return count;
        }
    }
    0
}

// Finds the loops at a vertex up to a limit, of each class the first. Of those up to an earlier one
// it keeps what is independent of the loops kept before.
pub(crate) fn keep_at(
    finder: &mut Finder<'_>,
    base: VertexId,
    limit: &Option<Candidate>,
    wide: &Option<Candidate>,
    choice: &mut Choice,
    found: &mut Vec<Signed>,
) -> Result<(), NoMemory>
    requires base { base < finder.old.mesh.vertices }
    requires signed { AreSigned finder.old.mesh finder.old.signs choice.old.width }
    requires few { (finder.old.mesh.vertices ≤ 2 ^ 32) × (edge_count finder.old.mesh ≤ 2 ^ 32) }
    requires wide { IsWider limit.now wide.now }
    ensures found { OnOk result (AreFirstFound LesserBase finder.old.mesh finder.old.lengths
        finder.old.signs wide.now base found.new.items) }
    ensures kept { OnOk result (IsKeptAt finder.old base limit.now choice.old choice.new) }
    ensures width { choice.new.width ≡ choice.old.width }
    ensures same { finder.new ≡ finder.old }
{
    finder.law_of_finder();
    finder.find(base, wide, Ties::LesserBase, found)?;
    sort_loops(found);
    let count = count_sooner(found, limit);
    choice.keep(&found[..count])
}

// By how much loops are longer than those kept of which they are sums, and no more than a bound.
// Those that are sums of kept ones up to a length are no matter.
fn margin_above(choice: &Choice, found: &[Signed], least: u64, most: u64) -> u64
    requires small { All (λ s. s.signature < 2 ^ choice.now.width) found.now }
    ensures most { result ≤ most }
    ensures longer { result ≢ 0 → AreLongerOr choice.now.kept least result found.now }
{
    let mut margin = most;
    for signed in found {
        if margin == 0 {
            return 0;
        }
        let sum = choice.sum_length(&signed.signature.bits());
        if sum == u64::MAX {
            return 0;
        }
        if sum > least {
            margin = margin.min(signed.candidate.length.saturating_sub(sum));
        }
    }
    margin
}

// Marks a vertex, and bars the ways through it.
fn bar(round: &mut Round<'_, '_>, finder: &mut Finder<'_>, base: VertexId)
    requires base { base < round.old.surface.now.mesh.now.vertices }
    requires barring { IsBarring (surface_of round.old.surface.now) finder.old
        round.old.marks.items }
    ensures marks { round.new.marks.items ≡ slice_set round.old.marks.items base true }
    ensures barring { IsBarring (surface_of round.old.surface.now) finder.new
        round.new.marks.items }
    ensures surface { round.new.surface ≡ round.old.surface }
    ensures least { round.new.least ≡ round.old.least }
{
    finder.mark(base, &mut round.marks);
}

// Searches from a vertex, and keeps what is new there up to a cap. Then the vertex is marked, and
// with it those so near that loops there are longer than kept ones of which they are sums.
fn search(
    round: &mut Round<'_, '_>,
    finder: &mut Finder<'_>,
    base: VertexId,
    cap: u64,
    choice: &mut Choice,
) -> Result<(), NoMemory>
    requires base { base < round.old.surface.now.mesh.now.vertices }
    requires signed { AreSigned round.old.surface.now.mesh.now round.old.surface.now.signatures.now
        choice.old.width }
    requires barring { IsBarring (surface_of round.old.surface.now) finder.old
        round.old.marks.items }
    ensures kept { OnOk result (KeepsInRound (surface_of round.old.surface.now) round.old.least cap
        round.old.marks.items round.new.marks.items choice.old choice.new) }
    ensures barring { IsBarring (surface_of round.old.surface.now) finder.new
        round.new.marks.items }
    ensures marked { OnOk result (IsTrue (is_marked round.new.marks.items base)) }
    ensures width { choice.new.width ≡ choice.old.width }
    ensures surface { round.new.surface ≡ round.old.surface }
    ensures least { round.new.least ≡ round.old.least }
{
    round.surface.mesh.law_of_surface();
    finder.law_of_finder();
    let limit = capped(&choice.limit(), cap);
    let wide = round.pace.limit(&limit);
    keep_at(finder, base, &limit, &wide, choice, &mut round.found)?;
    let spare = spare(&capped(&choice.limit(), cap), &wide);
    let margin = margin_above(choice, &round.found, round.least, spare);
    let far = margin.saturating_sub(1) / 2;
    round.pace.step(far > 0);
    if far == 0 {
        bar(round, finder, base);
    } else {
        finder.mark_near(base, far, &mut round.marks);
    }
    Ok(())
}

// Searches from a vertex up to its cap, unless it is marked.
fn visit(
    round: &mut Round<'_, '_>,
    finder: &mut Finder<'_>,
    base: VertexId,
    cap: u64,
    choice: &mut Choice,
) -> Result<(), NoMemory>
    requires base { base < round.old.surface.now.mesh.now.vertices }
    requires signed { AreSigned round.old.surface.now.mesh.now round.old.surface.now.signatures.now
        choice.old.width }
    requires barring { IsBarring (surface_of round.old.surface.now) finder.old
        round.old.marks.items }
    ensures kept { OnOk result (KeepsInRound (surface_of round.old.surface.now) round.old.least cap
        round.old.marks.items round.new.marks.items choice.old choice.new) }
    ensures barring { IsBarring (surface_of round.old.surface.now) finder.new
        round.new.marks.items }
    ensures marked { OnOk result (IsTrue (is_marked round.new.marks.items base)) }
    ensures width { choice.new.width ≡ choice.old.width }
    ensures surface { round.new.surface ≡ round.old.surface }
    ensures least { round.new.least ≡ round.old.least }
{
    if round.marks[base.index()] {
        return Ok(());
    }
    search(round, finder, base, cap, choice)
}

// What vertices are put into order by: the greatest caps first, those of one cap by their ranks.
fn fall_order(caps: &[u64], ranks: &[u32], v: VertexId) -> u128
    ensures order { result ≡ fall_order caps.now ranks.now v }
{
    let cap = match caps.get(v.index()) {
        Some(cap) => *cap,
        None => 0,
    };
    let rank = match ranks.get(v.index()) {
        Some(rank) => *rank,
        None => 0,
    };
    (u128::from(u64::MAX - cap) << 32) + u128::from(rank)
}

// Puts vertices into the order of falling caps, those of one cap into that of their ranks.
fn sort_falling(caps: &[u64], ranks: &[u32], vertices: &mut [VertexId])
    ensures same { IsPermutation vertices.old vertices.new }
    ensures falling { AreFalling caps.now vertices.new }
{
    vertices.sort_unstable_by_key(|v| fall_order(caps, ranks, *v));
}

/// Whether there are many edges at a vertex.
pub(crate) fn has_many_edges(mesh: &HalfMesh, v: VertexId) -> bool
    requires vertex { v < mesh.now.vertices }
{
    mesh.ring_edges(v).len() > MANY_EDGES
}

// The rank of a vertex among those of one cap. Multiples of 16 are first, in the order of their bits
// read backwards, which scatters them over the whole surface. The others follow in blocks of 1,024
// numbers, scattered within each: what one search has read is still near at hand for the next.
fn rank_of(v: VertexId) -> u32 {
    let number = v.number();
    if number & 15 == 0 {
        return number.reverse_bits();
    }
    1 << 29 | number & !1023 | (number & 1023).reverse_bits() >> 22
}

// Lists the ranks of the vertices of a list. Those with many edges are first, since whoever comes
// to such a vertex comes to all around it: it pays most to bar them early.
fn ranks_of(alloc: Global, mesh: &HalfMesh, list: &[VertexId]) -> Result<Vec<u32>, NoMemory>
    requires inside { All (λ v. v < mesh.now.vertices) list.now }
{
    let mut ranks = vec![in alloc; 0u32; mesh.vertices() as usize]?;
    for k in 0..list.len() {
        let v = list[k];
        if !has_many_edges(mesh, v) {
            ranks[v.index()] = rank_of(v);
        }
    }
    Ok(ranks)
}

// Lists the vertices whose caps are greater than how far they were searched, in the order of
// falling caps.
fn list_rising(
    alloc: Global,
    mesh: &HalfMesh,
    caps: &[u64],
    reached: &[u64],
) -> Result<Vec<VertexId>, NoMemory>
    requires vertices { length caps.now ≡ mesh.now.vertices }
    requires count { length reached.now ≡ length caps.now }
    requires few { length caps.now < 2 ^ 32 }
    ensures inside { IfOk result (λ list. All (λ v. v < length caps.now) list.items) }
    ensures rising { IfOk result (λ list. AreRising caps.now reached.now (length caps.now)
        list.items) }
    ensures falling { IfOk result (λ list. AreFalling caps.now list.items) }
{
    let mut list = Vec::new(alloc);
    for v in 0..caps.len() {
        let cap = caps[v];
        let far = reached[v];
        if far < cap {
            list.push(VertexId::new(v as u32))?;
        }
    }
    let ranks = ranks_of(alloc, mesh, &list)?;
    sort_falling(caps, &ranks, &mut list);
    Ok(list)
}

// Bars vertex 0 if it was searched without a cap, as it is before all rounds: what is found there
// is kept already, and no round lists it.
fn bar_first(round: &mut Round<'_, '_>, finder: &mut Finder<'_>, reached: &[u64])
    requires reached { length reached.now ≡ round.old.surface.now.mesh.now.vertices }
    requires barring { IsBarring (surface_of round.old.surface.now) finder.old
        round.old.marks.items }
    requires done { AreDone reached.now round.old.marks.items }
    ensures barring { IsBarring (surface_of round.old.surface.now) finder.new
        round.new.marks.items }
    ensures done { AreDone reached.now round.new.marks.items }
    ensures surface { round.new.surface ≡ round.old.surface }
    ensures least { round.new.least ≡ round.old.least }
{
    round.surface.mesh.law_of_surface();
    if reached[0] == u64::MAX {
        bar(round, finder, VertexId::new(0));
    }
}

// Searches from the vertices of a list, whose caps fall, each as far as its cap.
fn search_each(
    round: &mut Round<'_, '_>,
    finder: &mut Finder<'_>,
    vertices: &[VertexId],
    caps: &[u64],
    reached: &mut [u64],
    choice: &mut Choice,
) -> Result<(), NoMemory>
    requires vertices { All (λ v. v < round.old.surface.now.mesh.now.vertices) vertices.now }
    requires falling { AreFalling caps.now vertices.now }
    requires caps { length caps.now ≡ round.old.surface.now.mesh.now.vertices }
    requires reached { length reached.old ≡ round.old.surface.now.mesh.now.vertices }
    requires least { (v : ℕ) → v < length reached.old → round.old.least ≤ cap_at reached.old v }
    requires signed { AreSigned round.old.surface.now.mesh.now round.old.surface.now.signatures.now
        choice.old.width }
    requires barring { IsBarring (surface_of round.old.surface.now) finder.old
        round.old.marks.items }
    requires kept { (bound : ℕ) → AreKeptUpTo (surface_of round.old.surface.now)
        (in_round reached.old round.old.marks.items bound) choice.old }
    ensures barring { IsBarring (surface_of round.old.surface.now) finder.new
        round.new.marks.items }
    ensures kept { OnOk result (AreKeptUpTo (surface_of round.old.surface.now)
        (in_caps reached.new) choice.new) }
    ensures each { OnOk result (All (λ v. cap_at caps.now v ≤ cap_at reached.new v) vertices.now) }
    ensures more { AreNoLess reached.old reached.new }
    ensures count { length reached.new ≡ length reached.old }
    ensures width { choice.new.width ≡ choice.old.width }
{
    round.surface.mesh.law_of_surface();
    for v in vertices {
        let cap = caps[v.index()];
        visit(round, finder, *v, cap, choice)?;
        reached[v.index()] = reached[v.index()].max(cap);
    }
    Ok(())
}

// A length up to which all vertices were searched: nothing is left to find there.
fn least_cap(reached: &[u64]) -> u64
    ensures least { (v : ℕ) → v < length reached.now → result ≤ cap_at reached.now v }
{
    let mut least = u64::MAX;
    for cap in reached {
        least = least.min(*cap);
    }
    least
}

/// Searches from all vertices whose caps are greater than how far they were searched, each as far
/// as its cap. Those with the greatest caps are first, so that each search may bar the vertices of
/// those before it. In the end no vertex is barred, as before.
pub(crate) fn search_rising(
    alloc: Global,
    surface: &SignedSurface<'_>,
    finder: &mut Finder<'_>,
    caps: &[u64],
    reached: &mut [u64],
    choice: &mut Choice,
) -> Result<(), NoMemory>
    requires finder { finder.old ≡ surface_of surface.now }
    requires lengths { length surface.now.lengths.now ≡ edge_count surface.now.mesh.now }
    requires caps { length caps.now ≡ surface.now.mesh.now.vertices }
    requires reached { length reached.old ≡ surface.now.mesh.now.vertices }
    requires signed { AreSigned surface.now.mesh.now surface.now.signatures.now choice.old.width }
    requires kept { AreKeptUpTo (surface_of surface.now) (in_caps reached.old) choice.old }
    ensures kept { OnOk result (AreKeptUpTo (surface_of surface.now) (in_caps reached.new)
        choice.new) }
    ensures each { OnOk result ((v : ℕ) → v < length caps.now →
        cap_at caps.now v ≤ cap_at reached.new v) }
    ensures count { length reached.new ≡ length reached.old }
    ensures width { choice.new.width ≡ choice.old.width }
    ensures same { finder.new ≡ finder.old }
{
    surface.mesh.law_of_surface();
    surface.lengths.law_of_lengths();
    let vertices = list_rising(alloc, surface.mesh, caps, reached)?;
    let mut round = Round {
        surface,
        pace: Pace::new(),
        marks: vec![in alloc; false; reached.len()]?,
        found: Vec::new(alloc),
        least: least_cap(reached),
    };
    bar_first(&mut round, finder, reached);
    let done = search_each(&mut round, finder, &vertices, caps, reached, choice);
    finder.unbar();
    done
}
