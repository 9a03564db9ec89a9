//! The first loop at the vertices of a list, where searches tell which of them may be passed over.
ghost use Rattle.std.specs.Prelude.{◌≡◌, ◌<◌, ℕ, true, false, All, length, IfOk, OnOk, IsTrue};
ghost use Rattle.surf_surfaces.specs.Walk.{ArePositive};
ghost use Rattle.surf_surfaces.specs.Surface.{edge_count, IsSurface};
ghost use Rattle.surf_firsts.specs.Near.{AgreeOff};
ghost use Rattle.surf_finder.specs.Signing.{AreSigned};
ghost use Rattle.surf_finder.specs.Passing.{is_marked, AreNoShorter};
ghost use Rattle.surf_search.specs.Firsts.{IsFirstIn, StaysFirst};
ghost use Rattle.surf_search.specs.Rounds.{IsBarring};
ghost use Rattle.surf_finder.specs.Found.{surface_of};
ghost use Rattle.surf_search.specs.Firsts.{IsFirstAmong};

use crate::pace::{Pace, spare};
use std::alloc::Global;
use surf_base::{NoMemory, VertexId};
use surf_choice::Candidate;
use surf_finder::{Finder, SignedSurface};
use surf_tree::even_length;

// The first of the loops at the vertices of a list.
fn first_found(
    finder: &mut Finder<'_>,
    vertices: &[VertexId],
) -> Result<Option<Candidate>, NoMemory>
    requires signed { (count : ℕ) × AreSigned finder.old.mesh finder.old.signs count }
    requires inside { All (λ v. v < finder.old.mesh.vertices) vertices.now }
    requires positive { IsSurface finder.old.mesh × ArePositive finder.old.mesh finder.old.lengths }
    ensures first { IfOk result (IsFirstAmong finder.old.mesh finder.old.lengths finder.old.signs
        vertices.now) }
{
    let mut first = None;
    for v in vertices {
        let next = finder.first_loop(*v, &first)?;
        first = next;
    }
    Ok(first)
}

// Searches from a vertex as far as a limit, if that goes beyond the first loop so far. Where the
// least loop there is longer than that one, no vertex that is so near has a better one: a loop
// there, with a way there and back, would be a shorter one here. These vertices are marked. Tells
// whether it came to that.
fn scout_first(
    finder: &mut Finder<'_>,
    base: VertexId,
    first: &Option<Candidate>,
    wide: &Option<Candidate>,
    marks: &mut [bool],
) -> Result<bool, NoMemory>
    requires base { base < finder.old.mesh.vertices }
    requires marks { length marks.old ≡ finder.old.mesh.vertices }
    ensures first { StaysFirst finder.old marks.old marks.new first.now }
    ensures off { AgreeOff finder.old.mesh finder.old.lengths finder.new.lengths
        (is_marked marks.new) }
    ensures no_shorter { AreNoShorter finder.old.mesh finder.old.lengths finder.new.lengths }
    ensures marked { IfOk result (λ told. told ≡ true → IsTrue (is_marked marks.new base)) }
    ensures stay { (v : ℕ) → IsTrue (is_marked marks.old v) → IsTrue (is_marked marks.new v) }
    ensures count { length marks.new ≡ length marks.old }
    ensures mesh { finder.new.mesh ≡ finder.old.mesh }
    ensures signs { finder.new.signs ≡ finder.old.signs }
    ensures given { finder.new.given ≡ finder.old.given }
{
    finder.law_of_finder();
    let Some(least) = first else {
        return Ok(false);
    };
    if spare(first, wide) == 0 {
        return Ok(false);
    }
    let Some(next) = finder.first_loop(base, wide)? else {
        return Ok(false);
    };
    if next.length <= least.length {
        return Ok(false);
    }
    finder.mark_near(base, (next.length - least.length - 1) / 2, marks);
    Ok(true)
}

// The first of a candidate, which is the first loop at the marked vertices, and the loops at one
// more. It is the candidate already where the vertex is marked, or where a search that goes farther
// tells so. The ways through marked vertices are barred: a loop through one of them comes no sooner
// than the candidate. Then the vertex is marked.
fn visit_first(
    surface: &SignedSurface<'_>,
    finder: &mut Finder<'_>,
    pace: &mut Pace,
    base: VertexId,
    first: &Option<Candidate>,
    marks: &mut [bool],
) -> Result<Option<Candidate>, NoMemory>
    requires base { base < surface.now.mesh.now.vertices }
    requires barring { IsBarring (surface_of surface.now) finder.old marks.old }
    requires first { IsFirstIn surface.now.mesh.now surface.now.lengths.now
        surface.now.signatures.now (is_marked marks.old) first.now }
    ensures barring { IsBarring (surface_of surface.now) finder.new marks.new }
    ensures first { IfOk result (IsFirstIn surface.now.mesh.now surface.now.lengths.now
        surface.now.signatures.now (is_marked marks.new)) }
    ensures marked { OnOk result (IsTrue (is_marked marks.new base)) }
    ensures stay { (v : ℕ) → IsTrue (is_marked marks.old v) → IsTrue (is_marked marks.new v) }
{
    surface.mesh.law_of_surface();
    finder.law_of_finder();
    if marks[base.index()] {
        return Ok(*first);
    }
    let wide = pace.limit(first);
    let told = scout_first(finder, base, first, &wide, marks)?;
    pace.step(told);
    if told {
        return Ok(*first);
    }
    let next = finder.first_loop(base, first)?;
    finder.mark(base, marks);
    Ok(next)
}

// The first of the loops at the vertices of a list. Those near a vertex at which all loops are
// longer are passed over.
fn first_passed(
    alloc: Global,
    surface: &SignedSurface<'_>,
    finder: &mut Finder<'_>,
    vertices: &[VertexId],
) -> Result<Option<Candidate>, NoMemory>
    requires inside { All (λ v. v < surface.now.mesh.now.vertices) vertices.now }
    requires lengths { length surface.now.lengths.now ≡ edge_count surface.now.mesh.now }
    requires finder { finder.old ≡ surface_of surface.now }
    ensures first { IfOk result (IsFirstAmong surface.now.mesh.now surface.now.lengths.now
        surface.now.signatures.now vertices.now) }
{
    surface.mesh.law_of_surface();
    surface.lengths.law_of_lengths();
    let mut first = None;
    let mut pace = Pace::new();
    let mut marks = vec![in alloc; false; surface.mesh.vertices() as usize]?;
    for v in vertices {
        let next = visit_first(surface, finder, &mut pace, *v, &first, &mut marks)?;
        first = next;
    }
    Ok(first)
}

/// The first of the loops at some vertices that aren't null. None where each is null. Where all
/// lengths are the same no vertex would be passed over, and none is barred.
pub fn first_among(
    alloc: Global,
    surface: &SignedSurface<'_>,
    vertices: &[VertexId],
) -> Result<Option<Candidate>, NoMemory>
    requires lengths { length surface.now.lengths.now ≡ edge_count surface.now.mesh.now }
    requires signed { (count : ℕ)
        × AreSigned surface.now.mesh.now surface.now.signatures.now count }
    requires vertices { All (λ v. v < surface.now.mesh.now.vertices) vertices.now }
    ensures first { IfOk result (IsFirstAmong surface.now.mesh.now surface.now.lengths.now
        surface.now.signatures.now vertices.now) }
{
    surface.mesh.law_of_surface();
    surface.lengths.law_of_lengths();
    let mut finder = Finder::make(alloc, surface)?;
    if even_length(surface.lengths).is_some() {
        return first_found(&mut finder, vertices);
    }
    first_passed(alloc, surface, &mut finder, vertices)
}
