//! Vertices that are marked in a table.
ghost use Rattle.std.specs.Prelude.{◌≡◌, ◌<◌, ◌⊎◌, ◌^◌, ℕ, true, All, Contains, IsPermutation, IfOk, IsTrue, length};
ghost use Rattle.std.specs.List.Sorted.{IsNonDecreasingBy};
ghost use Rattle.surf_firsts.specs.Near.{AgreeOff};
ghost use Rattle.surf_finder.specs.Marks.{AreMarkedIn, bits_backwards};
ghost use Rattle.surf_finder.specs.Passing.{is_marked, AreNoShorter, AreShut};

use std::alloc::Global;
use surf_base::{NoMemory, VertexId};
use surf_near::Links;

/// Marks the vertices of a list, and bars the ways through those that weren't marked.
#[tactic(auto, using(crate::proofs::Barred::bar_no_shorter))]
pub(crate) fn mark_all(list: &[VertexId], links: &mut Links<'_>, marks: &mut [bool])
    requires inside { All (λ v. v < links.old.mesh.vertices) list.now }
    requires marks { length marks.old ≡ links.old.mesh.vertices }
    ensures only { (v : ℕ) → IsTrue (is_marked marks.new v) →
        IsTrue (is_marked marks.old v) ⊎ Contains list.now v }
    ensures all { All (λ v. IsTrue (is_marked marks.new v)) list.now }
    ensures stay { (v : ℕ) → IsTrue (is_marked marks.old v) → IsTrue (is_marked marks.new v) }
    ensures count { length marks.new ≡ length marks.old }
    ensures shut { AreShut links.old.mesh links.new.lengths marks.old marks.new }
    ensures off { AgreeOff links.old.mesh links.old.lengths links.new.lengths
        (is_marked marks.new) }
    ensures no_shorter { AreNoShorter links.old.mesh links.old.lengths links.new.lengths }
    ensures mesh { links.new.mesh ≡ links.old.mesh }
    ensures given { links.new.given ≡ links.old.given }
{
    for v in list {
        if !marks[v.index()] {
            links.law_of_links();
            marks[v.index()] = true;
            links.bar(*v);
        }
    }
}

/// Lists the vertices that are marked, increasing.
pub fn list_marked(alloc: Global, marked: &[bool]) -> Result<Vec<VertexId>, NoMemory>
    requires few { length marked.now < 2 ^ 32 }
    ensures marked { IfOk result (λ list. AreMarkedIn marked.now (length marked.now) list.items) }
{
    let mut list = Vec::new(alloc);
    for v in 0..marked.len() {
        if marked[v] {
            list.push(VertexId::new(v as u32))?;
        }
    }
    Ok(list)
}

/// Puts vertices into an order that scatters them, that of the bits of their numbers read
/// backwards: those whose numbers are near each other lie apart.
pub fn scatter(vertices: &mut [VertexId])
    ensures same { IsPermutation vertices.old vertices.new }
    ensures sorted { IsNonDecreasingBy bits_backwards vertices.new }
{
    vertices.sort_unstable_by_key(|v| v.number().reverse_bits());
}
