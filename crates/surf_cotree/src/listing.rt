//! The edges of the tree of faces, and those in neither tree.
ghost use Rattle.std.specs.Prelude.{◌≡◌, ◌≢◌, ◌<◌, ◌≤◌, ◌^◌, ◌&&◌, ◌==◌, ℕ, false, not, length, slice_index_or};
ghost use Rattle.std.specs.Prelude.{vec_capacity, filter};
ghost use Rattle.std.specs.List.{range_with_len};
ghost use Rattle.surf_z2.specs.Parity.{any_below};
ghost use Rattle.surf_base.specs.Tables.{nobody, at};
ghost use Rattle.surf_cotree.specs.Searches.{is_unmarked as unmarked};

use surf_base::{EdgeId, NOBODY};

// Marks the edges from the faces to their parents.
pub(crate) fn mark_edges(up: &[u32], marks: &mut [bool])
    requires ups { (f : ℕ) → f < length up.now → at up.now f ≢ nobody →
        at up.now f < length marks.old }
    ensures marks { (e : ℕ) → e < length marks.old → slice_index_or marks.new e false
        ≡ any_below (length up.now) (λ f. not (at up.now f == nobody) && (at up.now f == e)) }
{
    marks.fill(false);
    for f in 0..up.len() {
        if up[f] != NOBODY {
            marks[up[f] as usize] = true;
        }
    }
}

// Whether neither table marks an edge.
fn is_unmarked(first: &[bool], second: &[bool], edge: usize) -> bool
    requires first { edge < length first.now }
    requires second { edge < length second.now }
    ensures unmarked { result ≡ unmarked first.now second.now edge }
{
    !first[edge] && !second[edge]
}

// Lists the edges that neither table marks, in room that there is.
pub(crate) fn list_left(first: &[bool], second: &[bool], left: &mut Vec<EdgeId>)
    requires same { length second.now ≡ length first.now }
    requires room { length first.now ≤ vec_capacity left.old }
    requires few { length first.now < 2 ^ 32 }
    ensures listed { left.new.items ≡ filter (unmarked first.now second.now)
        (range_with_len 0 (length first.now)) }
    ensures room { vec_capacity left.old ≤ vec_capacity left.new }
{
    left.clear();
    for edge in 0..first.len() {
        if is_unmarked(first, second, edge) {
            left.push_reserved(EdgeId::new(edge as u32));
        }
    }
}
