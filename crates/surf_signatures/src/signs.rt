//! A table of signatures.
ghost use Rattle.std.specs.Prelude.{◌≡◌, ◌<◌, ◌≤◌, ◌+◌, ◌*◌, ◌^◌, ◌==◌, ℕ, if◌then◌else◌, length, map, replicate};
ghost use Rattle.std.specs.Prelude.{slice_index, vec_capacity, IfOk};
ghost use Rattle.std.specs.List.{range_with_len};
ghost use Rattle.surf_graphs.specs.Cells.{dual, Split, IsSplit};
ghost use Rattle.surf_graphs.specs.Trees.{IsTree};
ghost use Rattle.surf_surfaces.specs.Cells.{cells_of};
ghost use Rattle.surf_surfaces.specs.Signature.{edge_signature};
ghost use Rattle.surf_surfaces.specs.Surface.{edge_count, face_count};
ghost use Rattle.surf_signatures.specs.Tables.{added_where, row_of, sets_in, words_for, face_tree, HangsBy};
ghost use Rattle.surf_base.specs.declared.limits.TheConstants.{MAX_LOOPS};

use crate::rows::{words_at, words_of};
use crate::signing::{FaceTree, write_signs};
use std::alloc::Global;
use std::marker::Model;
use surf_base::{EdgeId, NoMemory};
use surf_bits::Bits;
use surf_mesh::HalfMesh;

/// For each edge a set of numbers below a width. It is filled with the signatures of edges, and may
/// then be written over other numbers. All sets are empty until then, and their room isn't touched.
#[derive(Drop)]
pub struct Signs {
    edges: u32,
    width: u32,
    table: Vec<u64>,
}

impl Model for Signs {
    ghost use Rattle.surf_base.specs.declared.limits.TheConstants.{MAX_LOOPS};
    ghost use Rattle.std.specs.Prelude.{◌≡◌, ◌≤◌, ◌<◌, ◌*◌, length, vec_capacity};
    ghost use Rattle.surf_signatures.specs.Tables.{Signed, words_for, sets_in};

    ghost Value = { Signed };

    ghost view = { λ s. record {
      width = s.width;
      sets = sets_in (words_for s.width) s.edges s.table.items;
    } };

    ghost invariant = { λ s. (s.width ≤ MAX_LOOPS)
        × (0 < length s.table.items → length s.table.items ≡ s.edges * words_for s.width)
        × (s.edges * words_for s.width ≤ vec_capacity s.table) };
}

// Adds a set to the row of an edge where that has a number.
fn add_at(table: &mut [u64], words: usize, edge: usize, k: u32, other: &Bits<'_>)
    requires number { k < MAX_LOOPS }
    requires few { words ≤ 16 }
    requires fits { other.now < 2 ^ (64 * words) }
    requires room { edge * words + words ≤ length table.old }
    ensures added { (e : ℕ) → row_of words table.new e ≡ (if edge == e
        then added_where k other.now (row_of words table.old e) else row_of words table.old e) }
    ensures count { length table.new ≡ length table.old }
{
    let start = edge * words;
    let row = &mut table[start..start + words];
    if Bits::over(row).bit(k) {
        other.add_to(row);
    }
}

// Adds a set to each row that has a number.
fn add_to_rows(table: &mut [u64], words: usize, edges: usize, k: u32, other: &Bits<'_>)
    requires number { k < MAX_LOOPS }
    requires few { words ≤ 16 }
    requires fits { other.now < 2 ^ (64 * words) }
    requires room { length table.old ≡ edges * words }
    ensures count { length table.new ≡ length table.old }
    ensures added { sets_in words edges table.new ≡ map (added_where k other.now)
        (sets_in words edges table.old) }
{
    for edge in 0..edges {
        add_at(table, words, edge, k, other);
    }
}

// Fills a table up with empty words, in room that there is.
fn fill_up(table: &mut Vec<u64>, words: usize)
    requires room { words ≤ vec_capacity table.old }
    requires few { length table.old.items ≤ words }
    ensures filled { length table.new.items ≡ words }
    ensures room { words ≤ vec_capacity table.new }
{
    while table.len() < words {
        table.push_reserved(0);
    }
}

impl Signs {
    /// A table for so many edges and sets of numbers below a width, which are all empty. No later
    /// call takes memory.
    pub fn make(alloc: Global, edges: u32, width: u32) -> Result<Signs, NoMemory>
        requires width { width ≤ MAX_LOOPS }
        ensures made { IfOk result (λ s. s ≡ record { width = width; sets = replicate edges 0 }) }
    {
        let table = Vec::with_capacity(alloc, edges as usize * words_of(width))?;
        Ok(Signs {
            edges,
            width,
            table,
        })
    }

    /// Gives each edge of a mesh its signature by a tree of the faces, of which the tables have for
    /// each face but face 0 the face that it hangs on, the edge between them and the depth, and by
    /// the edges that are in neither tree. It takes no memory and can't be refused.
    pub fn write(
        &mut self,
        mesh: &HalfMesh,
        parent: &[u32],
        up: &[u32],
        depth: &[u32],
        left: &[EdgeId],
    )
        requires tree { IsTree (dual (cells_of mesh.now)) (face_tree parent.now up.now depth.now) }
        requires ups { length up.now ≡ face_count mesh.now }
        requires parents { length parent.now ≡ face_count mesh.now }
        requires left { (k : ℕ) → k < length left.now →
            slice_index left.now k < edge_count mesh.now }
        requires few { length left.now ≤ self.old.width }
        requires room { length self.old.sets ≡ edge_count mesh.now }
        ensures signed { (d : Split) → IsSplit (cells_of mesh.now) d →
            HangsBy mesh.now d.cotree parent.now up.now → d.left ≡ left.now →
            self.new.sets ≡ map (edge_signature mesh.now d)
            (range_with_len 0 (edge_count mesh.now)) }
        ensures width { self.new.width ≡ self.old.width }
        ensures count { length self.new.sets ≡ edge_count mesh.now }
    {
        mesh.law_of_surface();
        let words = words_of(self.width);
        fill_up(&mut self.table, self.edges as usize * words);
        let tree = FaceTree {
            mesh,
            parent,
            up,
            depth,
        };
        write_signs(&tree, left, &mut self.table, words);
    }

    /// The set of an edge, lent.
    pub fn signature(&self, e: EdgeId) -> Bits<'_>
        requires edge { e < length self.now.sets }
        ensures set { result ≡ slice_index self.now.sets e }
        ensures within { result < 2 ^ (64 * words_for self.now.width) }
    {
        if self.table.is_empty() {
            return Bits::over(&self.table);
        }
        let words = words_of(self.width);
        Bits::over(words_at(&self.table, e.index() * words, words))
    }

    /// Adds a set to each set that has a number.
    pub fn add_where(&mut self, k: u32, other: &Bits<'_>)
        requires number { k < self.old.width }
        requires fits { other.now < 2 ^ self.old.width }
        ensures sets { self.new.sets ≡ map (added_where k other.now) self.old.sets }
        ensures width { self.new.width ≡ self.old.width }
    {
        if self.table.is_empty() {
            return;
        }
        let words = words_of(self.width);
        add_to_rows(&mut self.table, words, self.edges as usize, k, other);
    }
}
