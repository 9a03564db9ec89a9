//! A table of sets by vertex.
ghost use Rattle.std.specs.Prelude.{◌≡◌, ◌<◌, ◌≤◌, ◌+◌, ◌*◌, ◌^◌, ◌==◌, ℕ, if◌then◌else◌, length, replicate, set};
ghost use Rattle.std.specs.Prelude.{slice_index, IfOk};
ghost use Rattle.surf_signatures.specs.Tables.{row_of, words_for};
ghost use Rattle.surf_base.specs.declared.limits.TheConstants.{MAX_LOOPS};

use crate::rows::{words_at, words_of};
use std::alloc::Global;
use std::marker::Model;
use surf_base::{NoMemory, VertexId};
use surf_bits::Bits;

/// For each vertex a set of numbers below a width.
#[derive(Drop)]
pub struct VertexSets {
    vertices: u32,
    width: u32,
    table: Vec<u64>,
}

impl Model for VertexSets {
    ghost use Rattle.surf_base.specs.declared.limits.TheConstants.{MAX_LOOPS};
    ghost use Rattle.std.specs.Prelude.{◌≡◌, ◌≤◌, ◌*◌, length};
    ghost use Rattle.surf_signatures.specs.Tables.{Signed, words_for, sets_in};

    ghost Value = { Signed };

    ghost view = { λ s. record {
      width = s.width;
      sets = sets_in (words_for s.width) s.vertices s.table.items;
    } };

    ghost invariant = { λ s. (s.width ≤ MAX_LOOPS)
        × (length s.table.items ≡ s.vertices * words_for s.width) };
}

// Writes a set over that of a vertex.
fn put_at(table: &mut [u64], words: usize, vertex: usize, numbers: &Bits<'_>)
    requires fits { numbers.now < 2 ^ (64 * words) }
    requires room { vertex * words + words ≤ length table.old }
    ensures put { (v : ℕ) → row_of words table.new v ≡ (if vertex == v then numbers.now
        else row_of words table.old v) }
    ensures count { length table.new ≡ length table.old }
{
    let start = vertex * words;
    let row = &mut table[start..start + words];
    row.fill(0);
    numbers.add_to(row);
}

impl VertexSets {
    /// A table for so many vertices and sets of numbers below a width, which are all empty. No
    /// later call takes memory.
    pub fn make(alloc: Global, vertices: u32, width: u32) -> Result<VertexSets, NoMemory>
        requires width { width ≤ MAX_LOOPS }
        ensures made { IfOk result (λ s. s ≡ record {
          width = width;
          sets = replicate vertices 0;
        }) }
    {
        let table = vec![in alloc; 0u64; vertices as usize * words_of(width)]?;
        Ok(VertexSets {
            vertices,
            width,
            table,
        })
    }

    /// The set of a vertex, lent.
    pub fn of(&self, v: VertexId) -> Bits<'_>
        requires vertex { v < length self.now.sets }
        ensures set { result ≡ slice_index self.now.sets v }
        ensures within { result < 2 ^ (64 * words_for self.now.width) }
    {
        let words = words_of(self.width);
        Bits::over(words_at(&self.table, v.index() * words, words))
    }

    /// Gives a vertex another set.
    pub fn put(&mut self, v: VertexId, numbers: &Bits<'_>)
        requires vertex { v < length self.old.sets }
        requires fits { numbers.now < 2 ^ (64 * words_for self.old.width) }
        ensures put { self.new ≡ record self.old { sets = set self.old.sets v numbers.now } }
    {
        let words = words_of(self.width);
        put_at(&mut self.table, words, v.index(), numbers);
    }
}
