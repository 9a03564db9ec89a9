//! Labels of vertices, most of which are the same as others.
ghost use Rattle.std.specs.Prelude.{◌≡◌, ◌<◌, ◌≤◌, ℕ, Some, None, IfOk, IsTrue, replicate, length, bit_xor, get_or, slice_set, MatchBool};
ghost use Rattle.surf_sheetcheck.specs.Tables.{label_in};

use std::alloc::Global;
use std::marker::Model;
use surf_base::{NOBODY, NoMemory};
use surf_bits::Signature;

/// For each vertex a set, or nothing. Vertices share the sets that are the same, so that a table of
/// a million vertices has a few sets. All are forgotten by dropping each vertex that has one.
#[derive(Drop)]
pub(crate) struct Labels {
    ids: Vec<u32>,
    rows: Vec<Signature>,
}

impl Model for Labels {
    ghost use Rattle.std.specs.Prelude.{ℕ, List, Option, map};
    ghost use Rattle.surf_sheetcheck.specs.Labels.{shared_label, AreShared};

    ghost Value = { List (Option ℕ) };

    ghost view = { λ l. map (shared_label l.rows.items) l.ids.items };

    ghost invariant = { λ l. AreShared l.ids.items l.rows.items };
}

impl Labels {
    /// No vertex of so many has a label.
    pub(crate) fn make(alloc: Global, vertices: u32) -> Result<Labels, NoMemory>
        ensures none { IfOk result (λ l. l ≡ replicate vertices None) }
    {
        Ok(Labels {
            ids: vec![in alloc; NOBODY; vertices as usize]?,
            rows: Vec::new(alloc),
        })
    }

    /// Whether a vertex has a label.
    pub(crate) fn has(&self, v: u32) -> bool
        requires vertex { v < length self.now }
        ensures has { MatchBool result
            ((x : ℕ) × (get_or self.now v None ≡ Some x)) (get_or self.now v None ≡ None) }
    {
        self.ids[v as usize] != NOBODY
    }

    /// Adds the label of a vertex, where it has one.
    pub(crate) fn add_to(&self, v: u32, sum: &mut Signature)
        requires vertex { v < length self.now }
        ensures added { sum.new ≡ bit_xor sum.old (label_in self.now v) }
    {
        let id = self.ids[v as usize];
        if id != NOBODY {
            sum.add(self.rows[id as usize].bits());
        }
    }

    /// Whether two vertices share a label, or have none. Others may have the same one too.
    pub(crate) fn are_shared(&self, u: u32, v: u32) -> bool
        requires one { u < length self.now }
        requires other { v < length self.now }
        ensures same { IsTrue result → get_or self.now u None ≡ get_or self.now v None }
    {
        self.ids[u as usize] == self.ids[v as usize]
    }

    /// Gives a vertex a label.
    pub(crate) fn put(&mut self, v: u32, label: Signature) -> Result<(), NoMemory>
        requires vertex { v < length self.old }
        ensures put { IfOk result (λ _. self.new ≡ slice_set self.old v (Some label)) }
    {
        let id = self.rows.len();
        if id >= NOBODY as usize {
            return Err(NoMemory);
        }
        self.rows.push(label)?;
        self.ids[v as usize] = id as u32;
        Ok(())
    }

    /// Gives a vertex what another one has.
    pub(crate) fn share(&mut self, v: u32, from: u32)
        requires vertex { v < length self.old }
        requires other { from < length self.old }
        ensures shared { self.new ≡ slice_set self.old v (get_or self.old from None) }
    {
        self.ids[v as usize] = self.ids[from as usize];
    }

    /// Takes its label from a vertex.
    pub(crate) fn take(&mut self, v: u32)
        requires vertex { v < length self.old }
        ensures taken { self.new ≡ slice_set self.old v None }
    {
        self.ids[v as usize] = NOBODY;
    }

    /// Forgets the sets, which no vertex has.
    pub(crate) fn clear(&mut self)
        requires none { (v : ℕ) → v < length self.old → get_or self.old v None ≡ None }
        ensures same { self.new ≡ self.old }
    {
        self.rows.clear();
    }
}
