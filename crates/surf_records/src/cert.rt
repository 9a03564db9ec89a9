//! Certificates of loops and of bases.
ghost use Rattle.std.specs.Prelude.{◌≡◌};

use crate::rows::{DualRows, TreeRows};
use std::marker::Model;
use surf_base::VertexId;
use surf_mesh::Walk;

/// What shows that loops at a base are least: the tree of shortest walks from the base, the tree of
/// faces across the other edges, and the edges that are left. Each of these closes a loop.
#[derive(Drop)]
pub struct LoopCert {
    tree: TreeRows,
    dual: DualRows,
    left: Vec<(VertexId, VertexId)>,
}

impl Model for LoopCert {
    ghost use Rattle.surf_validity.specs.Rows.{LoopCert};

    ghost Value = { LoopCert };

    ghost view = { λ c. record { tree = c.tree; dual = c.dual; left = c.left.items } };
}

impl LoopCert {
    /// The certificate of these parts. It takes no memory.
    pub fn make(tree: TreeRows, dual: DualRows, left: Vec<(VertexId, VertexId)>) -> LoopCert
        ensures parts { result ≡ record { tree = tree; dual = dual; left = left.items } }
    {
        LoopCert { tree, dual, left }
    }

    /// The tree of shortest walks.
    pub fn tree(&self) -> &TreeRows
        ensures tree { result.now ≡ self.now.tree }
    {
        &self.tree
    }

    /// The tree of faces.
    pub fn dual(&self) -> &DualRows
        ensures dual { result.now ≡ self.now.dual }
    {
        &self.dual
    }

    /// The edges that are left, as the pairs of their ends.
    pub fn left(&self) -> &[(VertexId, VertexId)]
        ensures left { result.now ≡ self.now.left }
    {
        &self.left
    }
}

/// What shows that cycles are a least basis: a tree of shortest walks from each vertex, the tree of
/// faces and the edges that are left for the first of these, and the cycles.
#[derive(Drop)]
pub struct BasisCert {
    trees: Vec<TreeRows>,
    dual: DualRows,
    left: Vec<(VertexId, VertexId)>,
    cycles: Vec<Walk>,
}

impl Model for BasisCert {
    ghost use Rattle.surf_validity.specs.Rows.{BasisCert};

    ghost Value = { BasisCert };

    ghost view = { λ c. record {
      trees = c.trees.items;
      dual = c.dual;
      left = c.left.items;
      cycles = c.cycles.items;
    } };
}

impl BasisCert {
    /// The certificate of these parts. It takes no memory.
    pub fn make(
        trees: Vec<TreeRows>,
        dual: DualRows,
        left: Vec<(VertexId, VertexId)>,
        cycles: Vec<Walk>,
    ) -> BasisCert
        ensures parts { result ≡ record {
          trees = trees.items;
          dual = dual;
          left = left.items;
          cycles = cycles.items;
        } }
    {
        BasisCert {
            trees,
            dual,
            left,
            cycles,
        }
    }

    /// The trees of shortest walks, that from each vertex at its number.
    pub fn trees(&self) -> &[TreeRows]
        ensures trees { result.now ≡ self.now.trees }
    {
        &self.trees
    }

    /// The tree of faces.
    pub fn dual(&self) -> &DualRows
        ensures dual { result.now ≡ self.now.dual }
    {
        &self.dual
    }

    /// The edges that are left, as the pairs of their ends.
    pub fn left(&self) -> &[(VertexId, VertexId)]
        ensures left { result.now ≡ self.now.left }
    {
        &self.left
    }

    /// The cycles, in the order of the basis.
    pub fn cycles(&self) -> &[Walk]
        ensures cycles { result.now ≡ self.now.cycles }
    {
        &self.cycles
    }
}

/// A certificate of one of the two kinds whose text is read and written.
#[derive(Drop)]
pub enum Cert {
    Loops(LoopCert),
    Basis(BasisCert),
}
