//! The rows of trees: what a certificate says of each vertex and of each face.
ghost use Rattle.std.specs.Prelude.{◌≡◌};

use std::marker::Model;
use surf_base::VertexId;

/// A tree of shortest walks from a base: for each vertex, by its number, its distance from the base
/// and its parent, which the base has not.
#[derive(Drop)]
pub struct TreeRows {
    base: VertexId,
    distance: Vec<u64>,
    parent: Vec<Option<VertexId>>,
}

impl Model for TreeRows {
    ghost use Rattle.surf_validity.specs.Rows.{TreeRows};

    ghost Value = { TreeRows };

    ghost view = { λ t. record {
      base = t.base;
      distance = t.distance.items;
      parent = t.parent.items;
    } };
}

impl TreeRows {
    /// The rows of these lists. It takes no memory.
    pub fn make(base: VertexId, distance: Vec<u64>, parent: Vec<Option<VertexId>>) -> TreeRows
        ensures rows { result ≡ record {
          base = base;
          distance = distance.items;
          parent = parent.items;
        } }
    {
        TreeRows {
            base,
            distance,
            parent,
        }
    }

    /// The base.
    pub fn base(&self) -> VertexId
        ensures base { result ≡ self.now.base }
    {
        self.base
    }

    /// The distance of each vertex from the base.
    pub fn distance(&self) -> &[u64]
        ensures distance { result.now ≡ self.now.distance }
    {
        &self.distance
    }

    /// The parent of each vertex.
    pub fn parent(&self) -> &[Option<VertexId>]
        ensures parent { result.now ≡ self.now.parent }
    {
        &self.parent
    }
}

/// A tree of faces whose root is face 0: for each face, by its number, its depth below the root and
/// the side that it shares with its parent, as the pair of that side's ends. The root has no side.
#[derive(Drop)]
pub struct DualRows {
    depth: Vec<u32>,
    side: Vec<Option<(VertexId, VertexId)>>,
}

impl Model for DualRows {
    ghost use Rattle.surf_validity.specs.Rows.{DualRows};

    ghost Value = { DualRows };

    ghost view = { λ t. record { depth = t.depth.items; side = t.side.items } };
}

impl DualRows {
    /// The rows of these lists. It takes no memory.
    pub fn make(depth: Vec<u32>, side: Vec<Option<(VertexId, VertexId)>>) -> DualRows
        ensures rows { result ≡ record { depth = depth.items; side = side.items } }
    {
        DualRows { depth, side }
    }

    /// The depth of each face.
    pub fn depth(&self) -> &[u32]
        ensures depth { result.now ≡ self.now.depth }
    {
        &self.depth
    }

    /// The side that each face shares with its parent.
    pub fn side(&self) -> &[Option<(VertexId, VertexId)>]
        ensures side { result.now ≡ self.now.side }
    {
        &self.side
    }
}
