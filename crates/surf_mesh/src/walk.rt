//! Walks along edges.
ghost use Rattle.std.specs.Prelude.{◌≡◌};

use std::marker::Model;
use surf_base::VertexId;

/// A list of vertices. Where it is called a walk of a mesh, it isn't empty and an edge joins each
/// vertex with the next one.
#[derive(Drop)]
pub struct Walk {
    list: Vec<VertexId>,
}

impl Model for Walk {
    ghost use Rattle.std.specs.Prelude.{List, ℕ};

    ghost Value = { List ℕ };

    ghost view = { λ w. w.list.items };
}

impl Walk {
    /// The walk of a list. It takes no memory.
    pub fn from_vertices(list: Vec<VertexId>) -> Walk
        ensures { result ≡ list.items }
    {
        Walk { list }
    }

    /// The vertices, in order.
    pub fn vertices(&self) -> &[VertexId]
        ensures { result.now ≡ self.now }
    {
        &self.list
    }
}
