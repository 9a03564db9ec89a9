//! What tells a two-sided surface from a one-sided one.
ghost use Rattle.std.specs.Prelude.{◌≡◌, map};
ghost use Rattle.surf_check.specs.Links.{link_of};

use std::marker::Model;
use surf_base::{FaceId, VertexId};

/// A face of a chain, and the ends of the edge over which the chain goes on to the next one.
#[derive(Clone, Copy, Debug, PartialEq, Eq)]
pub struct ChainLink {
    pub face: FaceId,
    pub u: VertexId,
    pub v: VertexId,
}

/// A flag for each face. Where each face runs in its listed order or, by its flag, in the reverse
/// order, the two faces of each edge run it in opposite ways.
#[derive(Drop)]
pub struct Turning {
    by_face: Vec<bool>,
}

impl Model for Turning {
    ghost use Rattle.std.specs.Prelude.{List, Bool};

    ghost Value = { List Bool };

    ghost view = { λ t. t.by_face.items };
}

impl Turning {
    // The turning of a list of flags.
    pub(crate) fn from_flags(by_face: Vec<bool>) -> Turning
        ensures { result ≡ by_face.items }
    {
        Turning { by_face }
    }

    /// The flags, one for each face.
    pub fn flags(&self) -> &[bool]
        ensures { result.now ≡ self.now }
    {
        &self.by_face
    }
}

/// A chain of faces that leads back to its first face. At an odd number of its links the two faces
/// run the edge between them in the same direction, so that no turning exists.
#[derive(Drop)]
pub struct Chain {
    list: Vec<ChainLink>,
}

impl Model for Chain {
    ghost use Rattle.std.specs.Prelude.{List, map};
    ghost use Rattle.surf_surfaces.specs.Turning.{Link};
    ghost use Rattle.surf_check.specs.Links.{link_of};

    ghost Value = { List Link };

    ghost view = { λ c. map link_of c.list.items };
}

impl Chain {
    // The chain of a list of links.
    pub(crate) fn from_links(list: Vec<ChainLink>) -> Chain
        ensures { result ≡ map link_of list.items }
    {
        Chain { list }
    }

    /// The links, in order. The next one after the last is the first.
    pub fn links(&self) -> &[ChainLink]
        ensures { map link_of result.now ≡ self.now }
    {
        &self.list
    }
}

/// Whether a surface has two sides or one, with what shows it.
#[derive(Drop)]
pub enum Sides {
    /// The surface can be oriented by this turning.
    Two(Turning),
    /// It can't be oriented, as this chain shows.
    One(Chain),
}
