//! Numbers of the parts of a mesh: five types, so that no number of one kind is taken for one of
//! another.
ghost use Rattle.std.specs.Prelude.{◌≡◌};

use std::marker::Model;

/// The number that stands for none where a table holds numbers of parts.
pub const NOBODY: u32 = u32::MAX;

/// The number of a vertex, counted from 0.
#[derive(Clone, Copy, Debug, PartialEq, Eq, PartialOrd, Ord, Hash)]
pub struct VertexId {
    number: u32,
}

impl Model for VertexId {
    ghost use Rattle.std.specs.Prelude.{ℕ};

    ghost Value = { ℕ };

    ghost view = { λ v. v.number };

    ghost inverse = { λ n. record { number = n } };
}

impl VertexId {
    /// The id of number `n`.
    pub fn new(n: u32) -> VertexId
        ensures { result ≡ n }
    {
        VertexId { number: n }
    }

    /// Its number.
    pub fn number(self) -> u32
        ensures { result ≡ self }
    {
        self.number
    }

    /// Its number, as an index into a table.
    pub fn index(self) -> usize
        ensures { result ≡ self }
    {
        self.number as usize
    }
}

/// The number of an edge. Edges are counted from 0 in the order of (lesser end, greater end).
#[derive(Clone, Copy, Debug, PartialEq, Eq, PartialOrd, Ord, Hash)]
pub struct EdgeId {
    number: u32,
}

impl Model for EdgeId {
    ghost use Rattle.std.specs.Prelude.{ℕ};

    ghost Value = { ℕ };

    ghost view = { λ e. e.number };

    ghost inverse = { λ n. record { number = n } };
}

impl EdgeId {
    /// The id of number `n`.
    pub fn new(n: u32) -> EdgeId
        ensures { result ≡ n }
    {
        EdgeId { number: n }
    }

    /// Its number.
    pub fn number(self) -> u32
        ensures { result ≡ self }
    {
        self.number
    }

    /// Its number, as an index into a table.
    pub fn index(self) -> usize
        ensures { result ≡ self }
    {
        self.number as usize
    }
}

/// The number of a face, counted from 0 in the order of the list of faces.
#[derive(Clone, Copy, Debug, PartialEq, Eq, PartialOrd, Ord, Hash)]
pub struct FaceId {
    number: u32,
}

impl Model for FaceId {
    ghost use Rattle.std.specs.Prelude.{ℕ};

    ghost Value = { ℕ };

    ghost view = { λ f. f.number };

    ghost inverse = { λ n. record { number = n } };
}

impl FaceId {
    /// The id of number `n`.
    pub fn new(n: u32) -> FaceId
        ensures { result ≡ n }
    {
        FaceId { number: n }
    }

    /// Its number.
    pub fn number(self) -> u32
        ensures { result ≡ self }
    {
        self.number
    }

    /// Its number, as an index into a table.
    pub fn index(self) -> usize
        ensures { result ≡ self }
    {
        self.number as usize
    }
}

/// The number of a side. Sides are counted from 0 face by face, each face's in the order of its
/// corners.
#[derive(Clone, Copy, Debug, PartialEq, Eq, PartialOrd, Ord, Hash)]
pub struct SideId {
    number: u32,
}

impl Model for SideId {
    ghost use Rattle.std.specs.Prelude.{ℕ};

    ghost Value = { ℕ };

    ghost view = { λ s. s.number };

    ghost inverse = { λ n. record { number = n } };
}

impl SideId {
    /// The id of number `n`.
    pub fn new(n: u32) -> SideId
        ensures { result ≡ n }
    {
        SideId { number: n }
    }

    /// Its number.
    pub fn number(self) -> u32
        ensures { result ≡ self }
    {
        self.number
    }

    /// Its number, as an index into a table.
    pub fn index(self) -> usize
        ensures { result ≡ self }
    {
        self.number as usize
    }
}

/// The number of a copy of a vertex in an opened mesh, counted from 0.
#[derive(Clone, Copy, Debug, PartialEq, Eq, PartialOrd, Ord, Hash)]
pub struct CopyId {
    number: u32,
}

impl Model for CopyId {
    ghost use Rattle.std.specs.Prelude.{ℕ};

    ghost Value = { ℕ };

    ghost view = { λ c. c.number };

    ghost inverse = { λ n. record { number = n } };
}

impl CopyId {
    /// The id of number `n`.
    pub fn new(n: u32) -> CopyId
        ensures { result ≡ n }
    {
        CopyId { number: n }
    }

    /// Its number.
    pub fn number(self) -> u32
        ensures { result ≡ self }
    {
        self.number
    }

    /// Its number, as an index into a table.
    pub fn index(self) -> usize
        ensures { result ≡ self }
    {
        self.number as usize
    }
}
