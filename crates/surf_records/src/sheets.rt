//! Certificates of bases by sheets.
ghost use Rattle.std.specs.Prelude.{◌≡◌, length};

use std::marker::Model;
use surf_base::VertexId;
use surf_mesh::Walk;
use surf_rows::Rows;

/// A sheet, by the numbers of its line. Walks and cocycles are numbered from 1.
#[derive(Drop)]
pub struct SheetRow {
    from: u32,
    to: u32,
    walk: u32,
    first: u32,
    last: u32,
    margin: u64,
}

impl Model for SheetRow {
    ghost use Rattle.surf_sheets.specs.Rows.{SheetRow};

    ghost Value = { SheetRow };

    ghost view = { λ s. record {
      from = s.from;
      to = s.to;
      walk = s.walk;
      first = s.first;
      last = s.last;
      margin = s.margin;
    } };
}

impl SheetRow {
    /// The sheet with the numbers past `range.0` up to `range.1`, over the walk with the number
    /// `walk` from its place `part.0` to its place `part.1`, with a margin in units of length. Where
    /// `walk` is 0 the part is the vertex `part.0`.
    pub fn make(range: (u32, u32), walk: u32, part: (u32, u32), margin: u64) -> SheetRow
        ensures row { result ≡ record {
          from = range.0;
          to = range.1;
          walk = walk;
          first = part.0;
          last = part.1;
          margin = margin;
        } }
    {
        SheetRow {
            from: range.0,
            to: range.1,
            walk,
            first: part.0,
            last: part.1,
            margin,
        }
    }

    /// Its numbers are those past the first of these up to the second.
    pub fn range(&self) -> (u32, u32)
        ensures from { result.0 ≡ self.now.from }
        ensures to { result.1 ≡ self.now.to }
    {
        (self.from, self.to)
    }

    /// The number of the walk that its part is on, or 0 if the part is one vertex.
    pub fn walk(&self) -> u32
        ensures walk { result ≡ self.now.walk }
    {
        self.walk
    }

    /// The places on the walk at which the part begins and ends, or, where there is no walk, twice
    /// its vertex.
    pub fn part(&self) -> (u32, u32)
        ensures first { result.0 ≡ self.now.first }
        ensures last { result.1 ≡ self.now.last }
    {
        (self.first, self.last)
    }

    /// How far from the part a vertex may be that the sheet serves, in units of length.
    pub fn margin(&self) -> u64
        ensures margin { result ≡ self.now.margin }
    {
        self.margin
    }
}

/// What shows by sheets that cycles are a least basis: how many vertices and faces the mesh has,
/// the cycles in the order of the basis, the edges of cocycles with the numbers of those, and the
/// sheets.
#[derive(Drop)]
pub struct SheetCert {
    vertices: u32,
    faces: u32,
    cycles: Vec<Walk>,
    edges: Vec<(VertexId, VertexId)>,
    numbers: Rows<u32>,
    sheets: Vec<SheetRow>,
}

impl Model for SheetCert {
    ghost use Rattle.std.specs.Prelude.{◌≡◌, length};
    ghost use Rattle.surf_sheets.specs.Rows.{SheetCert};

    ghost Value = { SheetCert };

    ghost view = { λ c. record {
      vertices = c.vertices;
      faces = c.faces;
      cycles = c.cycles.items;
      edges = c.edges.items;
      numbers = c.numbers;
      sheets = c.sheets.items;
    } };

    ghost invariant = { λ c. length c.numbers ≡ length c.edges.items };
}

impl SheetCert {
    /// The certificate of these parts, for a mesh with so many vertices and faces. Each edge of a
    /// cocycle has its row of numbers. It takes no memory.
    pub fn make(
        counts: (u32, u32),
        cycles: Vec<Walk>,
        edges: Vec<(VertexId, VertexId)>,
        numbers: Rows<u32>,
        sheets: Vec<SheetRow>,
    ) -> SheetCert
        requires rows { length numbers ≡ length edges.items }
        ensures parts { result ≡ record {
          vertices = counts.0;
          faces = counts.1;
          cycles = cycles.items;
          edges = edges.items;
          numbers = numbers;
          sheets = sheets.items;
        } }
    {
        SheetCert {
            vertices: counts.0,
            faces: counts.1,
            cycles,
            edges,
            numbers,
            sheets,
        }
    }

    /// How many vertices the mesh has.
    pub fn vertices(&self) -> u32
        ensures vertices { result ≡ self.now.vertices }
    {
        self.vertices
    }

    /// How many faces the mesh has.
    pub fn faces(&self) -> u32
        ensures faces { result ≡ self.now.faces }
    {
        self.faces
    }

    /// The cycles, in the order of the basis.
    pub fn cycles(&self) -> &[Walk]
        ensures cycles { result.now ≡ self.now.cycles }
    {
        &self.cycles
    }

    /// The edges of cocycles, as the pairs of their ends.
    pub fn edges(&self) -> &[(VertexId, VertexId)]
        ensures edges { result.now ≡ self.now.edges }
        ensures rows { length self.now.numbers ≡ length self.now.edges }
    {
        &self.edges
    }

    /// The numbers of the cocycles of each edge.
    pub fn numbers(&self) -> &Rows<u32>
        ensures numbers { result.now ≡ self.now.numbers }
        ensures rows { length self.now.numbers ≡ length self.now.edges }
    {
        &self.numbers
    }

    /// The sheets.
    pub fn sheets(&self) -> &[SheetRow]
        ensures sheets { result.now ≡ self.now.sheets }
    {
        &self.sheets
    }
}
