//! Shapes of meshes that are made from numbers.
ghost use Rattle.std.specs.Prelude.{◌≡◌, ◌<◌};
ghost use Rattle.surf_surfaces.specs.Surface.{face_count, loop_count};
ghost use Rattle.surf_words.specs.Shapes.{IsShape, mesh_of, shape_from};

use std::marker::Model;

/// A chain of tori, each of as many rows and columns of squares. One torus is a chain too.
#[derive(Clone, Copy, Debug)]
pub struct Shape {
    tori: u32,
    rows: u32,
    columns: u32,
}

impl Model for Shape {
    ghost use Rattle.surf_words.specs.Shapes.{Shape, IsShape};

    ghost Value = { Shape };

    ghost view = { λ s. record { tori = s.tori; rows = s.rows; columns = s.columns } };

    ghost inverse = { λ v. record { tori = v.tori; rows = v.rows; columns = v.columns } };

    ghost invariant = { λ s. IsShape (record {
      tori = s.tori;
      rows = s.rows;
      columns = s.columns;
    }) };
}

impl Shape {
    /// The torus of as many rows and columns, from 3 on.
    pub fn torus(rows: u32, columns: u32) -> Option<Shape>
        ensures { result ≡ shape_from 3 1 rows columns }
    {
        if rows >= 3 && columns >= 3 {
            Some(Shape {
                tori: 1,
                rows,
                columns,
            })
        } else {
            None
        }
    }

    /// The chain of as many tori of as many rows and columns, from 1 torus and from 4 rows and
    /// columns on.
    pub fn chain(tori: u32, rows: u32, columns: u32) -> Option<Shape>
        ensures { result ≡ shape_from 4 tori rows columns }
    {
        if tori >= 1 && rows >= 4 && columns >= 4 {
            Some(Shape {
                tori,
                rows,
                columns,
            })
        } else {
            None
        }
    }

    /// How many tori the chain has.
    pub fn tori(self) -> u32
        ensures { result ≡ self.tori }
    {
        self.tori
    }

    /// How many rows of squares each torus has.
    pub fn rows(self) -> u32
        ensures { result ≡ self.rows }
    {
        self.rows
    }

    /// How many columns of squares each torus has.
    pub fn columns(self) -> u32
        ensures { result ≡ self.columns }
    {
        self.columns
    }

    /// What its numbers are. This does nothing: the clause is known from there on where it is
    /// called.
    pub fn law_of_shape(self)
        ensures shape { IsShape self }
    {}

    /// How many vertices its mesh has.
    pub fn vertices(self) -> u128
        ensures { result ≡ (mesh_of self).vertices }
    {
        let tori = u128::from(self.tori);
        let cells = u128::from(self.rows) * u128::from(self.columns);
        tori * cells - 3 * (tori - 1)
    }

    /// How many faces its mesh has.
    pub fn faces(self) -> u128
        ensures { result ≡ face_count (mesh_of self) }
    {
        let tori = u128::from(self.tori);
        let cells = u128::from(self.rows) * u128::from(self.columns);
        2 * (tori * cells) - 2 * (tori - 1)
    }

    /// How many independent loops its mesh has: two for each torus.
    pub fn loops(self) -> u64
        ensures count { result ≡ loop_count (mesh_of self) }
        ensures some { 0 < result }
    {
        2 * u64::from(self.tori)
    }
}
