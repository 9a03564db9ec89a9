//! Rows and columns that close into a torus.
ghost use Rattle.std.specs.Prelude.{◌≡◌, ◌<◌, ◌≤◌, ◌*◌, ◌/◌, ◌%◌};
ghost use Rattle.surf_surfaces.specs.Mesh.{IsFace};
ghost use Rattle.surf_surfaces.specs.Surface.{face_at};
ghost use Rattle.surf_tori.specs.Torus.{grid_vertex, first_face, second_face, torus};
ghost use Rattle.surf_base.specs.declared.limits.TheConstants.{MAX_VERTICES};

use surf_base::VertexId;

/// A number of rows and of columns, enough to close into a torus and no more than a mesh has
/// vertices for.
#[derive(Clone, Copy)]
pub struct Grid {
    pub rows: u32,
    pub columns: u32,
    ghost tall: { 3 ≤ rows },
    ghost wide: { 3 ≤ columns },
    ghost few: { rows * columns ≤ MAX_VERTICES },
}

impl Grid {
    // The vertex in a row and a column, each taken modulo how many there are.
    fn vertex(self, row: u32, column: u32) -> VertexId
        ensures vertex { result ≡ grid_vertex self.rows self.columns row column }
    {
        VertexId::new(row % self.rows * self.columns + column % self.columns)
    }

    /// The first face of the cell of a number.
    pub fn first_face(self, cell: u32) -> [VertexId; 3]
        requires { cell < self.rows * self.columns }
        ensures corners { result ≡ first_face self.rows self.columns (cell / self.columns)
            (cell % self.columns) }
        ensures face { IsFace (self.rows * self.columns) result }
    {
        surf_tori::law_of_tori();
        let row = cell / self.columns;
        let column = cell % self.columns;
        [
            self.vertex(row, column),
            self.vertex(row + 1, column),
            self.vertex(row + 1, column + 1),
        ]
    }

    /// The second face of the cell of a number.
    pub fn second_face(self, cell: u32) -> [VertexId; 3]
        requires { cell < self.rows * self.columns }
        ensures corners { result ≡ second_face self.rows self.columns (cell / self.columns)
            (cell % self.columns) }
        ensures face { IsFace (self.rows * self.columns) result }
    {
        surf_tori::law_of_tori();
        let row = cell / self.columns;
        let column = cell % self.columns;
        [
            self.vertex(row, column),
            self.vertex(row + 1, column + 1),
            self.vertex(row, column + 1),
        ]
    }

    /// The face of a number: the cell of number `n` has the faces `2 * n` and `2 * n + 1`.
    pub fn face(self, f: u32) -> [VertexId; 3]
        requires { f < 2 * (self.rows * self.columns) }
        ensures corners { result ≡ face_at (torus self.rows self.columns) f }
        ensures face { IsFace (self.rows * self.columns) result }
    {
        let cell = f / 2;
        if f % 2 == 0 {
            self.first_face(cell)
        } else {
            self.second_face(cell)
        }
    }
}
