//! Tori of squares.
ghost use Rattle.std.specs.Prelude.{◌≡◌, ◌≤◌, ◌<◌, ◌+◌, ◌*◌, ◌^◌, ◌++◌, pos, IfOk, OnOk};
ghost use Rattle.surf_surfaces.specs.Mesh.{characteristic};
ghost use Rattle.surf_surfaces.specs.Surface.{IsSurface};
ghost use Rattle.surf_surfaces.specs.SideNumber.{side_count};
ghost use Rattle.surf_tori.specs.Torus.{cell_faces, torus};
ghost use Rattle.surf_base.specs.declared.limits.TheConstants.{MAX_FACES, MAX_VERTICES};

use crate::grid::Grid;
use std::alloc::Global;
use surf_base::NoMemory;
use surf_soup::Soup;

// Adds the two faces of a cell.
fn push_cell(soup: &mut Soup, grid: Grid, cell: u32) -> Result<(), NoMemory>
    requires cell { cell < grid.rows * grid.columns }
    requires vertices { soup.old.vertices ≡ grid.rows * grid.columns }
    requires few_sides { side_count soup.old + 6 < 2 ^ 30 }
    ensures ok { OnOk result (soup.new ≡ record soup.old {
      faces = soup.old.faces ++ cell_faces
          grid.rows grid.columns cell;
    }) }
{
    soup.push_face(&grid.first_face(cell))?;
    soup.push_face(&grid.second_face(cell))
}

/// The torus of `a` rows and `b` columns of squares, each cut into two triangles.
///
/// Vertex `i * b + j` is in row `i` and column `j`. Rows are taken modulo `a`, and columns modulo
/// `b`. For each vertex in order there are two faces, by row and column: `(i, j)`, `(i + 1, j)`,
/// `(i + 1, j + 1)` and `(i, j)`, `(i + 1, j + 1)`, `(i, j + 1)`.
pub fn torus(alloc: Global, a: u32, b: u32) -> Result<Soup, NoMemory>
    requires rows { 3 ≤ a }
    requires columns { 3 ≤ b }
    requires few_vertices { a * b ≤ MAX_VERTICES }
    requires few_faces { 2 * (a * b) ≤ MAX_FACES }
    ensures mesh { IfOk result (λ soup. soup ≡ torus a b) }
    ensures surface { IsSurface (torus a b) }
    ensures characteristic { characteristic (torus a b) ≡ pos 0 }
{
    surf_tori::law_of_tori();
    let grid = Grid {
        rows: a,
        columns: b,
    };
    let mut soup = Soup::start(alloc, a * b);
    for cell in 0..a * b {
        push_cell(&mut soup, grid, cell)?;
    }
    Ok(soup)
}
