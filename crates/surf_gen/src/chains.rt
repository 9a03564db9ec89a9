//! Chains of tori.
ghost use Rattle.std.specs.Prelude.{◌≡◌, ◌≢◌, ◌≤◌, ◌<◌, ◌+◌, ◌-◌, ◌*◌, ◌^◌, ◌++◌, [], ◌∷◌, All, AllPairs, pos, ◌-ℤ◌};
ghost use Rattle.std.specs.Prelude.{length, map, take, drop, slice_index, IfOk, OnOk};
ghost use Rattle.std.specs.List.{range_with_len};
ghost use Rattle.surf_surfaces.specs.Mesh.{characteristic};
ghost use Rattle.surf_surfaces.specs.Surface.{IsSurface};
ghost use Rattle.surf_surfaces.specs.SideNumber.{side_count};
ghost use Rattle.surf_tori.specs.Torus.{torus_faces};
ghost use Rattle.surf_tori.specs.ConnectedSum.{sum_name};
ghost use Rattle.surf_tori.specs.Chain.{joint, chain};
ghost use Rattle.surf_base.specs.declared.limits.TheConstants.{MAX_FACES, MAX_VERTICES};

use crate::grid::Grid;
use std::alloc::Global;
use surf_base::{NoMemory, VertexId};
use surf_soup::Soup;

// Adds the faces of a torus from one number up to another, with the torus's vertices by their
// numbers in the chain.
fn push_faces(
    soup: &mut Soup,
    grid: Grid,
    numbers: &[VertexId],
    from: u32,
    to: u32,
) -> Result<(), NoMemory>
    requires ordered { from ≤ to }
    requires faces { to ≤ 2 * (grid.rows * grid.columns) }
    requires numbers { length numbers.now ≡ grid.rows * grid.columns }
    requires inside { All (λ v. v < soup.old.vertices) numbers.now }
    requires differ { AllPairs (λ u v. u ≢ v) numbers.now }
    requires few_sides { side_count soup.old + 3 * (to - from) < 2 ^ 30 }
    ensures ok { OnOk result (soup.new ≡ record soup.old {
      faces = soup.old.faces ++ map
          (map (slice_index numbers.now)) (take (to - from)
          (drop from (torus_faces grid.rows grid.columns)));
    }) }
    ensures sides { OnOk result (side_count soup.new ≡ side_count soup.old + 3 * (to - from)) }
{
    for f in from..to {
        let [u, v, w] = grid.face(f);
        let corners = [numbers[u.index()], numbers[v.index()], numbers[w.index()]];
        soup.push_face(&corners)?;
    }
    Ok(())
}

// Adds the faces of a torus from one number on, but for the face along which the next torus is
// joined.
fn push_but_joint(
    soup: &mut Soup,
    grid: Grid,
    numbers: &[VertexId],
    from: u32,
) -> Result<(), NoMemory>
    requires rows { 4 ≤ grid.rows }
    requires columns { 4 ≤ grid.columns }
    requires from { from ≤ 1 }
    requires numbers { length numbers.now ≡ grid.rows * grid.columns }
    requires inside { All (λ v. v < soup.old.vertices) numbers.now }
    requires differ { AllPairs (λ u v. u ≢ v) numbers.now }
    requires few_sides { side_count soup.old + 3 * (2 * (grid.rows * grid.columns) - from)
        < 2 ^ 30 }
    ensures ok { OnOk result (soup.new ≡ record soup.old {
      faces = (soup.old.faces ++ map
          (map (slice_index numbers.now)) (take (joint grid.columns - from)
          (drop from (torus_faces grid.rows grid.columns)))) ++ map (map (slice_index numbers.now))
          (take (2 * (grid.rows * grid.columns) - (joint grid.columns + 1))
          (drop (joint grid.columns + 1) (torus_faces grid.rows grid.columns)));
    }) }
{
    let joint = 2 * (2 * grid.columns + 2);
    let end = 2 * (grid.rows * grid.columns);
    push_faces(soup, grid, numbers, from, joint)?;
    push_faces(soup, grid, numbers, joint + 1, end)
}

// The numbers of the next torus's vertices, by those of the torus before. The three corners along
// which they are joined keep their numbers, and all others go on from `start`.
fn renumber(numbers: &mut [VertexId], columns: u32, start: u32)
    requires columns { 1 ≤ columns }
    requires few { start + length numbers.old < 2 ^ 32 }
    requires corners { 3 * columns + 3 < length numbers.old }
    ensures numbers { numbers.new ≡ map (sum_name start (slice_index numbers.old
        (2 * columns + 2) ∷ slice_index numbers.old (3 * columns + 2) ∷ slice_index numbers.old
        (3 * columns + 3) ∷ []) (0 ∷ columns ∷ (columns + 1) ∷ []))
        (range_with_len 0 (length numbers.old)) }
{
    let columns = columns as usize;
    let first = numbers[2 * columns + 2];
    let second = numbers[3 * columns + 2];
    let third = numbers[3 * columns + 3];
    let mut next = start;
    for v in 0..numbers.len() {
        if v == 0 {
            numbers[v] = first;
        } else if v == columns {
            numbers[v] = third;
        } else if v == columns + 1 {
            numbers[v] = second;
        } else {
            numbers[v] = VertexId::new(next);
            next += 1;
        }
    }
}

// The numbers from 0 on.
fn own_numbers(alloc: Global, count: u32) -> Result<Vec<VertexId>, NoMemory>
    ensures numbers { IfOk result (λ numbers. numbers.items ≡ range_with_len 0 count) }
{
    let mut numbers = Vec::with_capacity(alloc, count as usize)?;
    for v in 0..count {
        numbers.push(VertexId::new(v))?;
    }
    Ok(numbers)
}

/// The chain of `g` tori of `a` rows and `b` columns: their connected sum, as in William S. Massey,
/// "Algebraic Topology: An Introduction" (1967). Each is joined to the one before along a triangle
/// that is left out of both.
///
/// Of each torus but the last, the first face of the cell in the third row and the third column is
/// left out, and of each but the first that of the cell in the first row and the first column. Of
/// these two faces, the corners of the second are the first, the third and the second corner of the
/// first. Vertices are numbered torus by torus, each when it is first met, and faces stand torus by
/// torus in their order.
pub fn chain(alloc: Global, g: u32, a: u32, b: u32) -> Result<Soup, NoMemory>
    requires tori { 1 ≤ g }
    requires rows { 4 ≤ a }
    requires columns { 4 ≤ b }
    requires few_vertices { g * (a * b) - 3 * (g - 1) ≤ MAX_VERTICES }
    requires few_faces { 2 * (g * (a * b)) - 2 * (g - 1) ≤ MAX_FACES }
    ensures mesh { IfOk result (λ soup. soup ≡ chain g a b) }
    ensures surface { IsSurface (chain g a b) }
    ensures characteristic { characteristic (chain g a b) ≡ pos 2 -ℤ pos (2 * g) }
{
    surf_tori::law_of_chains();
    let grid = Grid {
        rows: a,
        columns: b,
    };
    let cells = a * b;
    let mut soup = Soup::start(alloc, g * (cells - 3) + 3);
    let mut numbers = own_numbers(alloc, cells)?;
    let mut from = 0;
    let mut start = cells;
    for _torus in 1..g {
        push_but_joint(&mut soup, grid, &numbers, from)?;
        renumber(&mut numbers, b, start);
        from = 1;
        start += cells - 3;
    }
    push_faces(&mut soup, grid, &numbers, from, 2 * cells)?;
    Ok(soup)
}
