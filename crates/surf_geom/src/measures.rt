//! The lengths of edges by the coordinates of their ends.
ghost use Rattle.std.specs.Prelude.{◌≡◌, ◌<◌, ◌≤◌, ◌*◌, ◌^◌, ◌-ℤ◌, unsigned_abs, All, drop, length, slice_get, IfOk};
ghost use Rattle.surf_text.specs.Text.{tokens_of};
ghost use Rattle.surf_surfaces.specs.Mesh.{edges};
ghost use Rattle.surf_surfaces.specs.Surface.{edge_count};
ghost use Rattle.surf_lengths.specs.Lengths.{AreLengths};
ghost use Rattle.surf_base.specs.Gives.{Gives};
ghost use Rattle.surf_geom.specs.Lists.{each};
ghost use Rattle.surf_geom.specs.Points.{coordinate, point_of, points_in, square, square_distance, IsNear};
ghost use Rattle.surf_geom.specs.Measures.{fitting, length_of, measures_in};

use crate::points::Point;
use crate::roots::root;
use crate::values::fixed;
use crate::{FixedFault, GeomFault};
use std::alloc::Global;
use surf_base::{EdgeId, VertexId};
use surf_lengths::Lengths;
use surf_mesh::HalfMesh;
use surf_off::OffText;
use surf_text::Tokens;

// The next coordinate of a vertex, which stands at this place of its line.
fn next_coordinate(vertex: VertexId, place: u32, tokens: &mut Tokens<'_>) -> Result<i64, GeomFault>
    ensures coordinate { result ≡ coordinate vertex place (slice_get tokens.old.tokens 0) }
    ensures rest { tokens.new.tokens ≡ drop 1 tokens.old.tokens }
{
    let Some(token) = tokens.next_token() else {
        return Err(GeomFault::Form { vertex, place });
    };
    match fixed(token) {
        Ok(value) => Ok(value),
        Err(FixedFault::Form) => Err(GeomFault::Form { vertex, place }),
        Err(FixedFault::Range) => Err(GeomFault::Range { vertex, place }),
    }
}

// The point of a vertex, by its line.
fn read_point(vertex: VertexId, line: &[u8]) -> Result<Point, GeomFault>
    ensures point { result ≡ point_of vertex (tokens_of line.now) }
{
    let mut tokens = Tokens::over(line);
    let x = next_coordinate(vertex, 0, &mut tokens)?;
    let y = next_coordinate(vertex, 1, &mut tokens)?;
    let z = next_coordinate(vertex, 2, &mut tokens)?;
    Ok(Point { x, y, z })
}

// The points of all vertices.
fn read_points(alloc: Global, vertices: u32, text: &OffText<'_>) -> Result<Vec<Point>, GeomFault>
    requires lines { length text.now.vertex_lines ≡ vertices }
    ensures points { Gives GeomFault.Memory (λ points. points.items) result
        (points_in text.now.vertex_lines) }
    ensures count { IfOk result (λ points. length points.items ≡ vertices) }
{
    let mut points = Vec::with_capacity(alloc, vertices as usize)?;
    for v in 0..vertices {
        let vertex = VertexId::new(v);
        points.push(read_point(vertex, text.vertex_line(vertex))?)?;
    }
    Ok(points)
}

// The square of the difference of two coordinates.
fn square_apart(a: i64, b: i64) -> u128
    requires near { unsigned_abs a < 10 ^ 18 }
    requires other { unsigned_abs b < 10 ^ 18 }
    ensures square { result ≡ square (a -ℤ b) }
    ensures small { result ≤ 4 * 10 ^ 36 }
{
    let difference = u128::from(a.abs_diff(b));
    difference * difference
}

// The square of the distance of two points.
fn square_distance(p: Point, q: Point) -> u128
    requires near { IsNear p }
    requires other { IsNear q }
    ensures square { result ≡ square_distance p q }
{
    square_apart(p.x, q.x) + square_apart(p.y, q.y) + square_apart(p.z, q.z)
}

// The measure of an edge, as its length.
fn fitting_length(u: VertexId, v: VertexId, measure: u64) -> Result<u32, GeomFault>
    ensures length { result ≡ fitting (u, v) measure }
{
    if measure == 0 {
        Err(GeomFault::Zero { u, v })
    } else if measure > u64::from(u32::MAX) {
        Err(GeomFault::Great { u, v })
    } else {
        Ok(measure as u32)
    }
}

// The length of an edge between two of the points, in units with this square.
fn edge_length(points: &[Point], unit: u128, u: VertexId, v: VertexId) -> Result<u32, GeomFault>
    requires from { u < length points.now }
    requires to { v < length points.now }
    requires near { All IsNear points.now }
    requires some { 0 < unit }
    ensures length { result ≡ length_of points.now unit (u, v) }
{
    let square = square_distance(points[u.index()], points[v.index()]);
    fitting_length(u, v, root(square / unit))
}

// The lengths of all edges, in units with this square.
fn edge_lengths(
    alloc: Global,
    mesh: &HalfMesh,
    points: &[Point],
    unit: u128,
) -> Result<Vec<u32>, GeomFault>
    requires points { length points.now ≡ mesh.now.vertices }
    requires near { All IsNear points.now }
    requires some { 0 < unit }
    ensures lengths { Gives GeomFault.Memory (λ lengths. lengths.items) result
        (each (length_of points.now unit) (edges mesh.now)) }
    ensures few { IfOk result (λ lengths. length lengths.items < 2 ^ 32) }
{
    let edges = mesh.edges();
    let mut lengths = Vec::with_capacity(alloc, edges as usize)?;
    for e in 0..edges {
        let (u, v) = mesh.ends(EdgeId::new(e));
        lengths.push(edge_length(points, unit, u, v)?)?;
    }
    Ok(lengths)
}

/// Gives each edge of a mesh its measure as length: the distance of its ends by the first three
/// tokens of their vertex lines, in units of 10^-k, cut to a whole number.
///
/// The coordinates are cut to their fixed values first, and the measure is the greatest whole
/// number of units that is no longer than the distance of these. The first faulty token refuses
/// with `Form` or `Range`, by vertex and place. Where none is faulty, the least edge whose measure
/// isn't from 1 to 4,294,967,295 refuses with `Zero` or `Great`.
pub fn measure(
    alloc: Global,
    mesh: &HalfMesh,
    text: &OffText<'_>,
    k: u32,
) -> Result<Lengths, GeomFault>
    requires lines { length text.now.vertex_lines ≡ mesh.now.vertices }
    requires unit { k ≤ 9 }
    ensures gives { Gives GeomFault.Memory (λ lengths. lengths) result
        (measures_in mesh.now text.now.vertex_lines k) }
    ensures count { IfOk result (λ lengths. length lengths ≡ edge_count mesh.now) }
    ensures lengths { IfOk result AreLengths }
{
    let points = read_points(alloc, mesh.vertices(), text)?;
    let unit = 10u128.pow(2 * (9 - k));
    let lengths = edge_lengths(alloc, mesh, &points, unit)?;
    Ok(Lengths::from_values(lengths))
}
