//! Reads a closed walk.
ghost use Rattle.std.specs.Prelude.{◌≡◌, ◌<◌, ◌==◌, ◌^◌, nat_le, not, IfOk, IfSome, length};
ghost use Rattle.std.specs.List.{position};
ghost use Rattle.surf_surfaces.specs.Mesh.{pair_of, among, steps, edges};
ghost use Rattle.surf_surfaces.specs.Walk.{first, last, IsClosed};
ghost use Rattle.surf_base.specs.Gives.{Gives};
ghost use Rattle.surf_class.specs.Walks.{walk_in};

use crate::fault::WalkFault;
use crate::numbers::read_numbers;
use std::alloc::{AllocError, Global};
use surf_base::VertexId;
use surf_mesh::{HalfMesh, Walk};
use surf_text::{Lines, Tokens};

/// The least place of a number that is no vertex.
pub(crate) fn first_stranger(mesh: &HalfMesh, numbers: &[u32]) -> Option<u32>
    requires few { length numbers.now < 2 ^ 32 }
    ensures place { result ≡ position (λ v. nat_le mesh.now.vertices v) numbers.now }
{
    let vertices = mesh.vertices();
    for i in 0..numbers.len() {
        if vertices <= numbers[i] {
            return Some(i as u32);
        }
    }
    None
}

/// Numbers as vertices.
pub(crate) fn as_vertices(alloc: Global, numbers: &[u32]) -> Result<Vec<VertexId>, AllocError>
    ensures vertices { IfOk result (λ v. v.items ≡ numbers.now) }
{
    let mut vertices = Vec::with_capacity(alloc, numbers.len())?;
    for number in numbers {
        vertices.push(VertexId::new(*number))?;
    }
    Ok(vertices)
}

// The least place of a vertex that no edge joins with the next one.
fn first_gap(mesh: &HalfMesh, list: &[VertexId]) -> Option<u32>
    requires few { length list.now < 2 ^ 32 }
    ensures place { result ≡ position (λ s. not (among (pair_of s) (edges mesh.now)))
        (steps list.now) }
{
    for i in 1..list.len() {
        if mesh.find_edge(list[i - 1], list[i]).is_none() {
            return Some(i as u32 - 1);
        }
    }
    None
}

// Whether a list ends with the vertex with which it begins.
fn is_round(list: &[VertexId]) -> bool
    ensures round { result ≡ (first list.now == last list.now) }
{
    match list {
        [first, .., last] => first == last,
        _ => true,
    }
}

/// Reads a closed walk of a mesh: its vertices, the first and the last included, on one line. The
/// text is shorter than 2^32 − 1 bytes.
///
/// Refuses with the first kind of fault, in the order of [`WalkFault`], at its least place, or with
/// `Memory` where there is none. A vertex alone is a closed walk.
pub fn read_walk(alloc: Global, text: &[u8], mesh: &HalfMesh) -> Result<Walk, WalkFault>
    requires short { length text.now < 4294967295 }
    ensures walk { Gives WalkFault.Memory (λ w. w) result (walk_in mesh.now text.now) }
    ensures closed { IfOk result (λ w. IsClosed mesh.now w) }
{
    let mut lines = Lines::over(text);
    let Some(line) = lines.next_line() else {
        return Err(WalkFault::Empty);
    };
    let numbers = read_numbers(alloc, Tokens::over(line.bytes))?;
    if let Some(place) = first_stranger(mesh, &numbers) {
        return Err(WalkFault::NotVertex { place });
    }
    let vertices = as_vertices(alloc, &numbers)?;
    if let Some(place) = first_gap(mesh, &vertices) {
        return Err(WalkFault::NotEdge { place });
    }
    if !is_round(&vertices) {
        return Err(WalkFault::Unclosed);
    }
    match lines.next_line() {
        Some(line) => Err(WalkFault::Trailing { line: line.number }),
        None => Ok(Walk::from_vertices(vertices)),
    }
}
