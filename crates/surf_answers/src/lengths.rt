//! Lengths and a base for a surface.
ghost use Rattle.std.specs.Prelude.{◌≡◌, ◌<◌, ◌≤◌, length, IfOk, IfErr};
ghost use Rattle.surf_surfaces.specs.Surface.{edge_count};
ghost use Rattle.surf_lengths.specs.Lengths.{AreLengths};
ghost use Rattle.surf_answers.specs.Tells.{Takes, TakesOver};
ghost use Rattle.surf_answers.specs.Reading.{HasBase, HasLengths, IsLengthText};
ghost use Rattle.surf_base.specs.declared.limits.TheConstants.{MAX_TEXT};

use crate::reading::read_into;
use std::alloc::Global;
use surf_base::{Shelf, VertexId};
use surf_lengths::{Lengths, read_lengths, unit_lengths};
use surf_mesh::HalfMesh;
use surf_texts::Refused;

/// The lengths that a word gives, each from 1 to 4,294,967,295: `unit`, or the name of a length
/// file, which is read in place of an earlier text.
pub fn lengths_named<S: Shelf>(
    alloc: Global,
    shelf: &mut S,
    mut room: Vec<u8>,
    mesh: &HalfMesh,
    word: &str,
) -> Result<Lengths, Refused>
    ensures holds { S.holds shelf.new ≡ S.holds shelf.old }
    ensures later { S.faults shelf.old ≤ S.faults shelf.new }
    ensures tells { TakesOver (S.holds shelf.old) (S.faults shelf.old) (S.faults shelf.new)
        (λ lengths. lengths) (HasLengths word.now mesh.now) result }
    ensures count { IfOk result (λ lengths. length lengths ≡ edge_count mesh.now) }
{
    if word == "unit" {
        drop(room);
        let lengths = unit_lengths(alloc, mesh)?;
        lengths.law_of_lengths();
        return Ok(lengths);
    }
    read_into(shelf, word, &mut room)?;
    lengths_of(alloc, mesh, &room)
}

// The lengths of a text.
fn lengths_of(alloc: Global, mesh: &HalfMesh, bytes: &[u8]) -> Result<Lengths, Refused>
    requires { length bytes.now ≤ MAX_TEXT }
    ensures tells { Takes (λ lengths. lengths) (IsLengthText bytes.now mesh.now) result }
    ensures are { IfOk result AreLengths }
    ensures count { IfOk result (λ lengths. length lengths ≡ edge_count mesh.now) }
{
    let lengths = read_lengths(alloc, bytes, mesh)?;
    lengths.law_of_lengths();
    Ok(lengths)
}

/// The vertex of a number, which is the base.
pub fn base_of(mesh: &HalfMesh, base: u32) -> Result<VertexId, Refused>
    ensures tells { Takes (λ vertex. vertex) (HasBase base mesh.now) result }
    ensures vertex { IfOk result (λ vertex. vertex < mesh.now.vertices) }
    ensures no_vertex { IfErr result (λ e. e ≡ Refused.Base base mesh.now.vertices) }
{
    let vertices = mesh.vertices();
    if base < vertices {
        Ok(VertexId::new(base))
    } else {
        Err(Refused::Base { base, vertices })
    }
}
