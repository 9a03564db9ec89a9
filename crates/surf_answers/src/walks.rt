//! Walk files.
ghost use Rattle.std.specs.Prelude.{◌≡◌, ◌≤◌, length, IfOk};
ghost use Rattle.surf_surfaces.specs.Walk.{IsClosed};
ghost use Rattle.surf_answers.specs.Tells.{Takes, TakesOver};
ghost use Rattle.surf_answers.specs.Reading.{HasWalk, WalksText};
ghost use Rattle.surf_base.specs.declared.limits.TheConstants.{MAX_TEXT};

use crate::reading::read_file;
use std::alloc::Global;
use surf_base::Shelf;
use surf_class::read_walk;
use surf_mesh::{HalfMesh, Walk};
use surf_texts::{Refused, WalkFile};

/// The closed walk of a mesh that the file of a name gives.
pub fn walk_named<S: Shelf>(
    alloc: Global,
    shelf: &mut S,
    mesh: &HalfMesh,
    file: WalkFile,
    name: &str,
) -> Result<Walk, Refused>
    ensures holds { S.holds shelf.new ≡ S.holds shelf.old }
    ensures later { S.faults shelf.old ≤ S.faults shelf.new }
    ensures tells { TakesOver (S.holds shelf.old) (S.faults shelf.old) (S.faults shelf.new)
        (λ walk. walk) (HasWalk file name.now mesh.now) result }
    ensures closed { IfOk result (IsClosed mesh.now) }
{
    let bytes = read_file(alloc, shelf, name)?;
    walk_of(alloc, mesh, file, &bytes)
}

fn walk_of(alloc: Global, mesh: &HalfMesh, file: WalkFile, bytes: &[u8]) -> Result<Walk, Refused>
    requires { length bytes.now ≤ MAX_TEXT }
    ensures tells { Takes (λ walk. walk) (WalksText file mesh.now bytes.now) result }
    ensures closed { IfOk result (IsClosed mesh.now) }
{
    match read_walk(alloc, bytes, mesh) {
        Ok(walk) => Ok(walk),
        Err(fault) => Err(Refused::Walk { file, fault }),
    }
}
