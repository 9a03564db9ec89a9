//! The command `gen`.
ghost use Rattle.std.specs.Prelude.{Some};
ghost use Rattle.surf_base.specs.Outside.{Files};
ghost use Rattle.surf_words.specs.Words.{gen_shape};
ghost use Rattle.surf_answers.specs.Tells.{Concludes};
ghost use Rattle.surf_answers.specs.Commands.{OnRequest};

use crate::meshes::made_of;
use std::alloc::Global;
use surf_answers::{Answered, build, test_faces, test_vertices};
use surf_texts::Refused;
use surf_words::Shape;

/// What `gen` answers: the mesh of a shape. Nothing is made before the limits are tested.
pub fn answer(alloc: Global, shape: Shape) -> Result<Answered, Refused>
    ensures { (files : Files) → Concludes (OnRequest (Some (gen_shape shape)) files) result }
{
    test_vertices(shape)?;
    test_faces(shape)?;
    let soup = build(alloc, shape)?;
    made_of(alloc, &soup)
}
