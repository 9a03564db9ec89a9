//! The command `try`.
ghost use Rattle.std.specs.Prelude.{Some};
ghost use Rattle.surf_base.specs.Outside.{Files};
ghost use Rattle.surf_words.specs.Words.{try_shape};
ghost use Rattle.surf_answers.specs.Tells.{Concludes};
ghost use Rattle.surf_answers.specs.Commands.{OnRequest};

use crate::summary::summary_of;
use std::alloc::Global;
use surf_answers::{
    Answered, build_surface, test_faces, test_search, test_shape_loops, test_vertices,
};
use surf_gen::made_lengths;
use surf_texts::Refused;
use surf_words::Shape;

/// What `try` answers: what is found on the surface of a shape, with the lengths that a scatter
/// makes. Nothing is made before the limits are tested.
pub fn answer(alloc: Global, shape: Shape, scatter: u32) -> Result<Answered, Refused>
    ensures { (files : Files) → Concludes (OnRequest (Some (try_shape shape scatter)) files) result }
{
    test_vertices(shape)?;
    test_faces(shape)?;
    test_shape_loops(shape)?;
    test_search(shape)?;
    let mesh = build_surface(alloc, shape)?;
    let lengths = made_lengths(alloc, &mesh, scatter)?;
    summary_of(alloc, &mesh, &lengths)
}
