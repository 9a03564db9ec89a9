//! The command `shortest`, also on larger meshes.
ghost use Rattle.std.specs.Prelude.{◌≡◌, ◌≤◌, ◌*◌, ◌^◌, ℕ, List, IfOk, IfErr, Some};
ghost use Rattle.surf_surfaces.specs.Surface.{loop_count};
ghost use Rattle.surf_off.specs.Off.{OffParts};
ghost use Rattle.surf_words.specs.Words.{shortest, large_shortest};
ghost use Rattle.surf_answers.specs.ShortestWalk.{GivesShortestWalk};
ghost use Rattle.surf_answers.specs.Tells.{ConcludesOver, Takes};
ghost use Rattle.surf_answers.specs.Commands.{OnRequest};
ghost use Rattle.surf_answers.specs.Fronts.{OnCovered};
ghost use Rattle.surf_answers.specs.Reading.{HoldsSurface};
ghost use Rattle.surf_answers.specs.Steps.{AtMost};
ghost use Rattle.surf_base.specs.declared.limits.LimitKind.TheVariants.{CoverLoops, CoverNodes};
ghost use Rattle.surf_base.specs.declared.limits.TheConstants.{MAX_LARGE_COVER_LOOPS, MAX_LARGE_COVER_NODES};

use crate::walk::shortest_of;
use std::alloc::Global;
use surf_answers::{
    Answered, at_most, lengths_named, loop_count, surface_through, test_loops, walk_named,
};
use surf_base::{
    LimitKind, MAX_COVER_LOOPS, MAX_COVER_NODES, MAX_LARGE_COVER_LOOPS, MAX_LARGE_COVER_NODES,
    Shelf,
};
use surf_mesh::HalfMesh;
use surf_texts::{Refused, WalkFile};

// What is asked of a surface: the lengths of a word and the walk of a name, where the surface has
// few loops, and few vertices with sets of loops.
#[derive(Clone, Copy)]
struct Asked<'w> {
    lengths: &'w str,
    walk: &'w str,
    most_loops: u32,
    most_nodes: u32,
}

/// What `shortest` answers: the walk that is chosen of the shortest in the class of a walk.
pub fn answer<S: Shelf>(
    alloc: Global,
    shelf: &mut S,
    mesh: &str,
    lengths: &str,
    walk: &str,
) -> Result<Answered, Refused>
    ensures holds { S.holds shelf.new ≡ S.holds shelf.old }
    ensures later { S.faults shelf.old ≤ S.faults shelf.new }
    ensures tells { ConcludesOver (S.holds shelf.old) (S.faults shelf.old) (S.faults shelf.new)
        (OnRequest (Some (shortest mesh.now lengths.now walk.now))) result }
{
    let asked = Asked {
        lengths,
        walk,
        most_loops: MAX_COVER_LOOPS,
        most_nodes: MAX_COVER_NODES,
    };
    answer_within(alloc, shelf, mesh, asked)
}

/// What `shortest` answers on larger meshes.
pub fn answer_large<S: Shelf>(
    alloc: Global,
    shelf: &mut S,
    mesh: &str,
    lengths: &str,
    walk: &str,
) -> Result<Answered, Refused>
    ensures holds { S.holds shelf.new ≡ S.holds shelf.old }
    ensures later { S.faults shelf.old ≤ S.faults shelf.new }
    ensures tells { ConcludesOver (S.holds shelf.old) (S.faults shelf.old) (S.faults shelf.new)
        (OnRequest (Some (large_shortest mesh.now lengths.now walk.now))) result }
{
    let asked = Asked {
        lengths,
        walk,
        most_loops: MAX_LARGE_COVER_LOOPS,
        most_nodes: MAX_LARGE_COVER_NODES,
    };
    answer_within(alloc, shelf, mesh, asked)
}

// What is answered within the limits that are asked for.
fn answer_within<S: Shelf>(
    alloc: Global,
    shelf: &mut S,
    mesh: &str,
    asked: Asked<'_>,
) -> Result<Answered, Refused>
    requires loops { asked.most_loops ≤ MAX_LARGE_COVER_LOOPS }
    requires nodes { asked.most_nodes ≤ MAX_LARGE_COVER_NODES }
    ensures holds { S.holds shelf.new ≡ S.holds shelf.old }
    ensures later { S.faults shelf.old ≤ S.faults shelf.new }
    ensures tells { ConcludesOver (S.holds shelf.old) (S.faults shelf.old) (S.faults shelf.new)
        (λ files. OnCovered asked.entry.most_loops asked.entry.most_nodes mesh.now
        asked.entry.lengths.now asked.entry.walk.now files (λ read. GivesShortestWalk read.1)) result }
{
    let mut room = Vec::new(alloc);
    let mesh = surface_through(alloc, shelf, mesh, &mut room)?;
    answer_on(alloc, shelf, room, &mesh, asked)
}

// What is answered of a surface.
fn answer_on<S: Shelf>(
    alloc: Global,
    shelf: &mut S,
    room: Vec<u8>,
    mesh: &HalfMesh,
    asked: Asked<'_>,
) -> Result<Answered, Refused>
    requires loops { asked.most_loops ≤ MAX_LARGE_COVER_LOOPS }
    requires nodes { asked.most_nodes ≤ MAX_LARGE_COVER_NODES }
    ensures holds { S.holds shelf.new ≡ S.holds shelf.old }
    ensures later { S.faults shelf.old ≤ S.faults shelf.new }
    ensures tells { (name bytes : List ℕ) (parts : OffParts) → HoldsSurface (S.holds shelf.old) name
        bytes (parts, mesh.now) → ConcludesOver (S.holds shelf.old) (S.faults shelf.old)
        (S.faults shelf.new) (λ files. OnCovered asked.entry.most_loops asked.entry.most_nodes name
        asked.entry.lengths.now asked.entry.walk.now files (λ read. GivesShortestWalk read.1)) result }
{
    test_loops(mesh)?;
    test_cover_loops(mesh, asked.most_loops)?;
    test_cover_nodes(mesh, asked.most_nodes)?;
    let lengths = lengths_named(alloc, shelf, room, mesh, asked.lengths)?;
    let walk = walk_named(alloc, shelf, mesh, WalkFile::First, asked.walk)?;
    shortest_of(alloc, mesh, &lengths, &walk)
}

// Whether a surface has few loops for its cover.
fn test_cover_loops(mesh: &HalfMesh, most: u32) -> Result<(), Refused>
    ensures tells { Takes (λ _. tt) (AtMost CoverLoops most (loop_count mesh.now)) result }
    ensures few { IfOk result (λ _. loop_count mesh.now ≤ most) }
    ensures limit { IfErr result (λ e. e ≡ Refused.Limit CoverLoops) }
{
    at_most(
        LimitKind::CoverLoops,
        u128::from(most),
        u128::from(loop_count(mesh.surface())),
    )
}

// Whether there are few pairs of a vertex and a set of loops.
fn test_cover_nodes(mesh: &HalfMesh, most: u32) -> Result<(), Refused>
    requires { loop_count mesh.now ≤ MAX_LARGE_COVER_LOOPS }
    ensures tells { Takes (λ _. tt) (AtMost CoverNodes most
        (mesh.now.vertices * 2 ^ loop_count mesh.now)) result }
    ensures few { IfOk result (λ _. mesh.now.vertices * 2 ^ loop_count mesh.now ≤ most) }
    ensures limit { IfErr result (λ e. e ≡ Refused.Limit CoverNodes) }
{
    let nodes = u64::from(mesh.vertices()) << loop_count(mesh.surface());
    at_most(LimitKind::CoverNodes, u128::from(most), u128::from(nodes))
}
