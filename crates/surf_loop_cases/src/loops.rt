//! Loops at vertex 0, each edge of length 1.
ghost use Rattle.std.specs.Prelude.{◌<◌, replicate, IfOk};
ghost use Rattle.surf_surfaces.specs.Surface.{edge_count};
ghost use Rattle.surf_loops.specs.Loops.{IsGreedy};

use std::alloc::Global;
use std::test::Fail;
use surf_base::{NoMemory, VertexId};
use surf_lengths::unit_lengths;
use surf_loops::{LoopDesk, LoopHead};
use surf_mesh::HalfMesh;
use surf_samples::{Faces, projective, surface, tetrahedron, torus};

/// A desk with the loops at a vertex.
pub(crate) fn loops_at(alloc: Global, mesh: &HalfMesh, base: VertexId) -> Result<LoopDesk, NoMemory>
    requires { base < mesh.now.vertices }
    ensures { IfOk result (λ desk. IsGreedy mesh.now (replicate (edge_count mesh.now) 1)
        base desk) }
{
    let lengths = unit_lengths(alloc, mesh)?;
    let mut desk = LoopDesk::make(alloc, mesh)?;
    desk.greedy(mesh, &lengths, base);
    Ok(desk)
}

// Whether the loops are those of some edges with lengths, in this order.
fn heads_are(mesh: &HalfMesh, heads: &[LoopHead], want: &[(u32, u32, u64)]) -> bool {
    let mut same = heads.len() == want.len();
    for (head, (u, v, length)) in heads.iter().zip(want) {
        if head.edge.number() >= mesh.edges() {
            return false;
        }
        let (low, high) = mesh.ends(head.edge);
        same = same && low.number() == *u && high.number() == *v && head.length == *length;
    }
    same
}

// Whether the loops at vertex 0 are those of some edges with lengths, where there is such a vertex
// and memory suffices.
fn loops_are(alloc: Global, mesh: &HalfMesh, want: &[(u32, u32, u64)]) -> Option<bool> {
    if mesh.vertices() == 0 {
        return None;
    }
    let desk = loops_at(alloc, mesh, VertexId::new(0)).ok()?;
    Some(heads_are(mesh, desk.heads(), want))
}

#[test]
fn loops_by_their_edges(rt: HostRuntime) -> Result<(), Fail> {
    let alloc = rt.alloc();
    let cases: [(u32, Faces, &[(u32, u32, u64)]); 3] = [
        (4, tetrahedron(), &[]),
        (6, projective(), &[(1, 3, 3)]),
        (9, torus(), &[(1, 2, 3), (3, 6, 3)]),
    ];
    for (vertices, faces, wanted) in cases {
        let mesh = surface(alloc, vertices, faces)?;
        assert_eq!(rt; loops_are(alloc, &mesh, wanted), Some(true));
    }
    Ok(())
}
