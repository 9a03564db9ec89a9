//! How the libraries are called, in one function: from the text of a mesh to its shortest basis.
//!
//! `docs/calling.md` goes through it line by line.
#![tactic(auto)]

pub mod refusal;

ghost use Rattle.std.specs.Prelude.{◌<◌, length, replicate, IfOk, IfErr};
ghost use Rattle.surf_surfaces.specs.Surface.{edge_count};
ghost use Rattle.surf_surfaces.specs.ChoiceLaws.{LeastSimpleBasis};
ghost use Rattle.surf_basis.specs.Cycles.{as_loops};
ghost use Rattle.surf_example.specs.Answers.{IsBasisOf, IsMeshRefusal, IsRefusalOf};

pub use refusal::Refusal;
use std::alloc::Global;
use surf_base::MAX_LOOPS;
use surf_basis::{Cycle, least_basis};
use surf_check::check;
use surf_lengths::unit_lengths;
use surf_mesh::HalfMesh;
use surf_off::read_off;

// A shortest basis of a surface, where each edge has the length 1.
fn unit_basis(alloc: Global, mesh: &HalfMesh) -> Result<Vec<Cycle>, Refusal>
    ensures basis { IfOk result (λ cycles. LeastSimpleBasis mesh.now
        (replicate (edge_count mesh.now) 1) (as_loops cycles.items)) }
    ensures refusal { IfErr result (λ refusal. IsMeshRefusal mesh.now refusal) }
{
    let cells = mesh.vertices() as u64 + mesh.faces() as u64;
    if mesh.edges() as u64 + 2 > cells + MAX_LOOPS as u64 {
        return Err(Refusal::ManyLoops);
    }
    let lengths = unit_lengths(alloc, mesh)?;
    let basis = least_basis(alloc, mesh, &lengths)?;
    Ok(basis)
}

/// A shortest basis of the surface in an OFF text, where each edge has the length 1.
///
/// Refuses with the first fault of the text, with the first fault of the surface, or where there
/// are more than 1,024 independent loops. The text is shorter than 2^32 − 1 bytes.
pub fn shortest_basis(alloc: Global, text: &[u8]) -> Result<Vec<Cycle>, Refusal>
    requires short { length text.now < 4294967295 }
    ensures basis { IfOk result (λ cycles. IsBasisOf text.now (as_loops cycles.items)) }
    ensures refusal { IfErr result (λ refusal. IsRefusalOf text.now refusal) }
{
    let (_, soup) = read_off(alloc, text)?;
    let mesh = check(alloc, soup)?;
    unit_basis(alloc, &mesh)
}

#[cfg(test)]
mod tests {
    use super::{Refusal, shortest_basis};

    // The projective plane on six vertices, of which any two are joined by an edge.
    const PLANE: &[u8] = b"OFF 6 10
0 0 0
1 0 0
2 0 0
3 0 0
4 0 0
5 0 0
3 0 1 2
3 0 2 3
3 0 3 4
3 0 4 5
3 0 5 1
3 1 2 4
3 2 3 5
3 3 4 1
3 4 5 2
3 5 1 3
";

    #[test]
    fn the_projective_plane_has_one_cycle_of_three_edges(rt: HostRuntime) {
        let basis = shortest_basis(rt.alloc(), PLANE);
        assert!(rt; matches!(&basis, Ok(cycles) if cycles.len() == 1));
        if let Ok(cycles) = basis {
            for cycle in &cycles {
                assert_eq!(rt; cycle.length, 3);
            }
        }
    }

    #[test]
    fn a_triangle_alone_is_no_surface(rt: HostRuntime) {
        let text = b"OFF 3 1\n0 0 0\n1 0 0\n0 1 0\n3 0 1 2\n";
        let refused = shortest_basis(rt.alloc(), text);
        assert!(rt; matches!(refused, Err(Refusal::Surface(_))));
    }
}
