//! Writes the text of a certificate.
ghost use Rattle.std.specs.Prelude.{◌≡◌, ◌<◌, ◌≤◌, length, flat_map};
ghost use Rattle.std.specs.List.{All, zip};
ghost use Rattle.surf_text.specs.Pages.{Puts};
ghost use Rattle.surf_records.specs.Fits.{LoopFits, BasisFits};
ghost use Rattle.surf_text.specs.Numbers.{numbers_text};
ghost use Rattle.surf_cert.specs.Written.{cert_head_text, vertex_line, face_line, pair_line, cycle_line, tree_text};
ghost use Rattle.surf_cert.specs.Written.{dual_text, left_text, cycles_text, loop_text, basis_text, RereadsLoops};
ghost use Rattle.surf_cert.specs.Written.{RereadsBasis};

use surf_base::VertexId;
use surf_mesh::Walk;
use surf_records::{BasisCert, DualRows, LoopCert, TreeRows};
use surf_text::{Page, PageFault, Piece};

fn write_head(
    page: &mut Page,
    word: &[u8],
    vertices: usize,
    faces: usize,
    left: usize,
) -> Result<(), PageFault>
    ensures puts { Puts page.old page.new (cert_head_text word.now vertices faces left) result }
{
    page.push_pieces(&[
        Piece::Bytes(b"SURFCERT 1 "),
        Piece::Bytes(word),
        Piece::Bytes(b"\ncounts "),
        Piece::Whole(vertices as u128),
        Piece::Bytes(b" "),
        Piece::Whole(faces as u128),
        Piece::Bytes(b" "),
        Piece::Whole(left as u128),
        Piece::Bytes(b"\n"),
    ])
}

fn write_vertex(page: &mut Page, distance: u64, parent: Option<VertexId>) -> Result<(), PageFault>
    ensures puts { Puts page.old page.new (vertex_line (distance, parent)) result }
{
    match parent {
        Some(u) => page.push_pieces(&[
            Piece::Whole(distance as u128),
            Piece::Bytes(b" "),
            Piece::Whole(u.index() as u128),
            Piece::Bytes(b"\n"),
        ]),
        None => page.push_pieces(&[Piece::Whole(distance as u128), Piece::Bytes(b" -\n")]),
    }
}

fn write_vertices(page: &mut Page, tree: &TreeRows) -> Result<(), PageFault>
    requires fits { length page.old.bytes ≤ page.old.most }
    requires same { length tree.now.distance ≡ length tree.now.parent }
    ensures puts { Puts page.old page.new (flat_map vertex_line
        (zip tree.now.distance tree.now.parent)) result }
{
    let distance = tree.distance();
    let parent = tree.parent();
    for v in 0..distance.len() {
        write_vertex(page, distance[v], parent[v])?;
    }
    Ok(())
}

fn write_tree(page: &mut Page, tree: &TreeRows) -> Result<(), PageFault>
    requires same { length tree.now.distance ≡ length tree.now.parent }
    ensures puts { Puts page.old page.new (tree_text tree.now) result }
{
    page.push_pieces(&[
        Piece::Bytes(b"tree "),
        Piece::Whole(tree.base().index() as u128),
        Piece::Bytes(b"\n"),
    ])?;
    write_vertices(page, tree)
}

fn write_face(
    page: &mut Page,
    depth: u32,
    side: Option<(VertexId, VertexId)>,
) -> Result<(), PageFault>
    ensures puts { Puts page.old page.new (face_line (depth, side)) result }
{
    match side {
        Some((u, v)) => page.push_pieces(&[
            Piece::Whole(depth as u128),
            Piece::Bytes(b" "),
            Piece::Whole(u.index() as u128),
            Piece::Bytes(b" "),
            Piece::Whole(v.index() as u128),
            Piece::Bytes(b"\n"),
        ]),
        None => page.push_pieces(&[Piece::Whole(depth as u128), Piece::Bytes(b" -\n")]),
    }
}

fn write_faces(page: &mut Page, dual: &DualRows) -> Result<(), PageFault>
    requires fits { length page.old.bytes ≤ page.old.most }
    requires same { length dual.now.depth ≡ length dual.now.side }
    ensures puts { Puts page.old page.new (flat_map face_line (zip dual.now.depth dual.now.side))
        result }
{
    let depth = dual.depth();
    let side = dual.side();
    for f in 0..depth.len() {
        write_face(page, depth[f], side[f])?;
    }
    Ok(())
}

fn write_dual(page: &mut Page, dual: &DualRows) -> Result<(), PageFault>
    requires same { length dual.now.depth ≡ length dual.now.side }
    ensures puts { Puts page.old page.new (dual_text dual.now) result }
{
    page.push_bytes(b"dual\n")?;
    write_faces(page, dual)
}

fn write_pairs(page: &mut Page, pairs: &[(VertexId, VertexId)]) -> Result<(), PageFault>
    requires fits { length page.old.bytes ≤ page.old.most }
    ensures puts { Puts page.old page.new (flat_map pair_line pairs.now) result }
{
    for (u, v) in pairs {
        page.push_pieces(&[
            Piece::Whole(u.index() as u128),
            Piece::Bytes(b" "),
            Piece::Whole(v.index() as u128),
            Piece::Bytes(b"\n"),
        ])?;
    }
    Ok(())
}

fn write_left(page: &mut Page, left: &[(VertexId, VertexId)]) -> Result<(), PageFault>
    ensures puts { Puts page.old page.new (left_text left.now) result }
{
    page.push_bytes(b"left\n")?;
    write_pairs(page, left)
}

/// Puts the text of a certificate of loops on a page. Its lists fit the lines of a text: as many
/// parents as distances, as many sides as depths, and the left edges increasing.
///
/// Refuses with `Full` where the page would hold more than its bound with the whole text, and with
/// `Memory` where there is none. After a refusal the page holds a front of the text behind its
/// bytes. Read again, the text is this certificate.
pub fn write_loop_cert(page: &mut Page, cert: &LoopCert) -> Result<(), PageFault>
    requires fits { LoopFits cert.now }
    ensures puts { Puts page.old page.new (loop_text cert.now) result }
    ensures reread { RereadsLoops cert.now }
{
    let vertices = cert.tree().distance().len();
    let faces = cert.dual().depth().len();
    write_head(page, b"loops", vertices, faces, cert.left().len())?;
    write_tree(page, cert.tree())?;
    write_dual(page, cert.dual())?;
    write_left(page, cert.left())
}

fn write_trees(page: &mut Page, trees: &[TreeRows]) -> Result<(), PageFault>
    requires fits { length page.old.bytes ≤ page.old.most }
    requires same { All (λ t. length t.distance ≡ length t.parent) trees.now }
    ensures puts { Puts page.old page.new (flat_map tree_text trees.now) result }
{
    for tree in trees {
        write_tree(page, tree)?;
    }
    Ok(())
}

fn write_numbers(page: &mut Page, vertices: &[VertexId]) -> Result<(), PageFault>
    requires fits { length page.old.bytes ≤ page.old.most }
    ensures puts { Puts page.old page.new (numbers_text vertices.now) result }
{
    for v in vertices {
        page.push_pieces(&[Piece::Bytes(b" "), Piece::Whole(v.index() as u128)])?;
    }
    Ok(())
}

fn write_cycle(page: &mut Page, vertices: &[VertexId]) -> Result<(), PageFault>
    requires some { 1 ≤ length vertices.now }
    ensures puts { Puts page.old page.new (cycle_line vertices.now) result }
{
    page.push_whole(vertices[0].index() as u128)?;
    write_numbers(page, &vertices[1..])?;
    page.push_bytes(b"\n")
}

fn write_walks(page: &mut Page, cycles: &[Walk]) -> Result<(), PageFault>
    requires fits { length page.old.bytes ≤ page.old.most }
    requires some { All (λ c. 1 ≤ length c) cycles.now }
    ensures puts { Puts page.old page.new (flat_map cycle_line cycles.now) result }
{
    for cycle in cycles {
        write_cycle(page, cycle.vertices())?;
    }
    Ok(())
}

/// Puts the lines of cycles on a page behind their word, and refuses as `write_loop_cert` does.
pub fn write_cycles(page: &mut Page, cycles: &[Walk]) -> Result<(), PageFault>
    requires some { All (λ c. 1 ≤ length c) cycles.now }
    ensures puts { Puts page.old page.new (cycles_text cycles.now) result }
{
    page.push_bytes(b"cycles\n")?;
    write_walks(page, cycles)
}

/// Puts the text of a certificate of a basis on a page, and refuses as `write_loop_cert` does. Its
/// lists fit the lines of a text: a tree for each vertex, that from vertex `x` at place `x`, with
/// as many rows as there are trees, the left edges increasing, and as many cycles as left edges.
/// Read again, the text is this certificate.
pub fn write_basis_cert(page: &mut Page, cert: &BasisCert) -> Result<(), PageFault>
    requires fits { BasisFits cert.now }
    ensures puts { Puts page.old page.new (basis_text cert.now) result }
    ensures reread { RereadsBasis cert.now }
{
    let vertices = cert.trees().len();
    let faces = cert.dual().depth().len();
    write_head(page, b"basis", vertices, faces, cert.left().len())?;
    write_trees(page, cert.trees())?;
    write_dual(page, cert.dual())?;
    write_left(page, cert.left())?;
    write_cycles(page, cert.cycles())
}
