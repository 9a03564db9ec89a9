//! The text of distances and parents.
ghost use Rattle.std.specs.Prelude.{◌≡◌, ◌<◌, ◌≤◌, ◌+◌, ◌++◌, length, slice_index};
ghost use Rattle.surf_texts.specs.DistanceTexts.{vertex_line, parent_text};
ghost use Rattle.surf_texts.specs.Fills.{Fills};
ghost use Rattle.surf_texts.specs.TreeTexts.{tables_text};
ghost use Rattle.surf_tree.specs.Tables.{parent_of};

use surf_base::VertexId;
use surf_text::{Page, PageFault, Slip};
use surf_tree::TreeDesk;

// What stands for a parent, a hyphen where there is none.
fn put_parent(slip: &mut Slip, parent: Option<VertexId>)
    requires room { 20 + length slip.old ≤ 64 }
    ensures before { slip.new ≡ parent_text parent ++ slip.old }
    ensures short { length slip.new ≤ 20 + length slip.old }
{
    match parent {
        Some(u) => slip.put_whole(u.number() as u64),
        None => slip.put_byte(b'-'),
    }
}

// Makes the line of a vertex, in place of what the slip holds.
fn make_line(slip: &mut Slip, v: VertexId, distance: u64, parent: Option<VertexId>)
    ensures line { slip.new ≡ vertex_line v distance parent }
{
    slip.clear();
    slip.put_byte(b'\n');
    put_parent(slip, parent);
    slip.put_byte(b' ');
    slip.put_whole(distance);
    slip.put_byte(b' ');
    slip.put_whole(v.number() as u64);
}

fn put_vertex(
    page: &mut Page,
    slip: &mut Slip,
    tree: &TreeDesk,
    v: VertexId,
) -> Result<(), PageFault>
    requires distance { v < length tree.now.distances }
    requires parent { v < length tree.now.parents }
    ensures { Fills page.old page.new (vertex_line v (slice_index tree.now.distances v)
        (parent_of tree.now v)) result }
{
    make_line(slip, v, tree.distance(v), tree.parent(v));
    page.push_bytes(slip.bytes())
}

/// Puts a line for each of so many vertices: its number, its distance and its parent.
pub fn put_distances(page: &mut Page, tree: &TreeDesk, vertices: u32) -> Result<(), PageFault>
    requires distances { vertices ≤ length tree.now.distances }
    requires parents { vertices ≤ length tree.now.parents }
    ensures { Fills page.old page.new (tables_text tree.now vertices) result }
{
    let mut slip = Slip::new();
    for v in 0..vertices {
        put_vertex(page, &mut slip, tree, VertexId::new(v))?;
    }
    Ok(())
}
