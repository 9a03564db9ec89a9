//! Reads a shortest round back off distances over the cover.
ghost use Rattle.std.specs.Prelude.{◌≡◌, ◌<◌, ◌*◌, ◌^◌, ℕ, [], length, slice_index, OnOk};
ghost use Rattle.surf_graphs.specs.Cells.{Split};
ghost use Rattle.surf_surfaces.specs.Walk.{ArePositive};
ghost use Rattle.surf_cover.specs.Networks.{IsCoverable, IsCertifiedBy, IsReadOff};

use crate::network::CoverNetwork;
use surf_base::{NoMemory, VertexId};
use surf_tree::least_tight;

/// The base, and the vertices of a shortest round with a set from there, last first: each is the
/// least from which the way on to those before it in the list is shortest.
pub(crate) fn read_off(
    network: &CoverNetwork<'_>,
    distance: &[u64],
    base: VertexId,
    set: u32,
    list: &mut Vec<VertexId>,
) -> Result<(), NoMemory>
    requires valid { IsCoverable network.now.mesh.now network.now.lengths.now network.now.sets
        network.now.signs.now }
    requires base { base < network.now.mesh.now.vertices }
    requires set { set < network.now.sets }
    requires distances { length distance.now ≡ network.now.mesh.now.vertices * network.now.sets }
    requires fits { (n : ℕ) → n < length distance.now → slice_index distance.now n < 2 ^ 62 }
    requires certified { (d : Split) × IsCertifiedBy network.now.mesh.now network.now.lengths.now d
        network.now.sets network.now.signs.now distance.now base }
    requires positive { ArePositive network.now.mesh.now network.now.lengths.now }
    requires none { list.old.items ≡ [] }
    ensures read { OnOk result (IsReadOff network.now.mesh.now network.now.lengths.now
        network.now.sets network.now.signs.now distance.now base set list.new.items) }
{
    let last = base.number() * network.sets;
    list.push(base)?;
    let mut node = last + set;
    while node != last {
        (node, _) = least_tight(network, distance, node);
        list.push(VertexId::new(node / network.sets))?;
    }
    Ok(())
}
