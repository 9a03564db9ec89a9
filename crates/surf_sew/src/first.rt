//! The least copy of each vertex.
ghost use Rattle.std.specs.Prelude.{◌≡◌, ◌<◌, ◌^◌, length};
ghost use Rattle.surf_sew.specs.Sewing.{first_copies};

use surf_base::VertexId;

/// The least copy of each vertex from one on, as far as the table reaches; the number of copies
/// where a vertex has none.
pub(crate) fn list_first(origins: &[VertexId], from: usize, table: &mut [u32])
    requires countable { length origins.now < 2 ^ 32 }
    ensures first { table.new ≡ first_copies origins.now from (length table.old) }
{
    table.fill(origins.len() as u32);
    for c in (0..origins.len()).rev() {
        let v = origins[c].index();
        if from <= v && v - from < table.len() {
            table[v - from] = c as u32;
        }
    }
}
