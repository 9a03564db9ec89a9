//! The slit surface.
ghost use Rattle.std.specs.Prelude.{◌≡◌, ◌<◌, IfOk, true, false, length, slice_index};
ghost use Rattle.std.specs.Prelude.{slice_index_or, slice_set};
ghost use Rattle.surf_surfaces.specs.Surface.{edge_count};
ghost use Rattle.surf_surfaces.specs.SideNumber.{side_count};
ghost use Rattle.surf_slit.specs.Labels.{AreLabels};
ghost use Rattle.surf_slit.specs.Slit.{IsUncutSlit};

use crate::labelling::{label_vertex, label_whole};
use crate::splitting::split_ends;
use std::alloc::Global;
use std::marker::Model;
use surf_base::{CopyId, EdgeId, NoMemory, SideId, VertexId};
use surf_mesh::HalfMesh;

/// A surface with some edges cut, and a label for each corner.
#[derive(Drop)]
pub struct Slit<'m> {
    mesh: &'m HalfMesh,
    cut: Vec<bool>,
    labels: Vec<CopyId>,
    count: u32,
}

impl<'m> Model for Slit<'m> {
    ghost use Rattle.surf_slit.specs.Slit.{CutMesh, IsSlit};

    ghost Value = { CutMesh };

    ghost view = { λ s. record {
      mesh = s.mesh.now;
      cut = s.cut.items;
      labels = s.labels.items;
      count = s.count;
    } };

    ghost invariant = { λ s. IsSlit s.mesh.now s.cut.items s.labels.items s.count };
}

// Labels the corners at all vertices, and says how many labels they have.
fn label_all(mesh: &HalfMesh, cut: &[bool], labels: &mut [CopyId]) -> u32
    requires flags { length cut.now ≡ edge_count mesh.now }
    requires size { length labels.old ≡ side_count mesh.now }
    ensures { AreLabels mesh.now cut.now labels.new result }
{
    mesh.law_of_surface();
    let mut count = 0;
    for v in 0..mesh.vertices() {
        count += label_vertex(mesh, cut, labels, count, VertexId::new(v));
    }
    count
}

/// The labels of a surface that is cut along the edges with a flag, one flag an edge, and how many
/// there are: for each side the label of the corner at which it begins. It takes time in proportion
/// to the surface, however many edges are cut.
pub fn labels_along(
    alloc: Global,
    mesh: &HalfMesh,
    cut: &[bool],
) -> Result<(Vec<CopyId>, u32), NoMemory>
    requires { length cut.now ≡ edge_count mesh.now }
    ensures { IfOk result (λ r. AreLabels mesh.now cut.now r.0.items r.1) }
{
    let mut labels = vec![in alloc; CopyId::new(0); mesh.side_count() as usize]?;
    let count = label_all(mesh, cut, &mut labels);
    Ok((labels, count))
}

impl<'m> Slit<'m> {
    /// The surface with no edge cut. The label of each corner is the number of its vertex.
    pub fn start(alloc: Global, mesh: &'m HalfMesh) -> Result<Slit<'m>, NoMemory>
        ensures { IfOk result (λ s. IsUncutSlit mesh.now s) }
    {
        mesh.law_of_surface();
        let mut labels = vec![in alloc; CopyId::new(0); mesh.side_count() as usize]?;
        let cut = vec![in alloc; false; mesh.edges() as usize]?;
        for v in 0..mesh.vertices() {
            label_whole(mesh, &mut labels, VertexId::new(v));
        }
        let count = mesh.vertices();
        Ok(Slit {
            mesh,
            cut,
            labels,
            count,
        })
    }

    /// The surface cut along the edges with a flag, one flag an edge. It takes time in proportion
    /// to the surface, however many edges are cut.
    pub fn along(alloc: Global, mesh: &'m HalfMesh, cut: &[bool]) -> Result<Slit<'m>, NoMemory>
        requires { length cut.now ≡ edge_count mesh.now }
        ensures mesh { IfOk result (λ s. s.mesh ≡ mesh.now) }
        ensures cut { IfOk result (λ s. s.cut ≡ cut.now) }
    {
        mesh.law_of_surface();
        let flags = cut.to_vec(alloc)?;
        let (labels, count) = labels_along(alloc, mesh, &flags)?;
        Ok(Slit {
            mesh,
            cut: flags,
            labels,
            count,
        })
    }

    /// Cuts an edge besides. It takes no memory.
    pub fn cut_edge(&mut self, e: EdgeId)
        requires edge { e < edge_count self.old.mesh }
        requires uncut { slice_index_or self.old.cut e false ≡ false }
        ensures mesh { self.new.mesh ≡ self.old.mesh }
        ensures cut { self.new.cut ≡ slice_set self.old.cut e true }
    {
        self.cut[e.index()] = true;
        self.count = split_ends(self.mesh, &self.cut, &mut self.labels, self.count, e);
    }

    /// Whether an edge is cut.
    pub fn is_cut(&self, e: EdgeId) -> bool
        requires { e < edge_count self.now.mesh }
        ensures { result ≡ slice_index_or self.now.cut e false }
    {
        self.cut[e.index()]
    }

    /// The label of the corner at which a side begins in listed order.
    pub fn label(&self, s: SideId) -> u32
        requires { s < side_count self.now.mesh }
        ensures { result ≡ slice_index self.now.labels s }
    {
        self.labels[s.index()].number()
    }

    /// How many labels there are. They are the numbers below it.
    pub fn labels(&self) -> u32
        ensures count { result ≡ self.now.count }
        ensures labels { AreLabels self.now.mesh self.now.cut self.now.labels self.now.count }
    {
        self.count
    }
}
