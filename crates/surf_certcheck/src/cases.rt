//! Certificates whose parts fit a surface with lengths.
ghost use Rattle.std.specs.Prelude.{◌≡◌, ◌≤◌, length};
ghost use Rattle.surf_surfaces.specs.Surface.{edge_count, loop_count};
ghost use Rattle.surf_validity.specs.Bases.{HasBasisShape};
ghost use Rattle.surf_validity.specs.Valid.{HasShape};
ghost use Rattle.surf_base.specs.declared.limits.TheConstants.{MAX_LOOPS};

use surf_lengths::Lengths;
use surf_mesh::HalfMesh;
use surf_records::{BasisCert, LoopCert};

/// A certificate of loops, whose parts fit a surface with lengths.
#[derive(Drop)]
pub(crate) struct LoopCase<'c> {
    pub(crate) mesh: &'c HalfMesh,
    pub(crate) lengths: &'c Lengths,
    pub(crate) cert: &'c LoopCert,
    ghost measured: { length lengths.now ≡ edge_count mesh.now },
    ghost shape: { HasShape mesh.now cert.now },
}

/// A certificate of a basis, whose parts fit a surface with lengths that has few loops.
#[derive(Drop)]
pub(crate) struct BasisCase<'c> {
    pub(crate) mesh: &'c HalfMesh,
    pub(crate) lengths: &'c Lengths,
    pub(crate) cert: &'c BasisCert,
    ghost measured: { length lengths.now ≡ edge_count mesh.now },
    ghost few: { loop_count mesh.now ≤ MAX_LOOPS },
    ghost shape: { HasBasisShape mesh.now cert.now },
}

impl BasisCase<'_> {
    /// There are few cycles: as many as loops. It does nothing.
    pub(crate) fn law_of_cycles(&self)
        ensures few { length self.now.cert.now.cycles ≤ MAX_LOOPS }
    {}
}
