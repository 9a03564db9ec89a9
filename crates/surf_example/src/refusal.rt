//! Why there is no basis.
ghost use Rattle.std.specs.Prelude.{◌≡◌};
ghost use Rattle.surf_example.specs.declared.refusal.Refusal.TheVariants.{Text, Surface, Memory};

use surf_base::NoMemory;
use surf_check::SurfaceFault;
use surf_off::OffFault;

/// Why there is no basis.
#[derive(Clone, Copy, Debug, PartialEq, Eq)]
pub enum Refusal {
    /// The text isn't in the format.
    Text(OffFault),
    /// Its faces are no closed surface.
    Surface(SurfaceFault),
    /// It has more than 1,024 independent loops.
    ManyLoops,
    /// There was no memory.
    Memory,
}

impl From<OffFault> for Refusal {
    ghost from_gives = { λ fault e. e ≡ Text fault };

    fn from(fault: OffFault) -> Refusal {
        Refusal::Text(fault)
    }
}

impl From<SurfaceFault> for Refusal {
    ghost from_gives = { λ fault e. e ≡ Surface fault };

    fn from(fault: SurfaceFault) -> Refusal {
        Refusal::Surface(fault)
    }
}

impl From<NoMemory> for Refusal {
    ghost from_gives = { λ _ e. e ≡ Memory };

    fn from(_: NoMemory) -> Refusal {
        Refusal::Memory
    }
}
