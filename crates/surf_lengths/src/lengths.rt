//! A length for each edge of a mesh.
ghost use Rattle.std.specs.Prelude.{◌≡◌, ◌≢◌, ◌<◌, ◌^◌, All, length, slice_index, replicate, IfOk};
ghost use Rattle.surf_surfaces.specs.Surface.{edge_count};
ghost use Rattle.surf_lengths.specs.Lengths.{IsLength, AreLengths};

use std::alloc::Global;
use std::marker::Model;
use surf_base::{EdgeId, NoMemory};
use surf_mesh::HalfMesh;

/// A positive whole length for each edge, by edge number.
#[derive(Drop)]
pub struct Lengths {
    values: Vec<u32>,
}

impl Model for Lengths {
    ghost use Rattle.std.specs.Prelude.{ℕ, List, ◌<◌, ◌^◌, length};
    ghost use Rattle.surf_lengths.specs.Lengths.{AreLengths};

    ghost Value = { List ℕ };

    ghost view = { λ l. l.values.items };

    ghost invariant = { λ l. AreLengths l.values.items × (length l.values.items < 2 ^ 32) };
}

// Numbers of 32 bits that aren't 0 are lengths.
fn prove_lengths(values: &[u32])
    requires positive { All (λ n. n ≢ 0) values.now }
    ensures lengths { AreLengths values.now }
{}

impl Lengths {
    /// The lengths of a list: edge `k` has its `k`th number.
    pub fn from_values(values: Vec<u32>) -> Lengths
        requires few { length values.items < 2 ^ 32 }
        requires positive { All (λ n. n ≢ 0) values.items }
        ensures values { result ≡ values.items }
    {
        prove_lengths(&values);
        Lengths { values }
    }

    /// What all lengths keep: each is a length, and their count fits its number. A caller whose
    /// proof rests on that calls it; it does nothing.
    pub fn law_of_lengths(&self)
        ensures lengths { AreLengths self.now }
        ensures few { length self.now < 2 ^ 32 }
    {
        // The use of a field makes the invariant of the type known.
        let _ = &self.values;
    }

    /// How many edges it has lengths for.
    pub fn count(&self) -> u32
        ensures count { result ≡ length self.now }
        ensures lengths { AreLengths self.now }
    {
        self.values.len() as u32
    }

    /// The length of an edge: from 1 to 4,294,967,295.
    pub fn of(&self, e: EdgeId) -> u32
        requires edge { e < length self.now }
        ensures value { result ≡ slice_index self.now e }
        ensures range { IsLength result }
    {
        self.values[e.index()]
    }
}

/// Length 1 for each edge of a mesh.
pub fn unit_lengths(alloc: Global, mesh: &HalfMesh) -> Result<Lengths, NoMemory>
    ensures ones { IfOk result (λ lengths. lengths ≡ replicate (edge_count mesh.now) 1) }
    ensures count { IfOk result (λ lengths. length lengths ≡ edge_count mesh.now) }
{
    let values = vec![in alloc; 1u32; mesh.edges() as usize]?;
    Ok(Lengths::from_values(values))
}
