//! The loops that are chosen at a base, by a search near it.
ghost use Rattle.std.specs.Prelude.{◌≡◌, ◌<◌, ◌≤◌, ◌^◌, All, OnOk, map, filter, length};
ghost use Rattle.surf_surfaces.specs.Surface.{edge_count, IsSurface};
ghost use Rattle.surf_surfaces.specs.Walk.{ArePositive};
ghost use Rattle.surf_basis.specs.Based.{based_at, AreOffered};
ghost use Rattle.surf_search.specs.Places.{has_length, lengths_at};
ghost use Rattle.surf_finder.specs.Signing.{AreSigned};

use surf_base::{EdgeId, NoMemory, VertexId};
use surf_choice::{Candidate, Choice, Signed, copy_of};
use surf_finder::{Finder, Ties};
use surf_search::keep_loops;

// The greatest of some lengths, and 0 where there is none.
fn greatest_of(lengths: &[u64]) -> u64
    ensures greatest { All (λ n. n ≤ result) lengths.now }
{
    let mut greatest = 0;
    for length in lengths {
        greatest = greatest.max(*length);
    }
    greatest
}

// Lists loops that were found at a vertex as loops of this base.
fn list_based(found: &[Signed], base: VertexId, based: &mut Vec<Signed>) -> Result<(), NoMemory>
    ensures based { OnOk result (based.new.items ≡ map (based_at base) found.now) }
{
    based.clear();
    for signed in found {
        let candidate = Candidate {
            length: signed.candidate.length,
            base,
            edge: signed.candidate.edge,
        };
        based.push(Signed {
            candidate,
            from: signed.from,
            signature: signed.signature.copy(),
        })?;
    }
    Ok(())
}

// Lists those loops that have one of some lengths.
fn list_with(lengths: &[u64], chosen: &[Signed], loops: &mut Vec<Signed>) -> Result<(), NoMemory>
    ensures loops { OnOk result (loops.new.items ≡ filter (λ s. has_length lengths.now
        s.candidate.length) chosen.now) }
{
    loops.clear();
    for signed in chosen {
        if has_length(lengths, signed.candidate.length) {
            loops.push(copy_of(signed))?;
        }
    }
    Ok(())
}

/// Lists the loops that are chosen at a base and have one of some lengths, in order. Of the loops
/// that a search finds there the first independent ones are chosen.
pub(crate) fn loops_at(
    finder: &mut Finder<'_>,
    least: &mut Choice,
    base: VertexId,
    lengths: &[u64],
    based: &mut Vec<Signed>,
    loops: &mut Vec<Signed>,
) -> Result<(), NoMemory>
    requires base { base < finder.old.mesh.vertices }
    requires signed { AreSigned finder.old.mesh finder.old.signs least.old.width }
    requires positive { IsSurface finder.old.mesh × ArePositive finder.old.mesh finder.old.lengths }
    requires few { (finder.old.mesh.vertices < 2 ^ 32) × (edge_count finder.old.mesh ≤ 2 ^ 32) }
    ensures loops { OnOk result (AreOffered finder.old.mesh finder.old.lengths finder.old.signs
        lengths.now base loops.new.items) }
    ensures same { finder.new ≡ finder.old }
    ensures width { least.new.width ≡ least.old.width }
{
    let last = Candidate {
        length: greatest_of(lengths),
        base: VertexId::new(u32::MAX),
        edge: EdgeId::new(0),
    };
    finder.find(base, &Some(last), Ties::LesserEdge, loops)?;
    list_based(loops, base, based)?;
    least.clear();
    keep_loops(based, least)?;
    list_with(lengths, least.kept(), loops)
}

// Lists the lengths of those candidates that are at a base.
pub(crate) fn list_lengths(
    found: &[Signed],
    base: VertexId,
    lengths: &mut Vec<u64>,
) -> Result<(), NoMemory>
    ensures lengths { OnOk result (lengths.new.items ≡ lengths_at found.now base) }
{
    lengths.clear();
    for signed in found {
        if signed.candidate.base == base {
            lengths.push(signed.candidate.length)?;
        }
    }
    Ok(())
}

// Whether a length is among others.
pub(crate) fn has_length(lengths: &[u64], length: u64) -> bool
    ensures has { result ≡ has_length lengths.now length }
{
    lengths.contains(&length)
}
