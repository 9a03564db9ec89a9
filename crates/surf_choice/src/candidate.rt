//! A loop that may be in the basis.
ghost use Rattle.std.specs.Prelude.{◌≡◌};
ghost use Rattle.surf_choice.specs.Candidates.{earlier};

use surf_base::{EdgeId, VertexId};
use surf_bits::Signature;

/// A loop of an edge, by its length, its base and the edge. Candidates are in order of these.
#[derive(Clone, Copy, Debug, PartialEq, Eq, PartialOrd, Ord)]
pub struct Candidate {
    pub length: u64,
    pub base: VertexId,
    pub edge: EdgeId,
}

/// A candidate with the vertex at which its loop was found, and the signature of the loop. The
/// loops that are chosen at a base are found there. A loop that a search found has as its base the
/// least vertex on a shortest walk from where the search began to an end of the edge.
#[derive(Drop)]
pub struct Signed {
    pub candidate: Candidate,
    pub from: VertexId,
    pub signature: Signature,
}

/// Whether a candidate comes before another: by length, then by base, then by edge.
pub fn comes_before(c: &Candidate, d: &Candidate) -> bool
    ensures before { result ≡ earlier c.now d.now }
{
    // (by hand: the derived order is slower, and a choice asks for each of its keys)
    if c.length != d.length {
        return c.length < d.length;
    }
    if c.base != d.base {
        return c.base.number() < d.base.number();
    }
    c.edge.number() < d.edge.number()
}

/// A copy of a candidate with its signature.
pub fn copy_of(signed: &Signed) -> Signed
    ensures same { result ≡ signed.now }
{
    Signed {
        candidate: signed.candidate,
        from: signed.from,
        signature: signed.signature.copy(),
    }
}
