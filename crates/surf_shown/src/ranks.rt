//! Ranks of loops: of how many of the first ones a class is a sum.
ghost use Rattle.std.specs.Prelude.{◌≡◌, ◌<◌, ◌≤◌, ◌^◌, ℕ, All, IfOk};
ghost use Rattle.surf_z2.specs.Space.{Independent, numbers};
ghost use Rattle.surf_choice.specs.Candidates.{signatures};
ghost use Rattle.surf_base.specs.declared.limits.TheConstants.{MAX_LOOPS};
ghost use Rattle.surf_shown.specs.Shown.{AreRanks};

use std::alloc::Global;
use surf_base::NoMemory;
use surf_choice::{Candidate, Choice, Signed};

// A loop that is as long as a number.
fn ranked(signed: &Signed, number: u64) -> Signed
    ensures length { result.candidate.length ≡ number }
    ensures signature { result.signature ≡ signed.now.signature }
{
    Signed {
        candidate: Candidate {
            length: number,
            base: signed.candidate.base,
            edge: signed.candidate.edge,
        },
        from: signed.from,
        signature: signed.signature.copy(),
    }
}

// Lists loops, each as long as its number, from 1 on.
fn list_ranked(alloc: Global, loops: &[Signed]) -> Result<Vec<Signed>, NoMemory>
    ensures ranks { IfOk result (λ list. AreRanks loops.now list.items) }
{
    let mut list = Vec::new(alloc);
    for k in 0..loops.len() {
        list.push(ranked(&loops[k], k as u64 + 1))?;
    }
    Ok(list)
}

/// Ranks of independent loops whose signatures have numbers below a width.
pub fn ranks_of(alloc: Global, loops: &[Signed], width: u32) -> Result<Choice, NoMemory>
    requires width { width ≤ MAX_LOOPS }
    requires small { All (λ s. s.signature < 2 ^ width) loops.now }
    requires independent { Independent numbers (signatures loops.now) }
    ensures ranks { IfOk result (λ ranks. AreRanks loops.now ranks.kept) }
    ensures width { IfOk result (λ ranks. ranks.width ≡ width) }
{
    let list = list_ranked(alloc, loops)?;
    let mut ranks = Choice::make(alloc, width)?;
    ranks.keep(&list)?;
    Ok(ranks)
}
