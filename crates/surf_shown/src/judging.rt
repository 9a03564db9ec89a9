//! Whether rounds of searches show that claimed loops have the places of the basis.
ghost use Rattle.std.specs.Prelude.{◌≡◌, ◌≤◌, ℕ, true, All, IfOk, IsTrue, length};
ghost use Rattle.surf_shown.specs.Shown.{AreFirstTo, HavePlaces, IsClaim, IsRound};

use crate::labels::are_served;
use crate::record::{Claim, Round};
use crate::serving::show_records;
use std::alloc::Global;
use surf_base::NoMemory;

// Whether a round shows the numbers from one on that are before its end. The table is for what is
// known of vertices.
fn is_shown(claim: &Claim<'_>, round: &Round<'_>, from: u32, ends: &mut [u32]) -> bool
    requires claim { IsClaim claim.now }
    requires round { IsRound claim.now round.now }
    requires first { AreFirstTo claim.now from }
    requires count { length ends.old ≡ claim.now.mesh.now.vertices }
    ensures first { IsTrue result → AreFirstTo claim.now round.now.end }
    ensures count { length ends.new ≡ length ends.old }
{
    claim.mesh.law_of_surface();
    if round.end < from || claim.loops.len() < round.end as usize {
        return false;
    }
    ends.fill(from);
    show_records(claim, round.records, from, round.end, ends);
    are_served(claim, &round.labels, from, round.end, ends)
}

/// Whether rounds of searches show that claimed loops have the lengths and bases of the
/// basis that is chosen, one by one. Each round shows the numbers behind those of the rounds before
/// it, and its searches are told as they were: `IsRound` says what has to be true of them. Where
/// the answer is no, the loops may have these places all the same. Memory is for one number at each
/// vertex, and for no more it is refused.
pub fn are_shown(alloc: Global, claim: &Claim<'_>, rounds: &[Round<'_>]) -> Result<bool, NoMemory>
    requires claim { IsClaim claim.now }
    requires rounds { All (IsRound claim.now) rounds.now }
    ensures places { IfOk result (λ yes. IsTrue yes → HavePlaces claim.now) }
{
    claim.mesh.law_of_surface();
    let mut ends = vec![in alloc; 0u32; claim.mesh.vertices() as usize]?;
    let mut from = 0;
    for round in rounds {
        if !is_shown(claim, round, from, &mut ends) {
            return Ok(false);
        }
        from = round.end;
    }
    Ok(from as usize == claim.loops.len())
}
