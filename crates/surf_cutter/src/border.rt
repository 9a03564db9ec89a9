//! The border of an opened surface, in one round.
ghost use Rattle.std.specs.Prelude.{◌≡◌, ◌<◌, length, replicate, IfOk};
ghost use Rattle.std.specs.Prelude.{slice_index_or, slice_set};
ghost use Rattle.surf_base.specs.Tables.{nobody};
ghost use Rattle.surf_cutter.specs.Boundary.{IsBoundary};
ghost use Rattle.surf_cutter.specs.Opened.{mesh_of, IsOpenedInOrder};
ghost use Rattle.surf_cutter.specs.Rims.{AreRims, AreReaches, sides_of, with_reach, other_reach};

use crate::disc_cut::{Bordered, DiscCut};
use crate::opened::OpenDisc;
use std::alloc::Global;
use surf_base::{NOBODY, NoMemory, SideId};

// A border side at a copy and the copy to which it leads; `NOBODY` where the side is missing yet.
type Reach = (u32, u32);

// Adds a side to the two at a copy, with the copy to which it leads.
fn add_at(rims: &mut [(Reach, Reach)], copy: u32, reach: Reach)
    requires { copy < length rims.old }
    ensures { rims.new ≡ slice_set rims.old copy
        (with_reach (slice_index_or rims.old copy ((0, 0), (0, 0))) reach) }
{
    let (first, second) = rims[copy as usize];
    rims[copy as usize] = if first.0 == NOBODY {
        (reach, second)
    } else {
        (first, reach)
    };
}

// Adds each border side to the two at either of its copies.
fn fill_rims(border: &Bordered<'_>, rims: &mut [(Reach, Reach)])
    requires { rims.old ≡ replicate border.now.vertices ((nobody, 0), (nobody, 0)) }
    ensures rims { AreRims border.now (sides_of rims.new) }
    ensures reaches { AreReaches border.now rims.new }
{
    border.law_of_border();
    for side in border.sides() {
        let (tail, head) = border.corners(*side);
        add_at(rims, tail, (side.number(), head));
        add_at(rims, head, (side.number(), tail));
    }
}

// Of the two border sides at a copy the one that isn't the given one, and where it leads.
fn other_at(rims: &[(Reach, Reach)], copy: u32, side: SideId) -> (SideId, u32)
    requires { copy < length rims.now }
    ensures { result ≡ other_reach (slice_index_or rims.now copy ((0, 0), (0, 0))) side }
{
    let (first, second) = rims[copy as usize];
    let (other, far) = if first.0 == side.number() {
        second
    } else {
        first
    };
    (SideId::new(other), far)
}

// Goes round the border from its least side, until that is met again.
fn go_round(
    alloc: Global,
    border: &Bordered<'_>,
    rims: &[(Reach, Reach)],
) -> Result<Vec<SideId>, NoMemory>
    requires rims { AreRims border.now (sides_of rims.now) }
    requires reaches { AreReaches border.now rims.now }
    ensures { IfOk result (λ v. IsBoundary border.now v.items) }
{
    border.law_of_border();
    let first = border.least();
    let mut round = Vec::with_capacity(alloc, border.sides().len())?;
    round.push(first)?;
    let (_, head) = border.corners(first);
    let (mut side, mut copy) = other_at(rims, head, first);
    while side != first {
        round.push(side)?;
        let (next, far) = other_at(rims, copy, side);
        side = next;
        copy = far;
    }
    Ok(round)
}

// The border in one round, by a table of the two border sides at each copy.
fn round_of(alloc: Global, border: &Bordered<'_>) -> Result<Vec<SideId>, NoMemory>
    ensures { IfOk result (λ v. IsBoundary border.now v.items) }
{
    let copies = border.copies() as usize;
    let mut rims = vec![in alloc; ((NOBODY, 0), (NOBODY, 0)); copies]?;
    fill_rims(border, &mut rims);
    go_round(alloc, border, &rims)
}

/// The border sides of a disc to which a surface is opened, in one round.
pub(crate) fn boundary_along(
    alloc: Global,
    cut: &DiscCut<'_>,
    disc: &OpenDisc,
) -> Result<Vec<SideId>, NoMemory>
    requires { IsOpenedInOrder cut.now.mesh cut.now.marks disc.now }
    ensures { IfOk result (λ v. IsBoundary (mesh_of disc.now) v.items) }
{
    let border = cut.border(alloc, disc)?;
    round_of(alloc, &border)
}
