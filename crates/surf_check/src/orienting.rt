//! A turning of a surface, or a chain that shows that there is none.
ghost use Rattle.std.specs.Prelude.{◌≡◌, ◌<◌, ◌++◌, [], ℕ, length, map, get_or, not, OnOk, IfOk, MatchOption};
ghost use Rattle.std.specs.Prelude.{false, replicate};
ghost use Rattle.surf_surfaces.specs.Surface.{face_count, edge_count, ends, IsOrientation};
ghost use Rattle.surf_surfaces.specs.SideNumber.{side_count, IsEdgeOf};
ghost use Rattle.surf_orientation.specs.Chains.{Fits, misfit, links_up, links_down, tree_chain};
ghost use Rattle.surf_check.specs.Links.{link_of};
ghost use Rattle.surf_check.specs.Growth.{flag_of, IsFlagTree};
ghost use Rattle.surf_check.specs.Oriented.{tree_in, AreSides};

use crate::answers::{Chain, ChainLink, Sides, Turning};
use crate::face_tree::FaceTree;
use crate::growth::{differ, grow};
use std::alloc::Global;
use surf_base::{EdgeId, FaceId, NoMemory, SideId};
use surf_mesh::{HalfMesh, Surface};

// Whether the flags fit the edge of a side.
fn fits(mesh: &Surface, flags: &[bool], side: SideId) -> bool
    requires side { side < side_count mesh.now }
    requires flags { length flags.now ≡ face_count mesh.now }
    ensures { (e : ℕ) → IsEdgeOf mesh.now side e →
        result ≡ not (misfit mesh.now (flag_of flags.now) e) }
{
    mesh.law_of_surface();
    let across = mesh.mate(side);
    let first = mesh.face_of(side);
    let second = mesh.face_of(across);
    let apart = differ(flags[first.index()], flags[second.index()]);
    let same = mesh.tail(side) == mesh.tail(across);
    !differ(apart, same)
}

// The edge of the first side whose edge the flags don't fit.
fn first_misfit(mesh: &Surface, flags: &[bool]) -> Option<EdgeId>
    requires { length flags.now ≡ face_count mesh.now }
    ensures { MatchOption result (IsOrientation mesh.now (flag_of flags.now))
        (λ e. (e < edge_count mesh.now) × (Fits mesh.now (flag_of flags.now) e → ⊥)) }
{
    mesh.law_of_surface();
    for s in 0..mesh.side_count() {
        let side = SideId::new(s);
        if !fits(mesh, flags, side) {
            return Some(mesh.edge_of(side));
        }
    }
    None
}

// The link from a face over an edge.
fn link(mesh: &Surface, face: FaceId, edge: EdgeId) -> ChainLink
    requires { edge < edge_count mesh.now }
    ensures { link_of result ≡ record { face = face; ends = ends mesh.now edge } }
{
    let (u, v) = mesh.ends(edge);
    ChainLink { face, u, v }
}

// Goes from a face up the tree to face 0, and adds the links to a chain.
fn climb(
    mesh: &Surface,
    tree: &FaceTree,
    from: FaceId,
    chain: &mut Vec<ChainLink>,
) -> Result<(), NoMemory>
    requires tree { IsFlagTree mesh.now tree.now }
    requires from { from < face_count mesh.now }
    ensures { OnOk result (map link_of chain.new.items
        ≡ map link_of chain.old.items ++ links_up mesh.now (tree_in tree.now)
        (get_or tree.now.rank.items from 0) from) }
{
    let mut at = from.number();
    while at != 0 {
        let place = at as usize;
        let step = link(mesh, FaceId::new(at), tree.up[place]);
        chain.push(step)?;
        at = tree.parent[place].number();
    }
    Ok(())
}

// The links from face 0 down the tree to a face.
fn descend(
    alloc: Global,
    mesh: &Surface,
    tree: &FaceTree,
    to: FaceId,
) -> Result<Vec<ChainLink>, NoMemory>
    requires tree { IsFlagTree mesh.now tree.now }
    requires to { to < face_count mesh.now }
    ensures { IfOk result (λ v. map link_of v.items ≡ links_down mesh.now (tree_in tree.now)
        (get_or tree.now.rank.items to 0) to []) }
{
    let mut chain = Vec::new(alloc);
    let mut at = to.number();
    while at != 0 {
        let place = at as usize;
        let parent = tree.parent[place];
        let step = link(mesh, parent, tree.up[place]);
        chain.push(step)?;
        at = parent.number();
    }
    chain.reverse();
    Ok(chain)
}

// From face 0 to the one face of an edge, over it, and from the other back to face 0.
fn close(alloc: Global, mesh: &Surface, tree: &FaceTree, edge: EdgeId) -> Result<Chain, NoMemory>
    requires tree { IsFlagTree mesh.now tree.now }
    requires edge { edge < edge_count mesh.now }
    ensures { IfOk result (λ c. c ≡ tree_chain mesh.now (tree_in tree.now) edge) }
{
    mesh.law_of_surface();
    let (first, second) = mesh.faces_of(edge);
    let mut links = descend(alloc, mesh, tree, first)?;
    links.push(link(mesh, first, edge))?;
    climb(mesh, tree, second, &mut links)?;
    Ok(Chain::from_links(links))
}

// A flag for each face, so that none is turned over.
fn no_flags(alloc: Global, mesh: &Surface) -> Result<Vec<bool>, NoMemory>
    ensures { IfOk result (λ flags. flags.items ≡ replicate (face_count mesh.now) false) }
{
    let flags = vec![in alloc; false; mesh.faces() as usize]?;
    Ok(flags)
}

// The turning that turns no face over, if it is one. Most meshes are so, and then need no tree.
fn plain_orientation(alloc: Global, mesh: &Surface) -> Result<Option<Turning>, NoMemory>
    ensures { IfOk result (λ found. let plain = replicate (face_count mesh.now) false in
        MatchOption found (IsOrientation mesh.now (flag_of plain) → ⊥)
        (λ turning. (turning ≡ plain) × IsOrientation mesh.now (flag_of plain))) }
{
    mesh.law_of_surface();
    let flags = no_flags(alloc, mesh)?;
    match first_misfit(mesh, &flags) {
        None => Ok(Some(Turning::from_flags(flags))),
        Some(_) => Ok(None),
    }
}

// A turning of a surface or a one-sided chain, as `orient_surface` answers it, by a tree of the
// faces.
fn orient_by_tree(alloc: Global, mesh: &Surface) -> Result<Sides, NoMemory>
    ensures { IfOk result (λ s. AreSides mesh.now s) }
{
    mesh.law_of_surface();
    let tree = grow(alloc, mesh)?;
    match first_misfit(mesh, &tree.flags) {
        None => Ok(Sides::Two(Turning::from_flags(tree.flags))),
        Some(edge) => Ok(Sides::One(close(alloc, mesh, &tree, edge)?)),
    }
}

/// A turning exactly where the surface has one, and else a one-sided chain, which excludes every
/// turning. The time is linear in the number of sides.
pub fn orient_surface(alloc: Global, mesh: &Surface) -> Result<Sides, NoMemory>
    ensures { IfOk result (λ s. AreSides mesh.now s) }
{
    match plain_orientation(alloc, mesh)? {
        Some(turning) => Ok(Sides::Two(turning)),
        None => orient_by_tree(alloc, mesh),
    }
}

/// A turning exactly where the surface has one, and else a one-sided chain, which excludes every
/// turning. The time is linear in the number of sides.
pub fn orient(alloc: Global, mesh: &HalfMesh) -> Result<Sides, NoMemory>
    ensures { IfOk result (λ s. AreSides mesh.now s) }
{
    orient_surface(alloc, mesh.surface())
}
