//! The least face that isn't joined with the first.
ghost use Rattle.std.specs.Prelude.{◌≡◌, ◌<◌, ℕ, IfOk, MatchOption};
ghost use Rattle.std.specs.List.{range_with_len};
ghost use Rattle.surf_surfaces.specs.Surface.{face_count, IsConnected};
ghost use Rattle.surf_soup.specs.Pairs.{HasTwoFaces};
ghost use Rattle.surf_surfaces.specs.SideNumber.{owners};
ghost use Rattle.surf_soup.specs.Half.{AreAllMates};
ghost use Rattle.surf_soup.specs.Apart.{AreFaceRoots, IsLeastApart};

use crate::Soup;
use crate::forest::{join, lone_numbers, second_root};
use crate::side_faces::SideFaces;
use std::alloc::Global;
use surf_base::{FaceId, NoMemory, SideId};

// Joins the faces of each side and of its mate.
fn join_faces(soup: &Soup, mate: &[SideId], face_of: &SideFaces, parents: &mut [u32])
    requires two { HasTwoFaces soup.now }
    requires mates { AreAllMates soup.now mate.now }
    requires faces { face_of.now ≡ owners 0 soup.now.faces }
    requires lone { parents.old ≡ range_with_len 0 (face_count soup.now) }
    ensures { (root : ℕ → ℕ) × AreFaceRoots soup.now parents.new root }
{
    soup.law_of_soup();
    for side in 0..mate.len() {
        let other = mate[side].index();
        if other < side {
            let own = face_of.at(SideId::new(side as u32)).number();
            let across = face_of.at(mate[side]).number();
            join(parents, own, across);
        }
    }
}

/// The least face that isn't joined with face 0.
pub fn find_apart(
    alloc: Global,
    soup: &Soup,
    mate: &[SideId],
    face_of: &SideFaces,
) -> Result<Option<FaceId>, NoMemory>
    requires some { 0 < face_count soup.now }
    requires two { HasTwoFaces soup.now }
    requires mates { AreAllMates soup.now mate.now }
    requires faces { face_of.now ≡ owners 0 soup.now.faces }
    ensures { IfOk result (λ r. MatchOption r (IsConnected soup.now)
        (λ f. IsLeastApart soup.now f)) }
{
    let mut parents = lone_numbers(alloc, soup.faces())?;
    join_faces(soup, mate, face_of, &mut parents);
    match second_root(&parents) {
        None => Ok(None),
        Some(root) => Ok(Some(FaceId::new(root))),
    }
}
