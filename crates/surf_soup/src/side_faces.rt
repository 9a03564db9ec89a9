//! The face of each side.
ghost use Rattle.std.specs.Prelude.{◌≡◌, ◌<◌, length, slice_index, IfOk};
ghost use Rattle.surf_surfaces.specs.SideNumber.{owners};

use crate::Soup;
use std::alloc::Global;
use std::marker::Model;
use surf_base::{FaceId, NoMemory, SideId};

/// The face of each side. Where each face has three sides no table of them is kept.
#[derive(Drop)]
pub struct SideFaces {
    kept: FaceTable,
}

// How many triangles there are, or the face of each side.
#[derive(Drop)]
enum FaceTable {
    Triangles(u32),
    Listed(Vec<FaceId>),
}

impl Model for SideFaces {
    ghost use Rattle.std.specs.Prelude.{List, ℕ};
    ghost use Rattle.surf_soup.specs.FaceTables.{kept_faces};

    ghost Value = { List ℕ };

    ghost view = { λ f. kept_faces f.kept };
}

impl SideFaces {
    /// The face of each side of a soup.
    pub fn build(alloc: Global, soup: &Soup) -> Result<SideFaces, NoMemory>
        ensures { IfOk result (λ faces. faces ≡ owners 0 soup.now.faces) }
    {
        soup.law_of_soup();
        let count = soup.faces();
        let kept = if soup.side_count() == 3 * count {
            FaceTable::Triangles(count)
        } else {
            FaceTable::Listed(list_faces(alloc, soup)?)
        };
        Ok(SideFaces { kept })
    }

    /// The face of a side.
    pub fn at(&self, side: SideId) -> FaceId
        requires { side < length self.now }
        ensures { result ≡ slice_index self.now side }
    {
        match &self.kept {
            FaceTable::Triangles(_) => FaceId::new(side.number() / 3),
            FaceTable::Listed(faces) => faces[side.index()],
        }
    }
}

/// The face of each side, listed.
pub(crate) fn list_faces(alloc: Global, soup: &Soup) -> Result<Vec<FaceId>, NoMemory>
    ensures { IfOk result (λ v. v.items ≡ owners 0 soup.now.faces) }
{
    let room = soup.side_count() as usize;
    let mut faces: Vec<FaceId> = Vec::with_capacity(alloc, room)?;
    for f in 0..soup.faces() {
        let id = FaceId::new(f);
        let count = faces.len() + soup.face(id).len();
        faces.resize(count, id)?;
    }
    Ok(faces)
}
