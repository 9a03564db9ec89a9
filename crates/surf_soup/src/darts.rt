//! The tables by which rounds of the vertices are made.
ghost use Rattle.std.specs.Prelude.{◌≡◌, ◌<◌, ◌+◌, ◌^◌, slice_index};
ghost use Rattle.surf_surfaces.specs.SideNumber.{side_count, first_side, owners};
ghost use Rattle.surf_soup.specs.First.{AreFirstSides};
ghost use Rattle.surf_soup.specs.Ring.{dart_corner, turn_of, nexts, befores, AreDartTables};
ghost use Rattle.surf_soup.specs.Vertices.{all_corners, AllMet};

use crate::Soup;
use crate::side_faces::SideFaces;
use std::marker::Model;
use surf_base::{FaceId, SideId, VertexId};

/// A soup whose edges have two faces each and whose vertices are all in faces, with the face and
/// the mate of each side and the first side of each vertex. It is seen as the soup and the mates.
#[derive(Drop)]
pub(crate) struct Darts<'t> {
    pub(crate) soup: &'t Soup,
    pub(crate) face_of: &'t SideFaces,
    pub(crate) mate: &'t [SideId],
    pub(crate) first: &'t [SideId],
}

impl<'t> Model for Darts<'t> {
    ghost use Rattle.surf_soup.specs.Darts.{DartTables, AreDartsKept};

    ghost Value = { DartTables };

    ghost view = { λ d. record { mesh = d.soup.now; mate = d.mate.now } };

    ghost invariant = { λ d. AreDartsKept d.soup.now d.face_of.now d.mate.now d.first.now };
}

impl<'t> Darts<'t> {
    /// What all darts keep. A caller whose proof rests on that calls it; it does nothing.
    pub(crate) fn law_of_darts(&self)
        ensures tables { AreDartTables self.now.mesh self.now.mate }
        ensures met { AllMet self.now.mesh }
    {
        // The use of a field makes the invariant of the type known.
        let _ = self.mate.len();
    }

    /// How many vertices there are.
    pub(crate) fn vertices(&self) -> u32
        ensures { result ≡ self.now.mesh.vertices }
    {
        self.soup.vertices()
    }

    /// The vertex at which each side begins.
    pub(crate) fn tails(&self) -> &'t [VertexId]
        ensures { result.now ≡ all_corners self.now.mesh }
    {
        self.soup.corners()
    }

    /// The first side of each vertex.
    pub(crate) fn firsts(&self) -> &'t [SideId]
        ensures { AreFirstSides self.now.mesh result.now }
    {
        self.first
    }

    /// The face of a side.
    pub(crate) fn face_at(&self, side: SideId) -> FaceId
        requires { side < side_count self.now.mesh }
        ensures { result ≡ slice_index (owners 0 self.now.mesh.faces) side }
    {
        self.face_of.at(side)
    }

    // Where the sides of a side's face begin, and where they end.
    fn span_at(&self, side: SideId) -> (u32, u32)
        requires { side < side_count self.now.mesh }
        ensures start { result.0
            ≡ first_side self.now.mesh (slice_index (owners 0 self.now.mesh.faces) side) }
        ensures end { result.1
            ≡ first_side self.now.mesh (slice_index (owners 0 self.now.mesh.faces) side + 1) }
        ensures few { result.1 < 2 ^ 30 }
    {
        self.soup.span(self.face_at(side))
    }

    // The mate of a side.
    fn across(&self, side: SideId) -> SideId
        requires { side < side_count self.now.mesh }
        ensures mate { result ≡ slice_index self.now.mate side }
        ensures inside { result < side_count self.now.mesh }
    {
        self.mate[side.index()]
    }

    // The next side of a side, around its face.
    fn next_side(&self, side: SideId) -> SideId
        requires { side < side_count self.now.mesh }
        ensures { result ≡ slice_index (nexts self.now.mesh) side }
    {
        self.law_of_darts();
        let (start, end) = self.span_at(side);
        let next = side.number() + 1;
        if next < end {
            SideId::new(next)
        } else {
            SideId::new(start)
        }
    }

    /// The side before a side, around its face.
    pub(crate) fn side_before(&self, side: SideId) -> SideId
        requires { side < side_count self.now.mesh }
        ensures { result ≡ slice_index (befores self.now.mesh) side }
    {
        let (start, end) = self.span_at(side);
        let number = side.number();
        if number == start {
            SideId::new(end - 1)
        } else {
            SideId::new(number - 1)
        }
    }

    /// Turns a dart to the next one at its vertex, and gives the corner at which that one stands.
    pub(crate) fn turn_dart(&self, side: SideId, head: bool) -> (SideId, bool, SideId)
        requires { side < side_count self.now.mesh }
        ensures dart { (result.0, result.1) ≡ turn_of (nexts self.now.mesh) (befores self.now.mesh)
            self.now.mate (all_corners self.now.mesh) (side, head) }
        ensures corner { result.2 ≡ dart_corner (nexts self.now.mesh) (result.0, result.1) }
    {
        self.law_of_darts();
        let tails = self.tails();
        let across = self.across(side);
        let same = tails[across.index()] == tails[side.index()];
        if same == head {
            let corner = self.next_side(across);
            (corner, false, corner)
        } else {
            let before = self.side_before(across);
            (before, true, across)
        }
    }
}
