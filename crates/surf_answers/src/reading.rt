//! Files that are reached.
ghost use Rattle.std.specs.Prelude.{◌≡◌, ◌≤◌, ℕ, List, [], length, IfOk, OnOk};
ghost use Rattle.surf_surfaces.specs.Surface.{face_count};
ghost use Rattle.surf_off.specs.Clean.{IsOffParts};
ghost use Rattle.surf_off.specs.Off.{OffParts};
ghost use Rattle.surf_off.specs.Places.{AreWithin, parts_at};
ghost use Rattle.surf_answers.specs.Reading.{Reads, IsMeshText, GivesMesh, IsSurfaceOf, IsSurfaceText};
ghost use Rattle.surf_answers.specs.Reading.{HoldsText, IsTextAt};
ghost use Rattle.surf_answers.specs.Tells.{Takes, TakesOver};
ghost use Rattle.surf_base.specs.declared.limits.TheConstants.{MAX_TEXT};

use std::alloc::Global;
use surf_base::{FetchFault, LimitKind, MAX_TEXT, Shelf, fetch_into, reuse_room};
use surf_check::{Kind, check, check_kind};
use surf_mesh::HalfMesh;
use surf_off::{OffPlaces, OffText, read_off, read_places, read_soup};
use surf_soup::Soup;
use surf_texts::Refused;

// The most room that `reuse_room` can make the C library keep in its heap. There the tables of a
// surface take the places of earlier blocks that went, whose pages were touched already; a block of
// 2^25 bytes or more, with its head, is a mapping of its own, which goes back to the system.
const LASTING: usize = (1 << 25) - (1 << 13);

/// The bytes of the file of a name, in place of those of an earlier text.
pub(crate) fn read_into<S: Shelf>(
    shelf: &mut S,
    name: &str,
    room: &mut Vec<u8>,
) -> Result<(), Refused>
    ensures holds { S.holds shelf.new ≡ S.holds shelf.old }
    ensures later { S.faults shelf.old ≤ S.faults shelf.new }
    ensures most { OnOk result (length room.new.items ≤ MAX_TEXT) }
    ensures tells { TakesOver (S.holds shelf.old) (S.faults shelf.old) (S.faults shelf.new)
        (λ _. room.new.items) (Reads name.now) result }
{
    match fetch_into(shelf, name, MAX_TEXT, room) {
        Ok(()) => Ok(()),
        Err(FetchFault::Failed) => Err(Refused::Read),
        Err(FetchFault::TooLong) => Err(Refused::Limit(LimitKind::Text)),
        Err(FetchFault::Memory) => Err(Refused::Memory),
    }
}

/// The bytes of the file of a name.
pub fn read_file<S: Shelf>(alloc: Global, shelf: &mut S, name: &str) -> Result<Vec<u8>, Refused>
    ensures holds { S.holds shelf.new ≡ S.holds shelf.old }
    ensures later { S.faults shelf.old ≤ S.faults shelf.new }
    ensures most { IfOk result (λ bytes. length bytes.items ≤ MAX_TEXT) }
    ensures tells { TakesOver (S.holds shelf.old) (S.faults shelf.old) (S.faults shelf.new)
        (λ bytes. bytes.items) (Reads name.now) result }
{
    let mut bytes = Vec::new(alloc);
    read_into(shelf, name, &mut bytes)?;
    Ok(bytes)
}

/// The parts and the faces of the text of a mesh.
pub fn read_mesh(alloc: Global, bytes: &[u8]) -> Result<(OffText<'_>, Soup), Refused>
    requires { length bytes.now ≤ MAX_TEXT }
    ensures tells { Takes (λ read. read) (IsMeshText bytes.now) result }
    ensures lines { IfOk result (λ read. length read.0.vertex_lines ≡ read.1.vertices) }
    ensures colours { IfOk result (λ read. length read.0.colours ≡ face_count read.1) }
{
    let read = read_off(alloc, bytes)?;
    Ok(read)
}

// The faces of the text of a mesh.
fn soup_of(alloc: Global, bytes: &[u8]) -> Result<Soup, Refused>
    requires { length bytes.now ≤ MAX_TEXT }
    ensures { Takes (λ soup. soup) (GivesMesh bytes.now) result }
{
    let soup = read_soup(alloc, bytes)?;
    Ok(soup)
}

/// The surface that faces are.
pub fn surface_of(alloc: Global, soup: Soup) -> Result<HalfMesh, Refused>
    ensures { Takes (λ mesh. mesh) (IsSurfaceOf soup) result }
{
    reuse_room(alloc, LASTING);
    let mesh = check(alloc, soup)?;
    Ok(mesh)
}

/// Where the parts of the text of a mesh stand, and the surface. Of the text the front that has the
/// parts is kept.
pub fn read_front(alloc: Global, bytes: &mut Vec<u8>) -> Result<(OffPlaces, HalfMesh), Refused>
    requires { length bytes.old.items ≤ MAX_TEXT }
    ensures tells { Takes (λ read. (parts_at bytes.new.items read.0, read.1))
        (IsSurfaceText bytes.old.items) result }
    ensures within { IfOk result (λ read. AreWithin (length bytes.new.items) read.0) }
    ensures least { IfOk result (λ read. (n : ℕ) → AreWithin n read.0
        → length bytes.new.items ≤ n) }
    ensures clean { IfOk result (λ read. IsOffParts (parts_at bytes.new.items read.0)) }
    ensures lines { IfOk result (λ read.
        length (parts_at bytes.new.items read.0).vertex_lines ≡ read.1.vertices) }
    ensures colours { IfOk result (λ read.
        length (parts_at bytes.new.items read.0).colours ≡ face_count read.1) }
{
    let (places, soup) = read_places(alloc, bytes)?;
    keep_front(&places, bytes);
    let mesh = surface_of(alloc, soup)?;
    Ok((places, mesh))
}

// Cuts a text short behind the last of its parts that stand at some places.
fn keep_front(places: &OffPlaces, bytes: &mut Vec<u8>)
    requires within { AreWithin (length bytes.old.items) places.now }
    ensures within { AreWithin (length bytes.new.items) places.now }
    ensures same { parts_at bytes.new.items places.now ≡ parts_at bytes.old.items places.now }
    ensures least { (n : ℕ) → AreWithin n places.now → length bytes.new.items ≤ n }
{
    bytes.truncate(places.front());
    bytes.shrink_to_fit();
}

// The faces in the text of the file of a name, which is read in place of an earlier text.
fn mesh_through<S: Shelf>(
    alloc: Global,
    shelf: &mut S,
    name: &str,
    room: &mut Vec<u8>,
) -> Result<Soup, Refused>
    ensures holds { S.holds shelf.new ≡ S.holds shelf.old }
    ensures later { S.faults shelf.old ≤ S.faults shelf.new }
    ensures tells { TakesOver (S.holds shelf.old) (S.faults shelf.old) (S.faults shelf.new)
        (λ soup. soup) (IsTextAt IsMeshText name.now) result }
    ensures held { IfOk result (λ soup. (bytes : List ℕ) × (parts : OffParts)
        × HoldsText IsMeshText (S.holds shelf.new) name.now bytes (parts, soup)) }
{
    read_into(shelf, name, room)?;
    soup_of(alloc, room)
}

/// The faces in the text of the file of a name. The text is kept no longer.
pub fn mesh_at<S: Shelf>(alloc: Global, shelf: &mut S, name: &str) -> Result<Soup, Refused>
    ensures holds { S.holds shelf.new ≡ S.holds shelf.old }
    ensures later { S.faults shelf.old ≤ S.faults shelf.new }
    ensures tells { TakesOver (S.holds shelf.old) (S.faults shelf.old) (S.faults shelf.new)
        (λ soup. soup) (IsTextAt IsMeshText name.now) result }
    ensures held { IfOk result (λ soup. (bytes : List ℕ) × (parts : OffParts)
        × HoldsText IsMeshText (S.holds shelf.new) name.now bytes (parts, soup)) }
{
    let mut room = Vec::new(alloc);
    mesh_through(alloc, shelf, name, &mut room)
}

/// The surface in the text of the file of a name. The text is kept no longer than its faces are
/// read.
pub fn surface_at<S: Shelf>(alloc: Global, shelf: &mut S, name: &str) -> Result<HalfMesh, Refused>
    ensures holds { S.holds shelf.new ≡ S.holds shelf.old }
    ensures later { S.faults shelf.old ≤ S.faults shelf.new }
    ensures tells { TakesOver (S.holds shelf.old) (S.faults shelf.old) (S.faults shelf.new)
        (λ mesh. mesh) (IsTextAt IsSurfaceText name.now) result }
    ensures held { IfOk result (λ mesh. (bytes : List ℕ) × (parts : OffParts)
        × HoldsText IsSurfaceText (S.holds shelf.new) name.now bytes (parts, mesh)) }
{
    let soup = mesh_at(alloc, shelf, name)?;
    surface_of(alloc, soup)
}

/// The surface in the text of the file of a name, read by way of a lent buffer: its room is kept
/// for the text of the next file.
pub fn surface_through<S: Shelf>(
    alloc: Global,
    shelf: &mut S,
    name: &str,
    room: &mut Vec<u8>,
) -> Result<HalfMesh, Refused>
    ensures holds { S.holds shelf.new ≡ S.holds shelf.old }
    ensures later { S.faults shelf.old ≤ S.faults shelf.new }
    ensures tells { TakesOver (S.holds shelf.old) (S.faults shelf.old) (S.faults shelf.new)
        (λ mesh. mesh) (IsTextAt IsSurfaceText name.now) result }
    ensures held { IfOk result (λ mesh. (bytes : List ℕ) × (parts : OffParts)
        × HoldsText IsSurfaceText (S.holds shelf.new) name.now bytes (parts, mesh)) }
{
    let soup = mesh_through(alloc, shelf, name, room)?;
    surface_of(alloc, soup)
}

// Room for a text whose pages stay when it goes, for the tables that are made then. Where there is
// none, the text grows from nothing.
fn lasting_room(alloc: Global) -> Vec<u8>
    ensures { result.items ≡ [] }
{
    reuse_room(alloc, LASTING);
    match Vec::with_capacity(alloc, LASTING) {
        Ok(room) => room,
        Err(_) => Vec::new(alloc),
    }
}

// The faces in the text of the file of a name. The text is kept no longer, and what is made next
// takes its place.
fn mesh_before_tables<S: Shelf>(alloc: Global, shelf: &mut S, name: &str) -> Result<Soup, Refused>
    ensures holds { S.holds shelf.new ≡ S.holds shelf.old }
    ensures later { S.faults shelf.old ≤ S.faults shelf.new }
    ensures tells { TakesOver (S.holds shelf.old) (S.faults shelf.old) (S.faults shelf.new)
        (λ soup. soup) (IsTextAt IsMeshText name.now) result }
    ensures held { IfOk result (λ soup. (bytes : List ℕ) × (parts : OffParts)
        × HoldsText IsMeshText (S.holds shelf.new) name.now bytes (parts, soup)) }
{
    let mut room = lasting_room(alloc);
    mesh_through(alloc, shelf, name, &mut room)
}

// The surface that faces are, for what asks only of its kind.
fn kind_of(alloc: Global, soup: Soup) -> Result<Kind, Refused>
    ensures { Takes (λ kind. kind) (IsSurfaceOf soup) result }
{
    let kind = check_kind(alloc, soup)?;
    Ok(kind)
}

/// The surface in the text of the file of a name, for what asks only of its kind.
pub fn kind_at<S: Shelf>(alloc: Global, shelf: &mut S, name: &str) -> Result<Kind, Refused>
    ensures holds { S.holds shelf.new ≡ S.holds shelf.old }
    ensures later { S.faults shelf.old ≤ S.faults shelf.new }
    ensures tells { TakesOver (S.holds shelf.old) (S.faults shelf.old) (S.faults shelf.new)
        (λ kind. kind) (IsTextAt IsSurfaceText name.now) result }
    ensures held { IfOk result (λ kind. (bytes : List ℕ) × (parts : OffParts)
        × HoldsText IsSurfaceText (S.holds shelf.new) name.now bytes (parts, kind)) }
{
    let soup = mesh_before_tables(alloc, shelf, name)?;
    kind_of(alloc, soup)
}
