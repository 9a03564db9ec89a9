//! A page on which a text is made.
ghost use Rattle.std.specs.Prelude.{◌≡◌, ◌<◌, ◌≤◌, ◌+◌, ◌++◌, [], length, decimal, IsErrOf, IfSome, IsTrue};
ghost use Rattle.std.specs.Prelude.{OnErr};
ghost use Rattle.surf_text.specs.Pages.{Puts};
ghost use Rattle.surf_text.specs.Pieces.{piece_text, pieces_text};

use crate::pieces::Piece;
use crate::slip::Slip;
use itoa::Buffer;
use std::alloc::{AllocError, Global};
use std::marker::Model;
use surf_base::make_room;
use thiserror::Error;

/// Why a text was not put on a page.
#[derive(Clone, Copy, Debug, PartialEq, Eq, Error)]
pub enum PageFault {
    /// The page would hold more than it may.
    #[error("the page is full")]
    Full,
    /// There was no memory.
    #[error("no memory")]
    Memory,
}

impl From<AllocError> for PageFault {
    ghost use Rattle.std.specs.Prelude.{◌≡◌};
    ghost use Rattle.surf_text.specs.declared.page.PageFault.TheVariants.{Memory};

    ghost from_gives = { λ _ e. e ≡ Memory };

    fn from(_: AllocError) -> PageFault {
        PageFault::Memory
    }
}

/// A text that grows up to `most` bytes, seen as its bytes and `most`.
#[derive(Drop)]
pub struct Page {
    bytes: Vec<u8>,
    most: u64,
}

impl Model for Page {
    ghost use Rattle.std.specs.Prelude.{◌≤◌, length};
    ghost use Rattle.surf_text.specs.Pages.{PageState};

    ghost Value = { PageState };

    ghost view = { λ s. record { bytes = s.bytes.items; most = s.most } };

    ghost invariant = { λ s. length s.bytes.items ≤ s.most };
}

// Puts a piece before what a slip holds, where that is sure to have room for it, and says whether
// it did.
fn put_piece(slip: &mut Slip, piece: &Piece<'_>) -> bool
    ensures before { IsTrue result → slip.new ≡ piece_text piece.now ++ slip.old }
{
    match piece {
        Piece::Bytes(bytes) => {
            if bytes.len() > slip.room() {
                return false;
            }
            slip.put_bytes(bytes);
            true
        }
        Piece::Whole(n) => {
            if *n > u64::MAX as u128 {
                return false;
            }
            if slip.room() < 20 {
                return false;
            }
            slip.put_whole(*n as u64);
            true
        }
    }
}

// Pieces one after the other on a slip, where that is sure to have room for them.
fn slip_of(pieces: &[Piece<'_>]) -> Option<Slip>
    ensures { IfSome result (λ slip. slip ≡ pieces_text pieces.now) }
{
    let mut slip = Slip::new();
    for k in (0..pieces.len()).rev() {
        if !put_piece(&mut slip, &pieces[k]) {
            return None;
        }
    }
    Some(slip)
}

impl Page {
    /// An empty page. It takes no memory yet.
    pub fn make(alloc: Global, most: u64) -> Page
        ensures empty { result ≡ record { bytes = []; most = most } }
    {
        Page {
            bytes: Vec::new(alloc),
            most,
        }
    }

    /// Takes room for so many bytes more at once, where there is so much. The page stays as it is,
    /// and what is put on it later is put there with this room and without it.
    pub fn take_room(&mut self, more: usize)
        ensures same { self.new ≡ self.old }
    {
        let _ = self.bytes.reserve_exact(more);
    }

    /// Puts bytes at the end. Refuses with `Full` where the page would hold more than `most`, which
    /// is tested first; then with `Memory` where there is none. After a refusal the page is
    /// unchanged.
    pub fn push_bytes(&mut self, bytes: &[u8]) -> Result<(), PageFault>
        ensures puts { Puts self.old self.new bytes.now result }
        ensures full { self.old.most < length self.old.bytes + length bytes.now →
            IsErrOf result PageFault.Full }
        ensures unchanged { OnErr result (self.new ≡ self.old) }
    {
        if bytes.len() as u64 > self.most - self.bytes.len() as u64 {
            return Err(PageFault::Full);
        }
        make_room(&mut self.bytes, bytes.len())?;
        self.bytes.extend_from_slice(bytes)?;
        Ok(())
    }

    /// Puts the decimal text of a number at the end, and refuses as `push_bytes` does.
    pub fn push_whole(&mut self, n: u128) -> Result<(), PageFault>
        ensures puts { Puts self.old self.new (decimal n) result }
        ensures full { self.old.most < length self.old.bytes + length (decimal n) →
            IsErrOf result PageFault.Full }
        ensures unchanged { OnErr result (self.new ≡ self.old) }
    {
        if n <= u64::MAX as u128 {
            let mut slip = Slip::new();
            slip.put_whole(n as u64);
            return self.push_bytes(slip.bytes());
        }
        let mut buffer = Buffer::new();
        self.push_bytes(buffer.format(n).as_bytes())
    }

    fn push_piece(&mut self, piece: &Piece<'_>) -> Result<(), PageFault>
        ensures puts { Puts self.old self.new (piece_text piece.now) result }
    {
        match piece {
            Piece::Bytes(bytes) => self.push_bytes(bytes),
            Piece::Whole(n) => self.push_whole(*n),
        }
    }

    fn push_each(&mut self, pieces: &[Piece<'_>]) -> Result<(), PageFault>
        ensures puts { Puts self.old self.new (pieces_text pieces.now) result }
    {
        let held = self.bytes.len() as u64;
        prove!(held <= self.most);
        for piece in pieces {
            self.push_piece(piece)?;
        }
        Ok(())
    }

    /// Puts pieces at the end, one after the other. Refuses with `Full` where the page would hold
    /// more than `most` with all of them, and with `Memory` where there is none. After a refusal
    /// the page holds a front of their text behind its bytes.
    pub fn push_pieces(&mut self, pieces: &[Piece<'_>]) -> Result<(), PageFault>
        ensures puts { Puts self.old self.new (pieces_text pieces.now) result }
    {
        match slip_of(pieces) {
            Some(slip) => self.push_bytes(slip.bytes()),
            None => self.push_each(pieces),
        }
    }

    /// What a page keeps: it holds no more than its bound. A caller whose proof rests on that calls
    /// it; it does nothing.
    pub fn law_of_page(&self)
        ensures fits { length self.now.bytes ≤ self.now.most }
    {
        // The use of a field makes the invariant of the type known.
        let _ = &self.bytes;
    }

    /// What it holds.
    pub fn bytes(&self) -> &[u8]
        ensures bytes { result.now ≡ self.now.bytes }
        ensures fits { length self.now.bytes ≤ self.now.most }
    {
        &self.bytes
    }

    /// What it holds, taken out of it.
    pub fn into_bytes(self) -> Vec<u8>
        ensures bytes { result.items ≡ self.bytes }
        ensures within { length result.items ≤ self.most }
    {
        let Page { bytes, most: _ } = self;
        bytes
    }
}
