//! Texts in pieces.

/// A piece of a text: bytes, or a number in decimal.
#[derive(Clone, Copy, Debug)]
pub enum Piece<'a> {
    Bytes(&'a [u8]),
    Whole(u128),
}
