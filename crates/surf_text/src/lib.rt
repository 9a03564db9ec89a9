//! Texts of bytes: their lines, tokens and whole numbers, and a page on which a text is made.
//!
//! Lines end at LF or at the end of the text and are numbered from 1. `#` and all after it to the
//! line's end is a comment. Blanks are space, tab and carriage return, and no others. A token is a
//! longest run of bytes that are neither blank nor part of a comment. [`Lines`] walks over the
//! lines that have a token and [`Tokens`] over the tokens of a line; both lend slices of the text
//! and copy nothing. A [`Page`] holds a text that grows up to a bound, and a [`Slip`] a short one
//! that goes on a page at once. A line of words and numbers, as one that says a fault, is
//! [`numbered`].
#![tactic(auto)]

mod lines;
mod number;
mod page;
mod pieces;
mod placed;
mod places;
mod slip;
mod telling;
mod tokens;

pub use lines::{Line, Lines};
pub use number::{front_number, read_whole};
pub use page::{Page, PageFault};
pub use pieces::Piece;
pub use placed::{FirstLine, PlacedLine, PlacedLines, first_line};
pub use slip::Slip;
pub use telling::numbered;
pub use tokens::{Tokens, has_tokens};
