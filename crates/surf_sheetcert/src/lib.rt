//! The texts of certificates by sheets that a basis of cycles is least.
//!
//! The text of a certificate by sheets has the lines `SURFCERT 2 basis` and `counts V F k`. Where k
//! is 0, nothing stands behind them. Else there are `cycles` and k lines of at least one number, the
//! vertices of a cycle; `cocycles n` and n lines `u v i1 i2 ..`, an edge with u < v and the numbers
//! of its cocycles, each edge greater than the one before, and its numbers rising from 1 to k, at
//! least one; and `sheets s` and s lines `f g w a b m`, the range, the cycle with the places that
//! are the part, and the margin. A line has exactly these tokens. A margin is any whole number of 64
//! bits, all other numbers have 32. Lines, tokens and comments are those of `surf_text`, and faults
//! are those of `surf_cert`. What a text is, or its first fault, is one definition over the list of
//! its lines, and [`read_sheet_cert`] answers it, fault by fault. What is written is read as what it
//! was written of.
//!
//! [`take_any_cert`] reads certificates by trees and by sheets, which their first line tells apart.
#![tactic(auto)]

mod cocycles;
mod kinds;
mod line;
mod next;
mod read;
mod write;

pub use kinds::{AnyCert, take_any_cert};
pub use read::read_sheet_cert;
pub use surf_records::{SheetCert, SheetRow};
pub use write::write_sheet_cert;
