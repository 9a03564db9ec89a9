//! The texts of certificates that a system of loops or a basis of cycles is least.
//!
//! A certificate is a record of `surf_records`: trees of shortest walks with distances and parents,
//! a tree of faces with depths and sides, the edges that are left, and the cycles of a basis. The
//! records stand below the searches that make them and the checker that reads them; their texts
//! stand here, and the names of the records are offered here too.
//!
//! The text of a certificate of loops has the lines `SURFCERT 1 loops`, `counts V F k` and `tree
//! x`; a line `d p` for each of the V vertices, with its distance and its parent, or `-` in place
//! of the parent; `dual`; a line `depth u v` for each of the F faces, with a depth of at least 1
//! and a side of the face, the lesser end first, or `0 -`; `left`; and a line `u v` for each of the
//! k left edges, each pair greater than the one before. That of a basis begins with `SURFCERT 1
//! basis`, has V trees, that from vertex `x` at place `x`, and ends with `cycles` and k lines of at
//! least one vertex. A line has exactly these tokens. A distance is any whole number of 64 bits,
//! all other numbers have 32. Lines, tokens and comments are those of `surf_text`. What a text is,
//! or its first fault, is one definition over the list of its lines, and [`read_cert`] answers it,
//! fault by fault. What is written is read as what it was written of. Lines that other certificates
//! have too are read and written by functions of their own: counts, words, cycles, the end.
#![tactic(auto)]

mod blank;
mod fault;
mod front;
mod line;
mod next;
mod read;
mod sections;
mod write;

pub use fault::CertText;
pub use front::take_cert;
pub use line::{Counts, read_number};
pub use next::{next_counts, next_word};
pub use read::{read_cert, read_end};
pub use sections::read_cycles;
pub use surf_records::{BasisCert, Cert, DualRows, LoopCert, TreeRows};
pub use write::{write_basis_cert, write_cycles, write_loop_cert};
