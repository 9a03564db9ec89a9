//! OFF texts, read and written: a polygon mesh as a keyword, counts, vertex lines and face lines.
//!
//! The format is that of the Geomview manual, "OFF Files", read by lines: one vertex or one face a
//! line, and comments and line ends as in `surf_text`. The eight keywords without `4` and `n` are
//! read. Coordinates and colours stay text: an [`OffText`] keeps their places in the source, lends
//! them as slices of it and copies nothing. The mesh itself is a `Soup` of `surf_soup`. What a text
//! is, or its first fault, is one definition over the list of its lines, and [`read_off`] answers
//! it, fault by fault; [`read_soup`] answers its mesh alone.
#![tactic(auto)]

mod face;
mod faces;
mod fault;
mod head;
mod header;
mod made;
mod numbered;
mod off_places;
mod parts;
mod plain;
mod read;
mod text;
mod vertices;
mod write;

pub use face::write_face;
pub use fault::OffFault;
pub use header::Header;
pub use made::write_soup;
pub use off_places::OffPlaces;
pub use read::{read_off, read_places, read_soup};
pub use text::OffText;
pub use write::{write_head, write_line, write_off};
