//! Texts of answers, put on a page.
ghost use Rattle.std.specs.Prelude.{◌++◌, codes, decimal};
ghost use Rattle.surf_texts.specs.Fills.{Fills};
ghost use Rattle.surf_text.specs.Numbers.{numbers_text};

use surf_base::VertexId;
use surf_text::{Page, PageFault, Piece};

// Puts the vertices of a walk, each behind a space.
fn put_walk(page: &mut Page, walk: &[VertexId]) -> Result<(), PageFault>
    ensures fills { Fills page.old page.new (numbers_text walk.now) result }
{
    for v in walk {
        page.push_pieces(&[Piece::Bytes(b" "), Piece::Whole(v.index() as u128)])?;
    }
    Ok(())
}

/// Puts a line of a word, a length and a walk.
pub fn put_line(
    page: &mut Page,
    word: &[u8],
    length: u64,
    walk: &[VertexId],
) -> Result<(), PageFault>
    ensures fills { Fills page.old page.new (word.now ++ decimal length ++ numbers_text walk.now
        ++ codes "\n") result }
{
    page.push_pieces(&[Piece::Bytes(word), Piece::Whole(length as u128)])?;
    put_walk(page, walk)?;
    page.push_bytes(b"\n")
}

/// Puts a line of a word and how many there are, and one of what they total.
pub(crate) fn put_head(
    page: &mut Page,
    word: &[u8],
    count: usize,
    total: u128,
) -> Result<(), PageFault>
    ensures fills { Fills page.old page.new (word.now ++ decimal count ++ codes "\ntotal "
        ++ decimal total ++ codes "\n") result }
{
    page.push_pieces(&[
        Piece::Bytes(word),
        Piece::Whole(count as u128),
        Piece::Bytes(b"\ntotal "),
        Piece::Whole(total),
        Piece::Bytes(b"\n"),
    ])
}
