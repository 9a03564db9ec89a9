//! Texts whose first lines go.
ghost use Rattle.std.specs.Prelude.{◌≡◌, ◌≤◌, ◌+◌, ◌++◌, length, drop, replicate};
ghost use Rattle.std.specs.List.{slice_split};
ghost use Rattle.surf_text.specs.Text.{is_line_end, lines_of, numbered_from};

use surf_text::first_line;

// Where the text stands behind its first lines, so many of which have a token, and how many lines
// these are.
fn find_behind(text: &[u8], count: usize) -> (usize, usize)
    ensures few { result.1 ≤ result.0 }
    ensures inside { result.0 ≤ length text.now }
    ensures lines { numbered_from (result.1 + 1) (slice_split is_line_end (drop result.0 text.now))
        ≡ drop count (lines_of text.now) }
{
    let mut at = 0;
    let mut lines = 0;
    let mut left = count;
    while left > 0 && at < text.len() {
        let line = first_line(&text[at..]);
        at = text.len().min(at + line.len + 1);
        lines += 1;
        if !line.bytes.is_empty() {
            left -= 1;
        }
    }
    (at, lines)
}

// Puts a line end in place of each of the first bytes.
fn put_ends(text: &mut [u8], lines: usize)
    requires inside { lines ≤ length text.old }
    ensures ends { text.new ≡ replicate lines 10 ++ drop lines text.old }
{
    text[..lines].fill(b'\n');
}

// Puts so many line ends in place of the bytes before a place.
fn blank_front(text: &mut Vec<u8>, at: usize, lines: usize)
    requires few { lines ≤ at }
    requires inside { at ≤ length text.old.items }
    ensures blank { text.new.items ≡ replicate lines 10 ++ drop at text.old.items }
{
    let end = text.len();
    put_ends(text, lines);
    text.copy_within(at..end, lines);
    text.truncate(lines + (end - at));
    text.shrink_to_fit();
}

/// Takes so many lines with a token off the front of a text, and their room. A line end stays for
/// each line that goes, so those that stay keep their numbers.
pub(crate) fn drop_lines(text: &mut Vec<u8>, count: usize)
    ensures lines { lines_of text.new.items ≡ drop count (lines_of text.old.items) }
    ensures shorter { length text.new.items ≤ length text.old.items }
{
    let (at, lines) = find_behind(text, count);
    blank_front(text, at, lines);
}
