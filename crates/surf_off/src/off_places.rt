//! Where the parts of an OFF text stand.
ghost use Rattle.std.specs.Prelude.{◌≡◌, ◌≤◌, ◌+◌, ◌<◌, ℕ, List, length, take};
ghost use Rattle.surf_off.specs.Clean.{IsOffParts};
ghost use Rattle.surf_off.specs.Places.{EndWithin, AreWithin, parts_at};

use crate::header::Header;
use crate::parts::{Colours, Parts, Span};
use crate::text::OffText;
use std::marker::Model;

/// The keyword of an OFF text, and the places of its vertex lines and colours: all that an
/// [`OffText`] has but the text. So the text can be cut short behind its parts.
#[derive(Drop)]
pub struct OffPlaces {
    header: Header,
    vertex_lines: Vec<Span>,
    before: usize,
    colours: Vec<Span>,
}

impl Model for OffPlaces {
    ghost use Rattle.surf_off.specs.Places.{Places};

    ghost Value = { Places };

    ghost view = { λ s. record {
      header = s.header;
      vertex_lines = s.vertex_lines.items;
      before = s.before;
      colours = s.colours.items;
    } };
}

// How many bytes of a text some places need.
fn front_of(spans: &[Span]) -> usize
    ensures within { EndWithin result spans.now }
    ensures least { (n : ℕ) → EndWithin n spans.now → result ≤ n }
{
    let mut end = 0usize;
    for span in spans {
        end = end.max(span.start as usize + span.len as usize);
    }
    end
}

impl OffPlaces {
    // The places of parts of one text.
    pub(crate) fn of_parts(
        header: Header,
        vertex_lines: Parts<'_>,
        colours: Colours<'_>,
    ) -> OffPlaces
        requires { colours.text ≡ vertex_lines.text }
        ensures parts { parts_at vertex_lines.entry.text result ≡ record {
          header = header;
          vertex_lines = vertex_lines.entry.parts;
          colours = colours.entry.parts;
        } }
        ensures within { AreWithin (length vertex_lines.entry.text) result }
    {
        let vertex_lines = vertex_lines.into_spans();
        let (before, colours) = colours.into_spans();
        OffPlaces {
            header,
            vertex_lines,
            before,
            colours,
        }
    }

    /// How many bytes of the text the parts need: they stand in its front of this length, and in
    /// none that is shorter.
    pub fn front(&self) -> usize
        ensures within { (text : List ℕ) → AreWithin (length text) self.now →
            AreWithin (length (take result text)) self.now }
        ensures same { (text : List ℕ) → AreWithin (length text) self.now →
            parts_at (take result text) self.now ≡ parts_at text self.now }
        ensures least { (n : ℕ) → AreWithin n self.now → result ≤ n }
    {
        front_of(&self.vertex_lines).max(front_of(&self.colours))
    }

    /// The parts of a text that stand there.
    pub fn over<'a>(self, text: &'a [u8]) -> OffText<'a>
        requires within { AreWithin (length text.now) self }
        requires clean { IsOffParts (parts_at text.now self) }
        ensures parts { result ≡ parts_at text.now self }
    {
        let vertex_lines = Parts::at(text, self.vertex_lines);
        vertex_lines.law_of_parts();
        let colours = Colours::at(self.before, Parts::at(text, self.colours));
        OffText::make(self.header, vertex_lines, colours)
    }
}
