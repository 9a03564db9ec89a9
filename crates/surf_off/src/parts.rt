//! Parts of a text, kept by their places.
ghost use Rattle.std.specs.Prelude.{◌≡◌, ◌<◌, ◌≤◌, ◌+◌, ◌^◌, [], ◌∷◌, ◌++◌, length, slice_index_or};
ghost use Rattle.std.specs.Prelude.{OnOk};
ghost use Rattle.std.specs.Prelude.{map, replicate};
ghost use Rattle.surf_off.specs.Seen.{PartList, part_of};
ghost use Rattle.surf_off.specs.Places.{EndWithin};

use std::alloc::{AllocError, Global};
use std::marker::Model;

/// Where a part of a text begins, and how many bytes it has.
#[derive(Clone, Copy, Debug)]
pub(crate) struct Span {
    pub(crate) start: u32,
    pub(crate) len: u32,
}

/// Parts of a text, eight bytes for each. They are seen as the text and the list of the parts.
#[derive(Drop)]
pub(crate) struct Parts<'a> {
    text: &'a [u8],
    spans: Vec<Span>,
}

impl<'a> Model for Parts<'a> {
    ghost use Rattle.std.specs.Prelude.{◌≤◌, ◌+◌, length, map};
    ghost use Rattle.std.specs.List.{All};
    ghost use Rattle.surf_off.specs.Seen.{PartList, part_of};

    ghost Value = { PartList };

    ghost view = { λ s. record {
      text = s.text.now;
      parts = map (part_of s.text.now) s.spans.items;
    } };

    ghost invariant = { λ s. All (λ span. span.start + span.len ≤ length s.text.now)
        s.spans.items };
}

impl<'a> Parts<'a> {
    /// No parts. It takes no memory yet.
    pub(crate) fn none(alloc: Global, text: &'a [u8]) -> Parts<'a>
        ensures none { result ≡ record { text = text.now; parts = [] } }
    {
        Parts {
            text,
            spans: Vec::new(alloc),
        }
    }

    /// The parts of a text that stand at some places.
    pub(crate) fn at(text: &'a [u8], spans: Vec<Span>) -> Parts<'a>
        requires { EndWithin (length text.now) spans.items }
        ensures at { result ≡ record {
          text = text.now;
          parts = map (part_of text.now) spans.items;
        } }
    {
        Parts { text, spans }
    }

    /// What all parts keep: their count fits its number. A caller whose proof rests on that calls
    /// it; it does nothing.
    pub(crate) fn law_of_parts(&self)
        ensures countable { length self.now.parts < 2 ^ 64 }
    {
        // The use of a field makes the invariant of the type known.
        let _ = self.spans.len();
    }

    /// Where they stand.
    pub(crate) fn into_spans(self) -> Vec<Span>
        ensures parts { map (part_of self.entry.text) result.items ≡ self.entry.parts }
        ensures within { EndWithin (length self.entry.text) result.items }
    {
        self.spans
    }

    /// Adds a part at the end.
    pub(crate) fn push(&mut self, span: Span) -> Result<(), AllocError>
        requires within { span.start + span.len ≤ length self.old.text }
        ensures ok { OnOk result (self.new ≡ record self.old {
          parts = self.old.parts ++ part_of self.old.text span ∷ [];
        }) }
    {
        self.spans.push(span)?;
        Ok(())
    }

    /// How many parts there are.
    pub(crate) fn len(&self) -> usize
        ensures count { result ≡ length self.now.parts }
    {
        self.spans.len()
    }

    /// A part.
    pub(crate) fn part(&self, k: usize) -> &'a [u8]
        requires within { k < length self.now.parts }
        ensures part { result.now ≡ slice_index_or self.now.parts k [] }
    {
        let span = self.spans[k];
        let start = span.start as usize;
        &self.text[start..start + span.len as usize]
    }
}

/// The colours of faces, most of which may have none. Those of the faces before the first that has
/// one take no memory. They are seen as the text and the list of all colours.
#[derive(Drop)]
pub(crate) struct Colours<'a> {
    before: usize,
    parts: Parts<'a>,
}

impl<'a> Model for Colours<'a> {
    ghost use Rattle.std.specs.Prelude.{[], ◌++◌, replicate};
    ghost use Rattle.surf_off.specs.Seen.{PartList};

    ghost Value = { PartList };

    ghost view = { λ s. record {
      text = s.parts.text;
      parts = replicate s.before [] ++ s.parts.parts;
    } };
}

impl<'a> Colours<'a> {
    /// The colours of no faces.
    pub(crate) fn none(alloc: Global, text: &'a [u8]) -> Colours<'a>
        ensures none { result ≡ record { text = text.now; parts = [] } }
    {
        Colours {
            before: 0,
            parts: Parts::none(alloc, text),
        }
    }

    /// No colours for some faces, and then parts of a text.
    pub(crate) fn at(before: usize, parts: Parts<'a>) -> Colours<'a>
        ensures { result ≡ record {
          text = parts.entry.text;
          parts = replicate before [] ++ parts.entry.parts;
        } }
    {
        Colours { before, parts }
    }

    /// How many faces come before the first that has one, and where they stand from there on.
    pub(crate) fn into_spans(self) -> (usize, Vec<Span>)
        ensures parts { replicate result.0 [] ++ map (part_of self.entry.text) result.1.items
            ≡ self.entry.parts }
        ensures within { EndWithin (length self.entry.text) result.1.items }
    {
        (self.before, self.parts.into_spans())
    }

    /// Adds the colour of a face, empty where it has none.
    pub(crate) fn push(&mut self, span: Span) -> Result<(), AllocError>
        requires within { span.start + span.len ≤ length self.old.text }
        requires few { length self.old.parts < 2 ^ 32 }
        ensures ok { OnOk result (self.new ≡ record self.old {
          parts = self.old.parts ++ part_of self.old.text span ∷ [];
        }) }
    {
        if span.len == 0 && self.parts.len() == 0 {
            self.before += 1;
            return Ok(());
        }
        self.parts.push(span)
    }

    /// The colour of a face.
    pub(crate) fn colour(&self, f: usize) -> &'a [u8]
        requires within { f < length self.now.parts }
        ensures colour { result.now ≡ slice_index_or self.now.parts f [] }
    {
        if f < self.before {
            b""
        } else {
            self.parts.part(f - self.before)
        }
    }
}
