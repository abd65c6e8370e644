//! The positions of the first words of a line, and how many words there are.

ghost use Rattle.std.specs.Prelude.{◌≡◌, ◌+◌, ◌-◌, ◌<◌, ◌≤◌, [], ◌∷◌, ◌++◌, length, take, slice_get, All};
ghost use Rattle.p25_line.specs.Words.{LiesIn, marked, WordsAnswer};

use super::fault::LineFault;
use super::line::LINE_MOST;
use arrayvec::ArrayVec;
use std::marker::Model;

// The most words of a line whose spans are kept.
const WORDS_MOST: usize = 16;

/// The position of a word in its line.
#[derive(Clone, Copy, Debug, Default, PartialEq, Eq)]
pub struct Span {
    /// The position of its first octet, counted from 0.
    pub start: usize,
    /// The number of its octets.
    pub len: usize,
}

/// The spans of the first 16 words of a line, and the number of all its words. The line itself is not kept.
#[derive(Clone, Debug, Drop)]
pub struct WordList {
    spans: ArrayVec<Span, WORDS_MOST>,
    count: usize,
}

impl Model for WordList {
    ghost use Rattle.p25_line.specs.Marks.{Marks};

    ghost Value = { Marks };

    ghost view = { λ s. record { spans = s.spans.items; count = s.count } };
}

impl WordList {
    /// Returns a list of no words.
    pub fn new() -> WordList
        ensures { result ≡ record { spans = []; count = 0 } }
    {
        WordList {
            spans: ArrayVec::new(),
            count: 0,
        }
    }

    /// Returns the number of all words, including those whose spans are not kept.
    pub fn count(&self) -> usize
        ensures { result ≡ self.now.count }
    {
        self.count
    }

    /// Returns word `i`, counted from 0, of the line whose words are kept.
    pub fn word<'a>(&self, line: &'a [u8], i: usize) -> &'a [u8]
        requires held { i < length self.now.spans }
        requires lies { All (LiesIn line.now) self.now.spans }
        ensures { slice_get (marked line.now self.now.spans) i ≡ Some result.now }
    {
        let span = self.spans.as_slice()[i];
        &line[span.start..span.start + span.len]
    }

    // Empties the list.
    fn clear(&mut self)
        ensures { self.new ≡ record { spans = []; count = 0 } }
    {
        self.spans.clear();
        self.count = 0;
    }

    // Counts one more word, and keeps its span if there is capacity.
    fn note(&mut self, start: usize, end: usize)
        requires order { start ≤ end }
        requires count { self.old.count < 8193 }
        ensures count { self.new.count ≡ self.old.count + 1 }
        ensures spans { self.new.spans ≡ take 16 (self.old.spans ++ record { start = start; len = end - start } ∷ []) }
    {
        if !self.spans.is_full() {
            self.spans.push(Span {
                start,
                len: end - start,
            });
        }
        self.count += 1;
    }
}

/// Returns the list of no words.
impl Default for WordList {
    ghost is_default = { λ list. list ≡ record { spans = []; count = 0 } };

    fn default() -> WordList {
        WordList::new()
    }
}

/// Writes to `out` the words of a line, or returns the reason for refusing it. `Long` is returned if and only if the
/// line has more than 8,192 octets. `Form` is returned if and only if the line is not longer and is not one or more
/// words of octets 21 to 7E hex with single spaces between them. After a refusal `out` is empty.
pub fn words_of(line: &[u8], out: &mut WordList) -> Result<(), LineFault>
    ensures { WordsAnswer line.now out.new result }
{
    out.clear();
    if line.len() > LINE_MOST {
        return Err(LineFault::Long);
    }
    let mut start = 0;
    for (i, &octet) in line.iter().enumerate() {
        if octet == b' ' && start < i {
            out.note(start, i);
            start = i + 1;
        } else if !octet.is_ascii_graphic() {
            out.clear();
            return Err(LineFault::Form);
        }
    }
    if start == line.len() {
        out.clear();
        return Err(LineFault::Form);
    }
    out.note(start, line.len());
    Ok(())
}
