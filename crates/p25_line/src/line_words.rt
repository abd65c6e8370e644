//! The words of a line: their number, and each by its index.

ghost use Rattle.std.specs.Prelude.{◌≡◌, ◌↔◌, ◌<◌, ◌≤◌, length, slice_get, Err};
ghost use Rattle.p25_line.specs.{Words.{words_or_fault}, declared.fault.LineFault.TheVariants.{Long}};

use super::fault::LineFault;
use super::word_list::{WordList, words_of};
use std::marker::Model;

/// The words of a line: all are counted, and the first 16 are accessible. There is at least one.
#[derive(Clone, Debug, Drop)]
pub struct LineWords<'a> {
    line: &'a [u8],
    words: WordList,
}

impl<'a> Model for LineWords<'a> {
    ghost use Rattle.std.specs.Prelude.{List, ℕ};
    ghost use Rattle.p25_line.specs.Words.{AreWordsOf, parts_of};

    ghost Value = { List (List ℕ) };

    ghost view = { λ s. parts_of s.line.now };

    ghost invariant = { λ s. AreWordsOf s.line.now s.words };
}

impl<'a> LineWords<'a> {
    /// Returns the words of a line, or the reason for refusing it. `Long` is returned if and only if the line has more
    /// than 8,192 octets. `Form` is returned if and only if the line is not longer and is not one or more words of
    /// octets 21 to 7E hex with single spaces between them.
    pub fn read(line: &'a [u8]) -> Result<LineWords<'a>, LineFault>
        ensures words { result ≡ words_or_fault line.now }
        ensures long { (result ≡ Err Long) ↔ (8192 < length line.now) }
    {
        let mut words = WordList::new();
        words_of(line, &mut words)?;
        Ok(LineWords { line, words })
    }

    /// Returns the number of words, at least 1.
    pub fn count(&self) -> usize
        ensures count { result ≡ length self.now }
        ensures some { 0 < result }
    {
        self.words.count()
    }

    /// Returns the first word.
    pub fn first(&self) -> &'a [u8]
        ensures { slice_get self.now 0 ≡ Some result.now }
    {
        self.words.word(self.line, 0)
    }

    /// Returns word `i`, counted from 0, of the first 16. It has at most 8,192 octets.
    pub fn get(&self, i: usize) -> &'a [u8]
        requires held { i < length self.now }
        requires kept { i < 16 }
        ensures word { slice_get self.now i ≡ Some result.now }
        ensures short { length result.now ≤ 8192 }
    {
        self.words.word(self.line, i)
    }
}
