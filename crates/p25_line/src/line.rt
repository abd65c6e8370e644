//! A line of text of bounded length, and the calls that append words and numbers to it.

ghost use Rattle.std.specs.Prelude.{◌≡◌, ℕ, ◌+◌, ◌*◌, ◌<◌, ◌≤◌, ◌==◌, List, [], ◌++◌, length, take, decimal};
ghost use Rattle.hex.specs.Hex.{encode_lower};
ghost use Rattle.p25_line.specs.{Octets.{octets_text}, Values.{three_digits}};

use crate::decimal::{DIGITS_MOST, decimal_text};
use std::marker::Model;

/// The most octets of a line.
pub const LINE_MOST: usize = 8_192;

/// A text of at most 8,192 octets.
#[derive(Clone, Drop)]
pub struct Line {
    text: [u8; 8_192],
    len: usize,
}

impl Model for Line {
    ghost Value = { List ℕ };

    ghost view = { λ l. take l.len l.text };

    ghost invariant = { λ l. l.len ≤ 8192 };
}

impl Line {
    /// Returns an empty line.
    pub fn new() -> Line
        ensures { result ≡ [] }
    {
        Line {
            text: [0; 8_192],
            len: 0,
        }
    }

    /// Empties the line.
    pub fn clear(&mut self)
        ensures { self.new ≡ [] }
    {
        self.len = 0;
    }

    /// Returns the number of octets of the line, at most 8,192.
    pub fn len(&self) -> usize
        ensures value { result ≡ length self.now }
        ensures most { result ≤ 8192 }
    {
        self.len
    }

    /// Returns whether the line has no octets.
    pub fn is_empty(&self) -> bool
        ensures { result ≡ (length self.now == 0) }
    {
        self.len == 0
    }

    /// Returns the octets of the line.
    pub fn octets(&self) -> &[u8]
        ensures { result.now ≡ self.now }
    {
        &self.text[..self.len]
    }

    /// Appends octets.
    pub fn put(&mut self, text: &[u8])
        requires { length self.old + length text.now ≤ 8192 }
        ensures list { self.new ≡ self.old ++ text.now }
        ensures len { length self.new ≡ length self.old + length text.now }
    {
        let end = self.len + text.len();
        self.text[self.len..end].copy_from_slice(text);
        self.len = end;
    }

    /// Appends a number in decimal.
    pub fn put_number(&mut self, value: u64)
        requires { length self.old + length (decimal value) ≤ 8192 }
        ensures list { self.new ≡ self.old ++ decimal value }
        ensures len { length self.new ≡ length self.old + length (decimal value) }
    {
        let mut room = [0; DIGITS_MOST];
        self.put(decimal_text(value, &mut room));
    }

    /// Appends a label and a number in decimal. It requires capacity for the label and 20 digits.
    #[tactic(auto, using(crate::proofs::DecimalLaws::decimal_short))]
    pub fn put_labelled(&mut self, label: &[u8], number: u64)
        requires { length self.old + length label.now + 20 ≤ 8192 }
        ensures text { self.new ≡ self.old ++ label.now ++ decimal number }
        ensures short { length self.new ≤ length self.old + length label.now + 20 }
    {
        self.put(label);
        self.put_number(number);
    }

    /// Appends octets in lower-case hexadecimal, two digits each.
    pub fn put_hex(&mut self, octets: &[u8])
        requires { length self.old + 2 * length octets.now ≤ 8192 }
        ensures list { self.new ≡ self.old ++ encode_lower octets.now }
        ensures len { length self.new ≡ length self.old + 2 * length octets.now }
    {
        let end = self.len + 2 * octets.len();
        let _ = hex::encode_to_slice(octets, &mut self.text[self.len..end]);
        self.len = end;
    }

    /// Appends octets in lower-case hexadecimal, two digits each, or `-` if there are none.
    pub fn put_octets(&mut self, octets: &[u8])
        requires { length self.old + 2 * length octets.now < 8192 }
        ensures text { self.new ≡ self.old ++ octets_text octets.now }
        ensures short { length self.new ≤ length self.old + 2 * length octets.now + 1 }
    {
        if octets.is_empty() {
            self.put(b"-");
        } else {
            self.put_hex(octets);
        }
    }

    /// Appends the last three digits of a number in lower-case hexadecimal.
    pub fn put_three_digits(&mut self, number: u16)
        requires { length self.old + 3 ≤ 8192 }
        ensures list { self.new ≡ self.old ++ three_digits number }
        ensures len { length self.new ≡ length self.old + 3 }
    {
        let mut digits = [0; 4];
        let _ = hex::encode_to_slice(number.to_be_bytes(), &mut digits);
        self.put(&digits[1..]);
    }
}
