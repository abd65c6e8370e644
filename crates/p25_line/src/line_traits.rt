//! A line as other Rust code uses it: empty by default, compared by its octets, lent as a slice, and displayed as a
//! text.

ghost use Rattle.std.specs.{Prelude.{◌≡◌, [], Some, nat_eq}, Cmp.{on_equiv, on_per, partial_equiv_from_equiv}};
ghost use Rattle.std.specs.Cmp.Lexicographic.{nat_list_eq_equiv, pointwise};

use super::line::Line;
use std::convert::AsSlice;
use std::fmt;

/// Returns the empty line.
impl Default for Line {
    ghost is_default = { λ line. line ≡ [] };

    fn default() -> Line {
        Line::new()
    }
}

/// Lines are equal if their octets are.
impl PartialEq for Line {
    ghost eq = { λ line other. pointwise nat_eq line other };

    ghost laws = { on_per (λ line. line) (partial_equiv_from_equiv nat_list_eq_equiv) };

    fn eq(&self, other: &Line) -> bool {
        self.octets() == other.octets()
    }
}

impl Eq for Line {
    ghost laws = { on_equiv (λ line. line) nat_list_eq_equiv };
}

/// Lends the octets of the line.
impl AsSlice<u8> for Line {
    ghost items = { λ line. line };

    fn as_slice(&self) -> &[u8] {
        self.octets()
    }
}

/// Writes the octets of the line. If they are not UTF-8 they are not a text; then the call fails, and nothing is
/// written.
impl fmt::Display for Line {
    ghost output = { λ line. Some line };

    fn fmt<W: fmt::Write>(&self, f: &mut fmt::Formatter<W>) -> fmt::Result {
        match str::from_utf8(self.octets()) {
            Ok(text) => f.write_str(text),
            Err(_) => Err(fmt::Error),
        }
    }
}

/// Writes the line as a text in quotes, or, if it is not a text, as the list of its octets.
impl fmt::Debug for Line {
    fn fmt<W: fmt::Write>(&self, f: &mut fmt::Formatter<W>) -> fmt::Result {
        match str::from_utf8(self.octets()) {
            Ok(text) => fmt::Debug::fmt(&text, f),
            Err(_) => fmt::Debug::fmt(&self.octets(), f),
        }
    }
}
