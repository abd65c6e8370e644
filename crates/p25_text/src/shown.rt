//! Data units, items and calls as `{}` writes them, and data units as `parse` reads them. A trait of the kit can be
//! implemented for types of this crate alone, so each has a newtype here.

ghost use Rattle.std.specs.Prelude.{◌≡◌, ◌<◌, Some, Ok, Err, MatchResult};
ghost use Rattle.p25_text.specs.{Grammar.{read_line_of, text_of}, ItemTexts.{item_text_of}};
ghost use Rattle.p25_calls.specs.CallTexts.{call_text_of};
ghost use Rattle.p25_units.specs.Items.{IsSoundItem};

use super::items::item_text;
use super::read::read_line;
use super::write::unit_text;
use p25_calls::{Call, call_text};
use p25_line::{Line, LineFault};
use p25_units::{Item, Unit};
use std::fmt;
use std::marker::Model;
use std::str::FromStr;

/// A data unit as its line, which `{}` writes.
#[derive(Clone, Copy)]
pub struct UnitText<'a>(pub &'a Unit);

impl fmt::Display for UnitText<'_> {
    ghost output = { λ text. Some (text_of text.0.now) };

    fn fmt<W: fmt::Write>(&self, f: &mut fmt::Formatter<W>) -> fmt::Result {
        let mut line = Line::new();
        unit_text(self.0, &mut line);
        fmt::Display::fmt(&line, f)
    }
}

/// A data unit that `parse` reads from its line, as `read_line` does, and that `{}` writes so.
#[derive(Drop)]
pub struct UnitLine(pub Unit);

impl FromStr for UnitLine {
    type Err = LineFault;

    ghost from_str_gives = { λ line result. MatchResult result (λ unit. read_line_of line ≡ Ok unit.0) (λ fault. read_line_of line ≡ Err fault) };

    fn from_str(line: &str) -> Result<UnitLine, LineFault> {
        Ok(UnitLine(read_line(line.as_bytes())?))
    }
}

impl fmt::Display for UnitLine {
    ghost output = { λ line. Some (text_of line.0) };

    fn fmt<W: fmt::Write>(&self, f: &mut fmt::Formatter<W>) -> fmt::Result {
        fmt::Display::fmt(&UnitText(&self.0), f)
    }
}

/// A sound item as its text, which `{}` writes.
#[derive(Drop)]
pub struct ItemText<'a> {
    item: &'a Item,
}

impl<'a> Model for ItemText<'a> {
    ghost use Rattle.p25_units.specs.{Items.{IsSoundItem}, declared.item.Item.{Item as item_type}};

    ghost Value = { item_type };

    ghost view = { λ text. text.item.now };

    ghost invariant = { λ text. IsSoundItem text.item.now };
}

impl<'a> ItemText<'a> {
    /// Returns an item as its text.
    pub fn new(item: &'a Item) -> ItemText<'a>
        requires { IsSoundItem item.now }
        ensures { result ≡ item.now }
    {
        ItemText { item }
    }
}

impl fmt::Display for ItemText<'_> {
    ghost output = { λ text. Some (item_text_of text) };

    fn fmt<W: fmt::Write>(&self, f: &mut fmt::Formatter<W>) -> fmt::Result {
        let mut line = Line::new();
        item_text(self.item, &mut line);
        fmt::Display::fmt(&line, f)
    }
}

/// A call as its text, which `{}` writes.
#[derive(Drop)]
pub struct CallText<'a> {
    call: &'a Call,
}

impl<'a> Model for CallText<'a> {
    ghost use Rattle.std.specs.Prelude.{◌<◌};
    ghost use Rattle.p25_calls.specs.declared.call.Call.{Call as call_type};

    ghost Value = { call_type };

    ghost view = { λ text. text.call.now };

    ghost invariant = { λ text. text.call.now.nac < 4096 };
}

impl<'a> CallText<'a> {
    /// Returns a call as its text. It requires a network access code (NAC) below 4,096.
    pub fn new(call: &'a Call) -> CallText<'a>
        requires { call.now.nac < 4096 }
        ensures { result ≡ call.now }
    {
        CallText { call }
    }
}

impl fmt::Display for CallText<'_> {
    ghost output = { λ text. Some (call_text_of text) };

    fn fmt<W: fmt::Write>(&self, f: &mut fmt::Formatter<W>) -> fmt::Result {
        let mut line = Line::new();
        call_text(self.call, &mut line);
        fmt::Display::fmt(&line, f)
    }
}
