//! The report of `repair`, `bridge` and `relay`: the bits of each item, changed.

ghost use Rattle.std.specs.Prelude.{◌≡◌, ◌+◌, ◌-◌, ◌/◌, ◌<◌, ◌≤◌, ◌++◌, [], length, drop};
ghost use Rattle.p25_units.specs.{Items.{IsSoundItem, covered}, Units.{whole_octets}};
ghost use Rattle.p25_follow.specs.Relayed.{IsFitItem};
ghost use Rattle.p25_recording_filters.specs.Commands.{IsSoundChange, change_of, unfilled};

use crate::report::Report;
use p25_bits::BitBuf;
use p25_filter::Ending;
use p25_follow::relay_item_in;
use p25_line::Line;
use p25_status::Status;
use p25_stream::{bridge_item_in, repair_item_in};
use p25_units::Item;
use std::marker::Model;

/// The change of the bits of a recording.
#[derive(Clone, Copy, Debug, PartialEq, Eq)]
pub enum Change {
    /// Each whole data unit as transmitted, and all other bits unchanged.
    Repaired,
    /// The whole data units alone, with another network access code (NAC) and one status symbol everywhere.
    Bridged { nac: u16, status: Status },
    /// Each data unit, whole or broken, at its position under another network access code (NAC) and with one status
    /// symbol everywhere, and all other bits unchanged.
    Relayed { nac: u16, status: Status },
}

/// The bits of a recording, changed. At most seven bits that do not fill an octet are kept back.
#[derive(Drop)]
pub struct Changed {
    change: Change,
    // The buffer for the bits of a frame. Its contents have no meaning.
    room: BitBuf,
    kept: BitBuf,
}

impl Model for Changed {
    ghost use Rattle.std.specs.Prelude.{◌<◌, length};
    ghost use Rattle.p25_recording_filters.specs.Commands.{ChangedParts, IsSoundChange};

    ghost Value = { ChangedParts };

    ghost view = { λ s. record { change = s.change; kept = s.kept } };

    ghost invariant = { λ s. IsSoundChange s.change × (length s.kept < 8) };
}

impl Changed {
    /// Returns the report before the first item. It requires a network access code (NAC) below 4096.
    pub fn new(change: Change) -> Changed
        requires { IsSoundChange change }
        ensures { result ≡ record { change = change; kept = [] } }
    {
        Changed {
            change,
            room: BitBuf::new(),
            kept: BitBuf::new(),
        }
    }
}

impl Report for Changed {
    ghost use Rattle.std.specs.Prelude.{true};
    ghost use Rattle.std.proofs.lemmas.Bool.{true≢false};
    ghost use Rattle.p25_recording_filters.specs.Commands.{changed_reporting};

    const LOOKS_AT_BITS: bool = true;

    ghost LOOKS_AT_BITS = { true };

    ghost reporting = { changed_reporting };

    ghost ignores_bits = { λ blind. absurd (true≢false blind) };

    fn put(&mut self, item: &Item, raw: &mut BitBuf, out: &mut Line) {
        change_item(self.change, item, &mut self.room, raw);
        put_behind(&mut self.kept, raw, out);
    }

    fn close(&self, out: &mut Line) {
        out.clear();
    }

    fn ending(&self) -> Ending {
        Ending::Done
    }
}

// Changes the bits that an item covers. `room` is a buffer whose contents have no meaning.
fn change_item(change: Change, item: &Item, room: &mut BitBuf, raw: &mut BitBuf)
    requires change { IsSoundChange change }
    requires item { IsSoundItem item.now }
    requires fits { IsFitItem item.now }
    requires raw { length raw.old ≡ covered item.now }
    ensures { raw.new ≡ change_of change item.now raw.old }
{
    match change {
        Change::Repaired => repair_item_in(item, room, raw),
        Change::Bridged { nac, status } => {
            raw.clear();
            let _ = bridge_item_in(item, nac, status, room, raw);
        }
        Change::Relayed { nac, status } => relay_item_in(item, nac, status, room, raw),
    }
}

/// Writes the octets that kept bits and the bits after them fill into `out`, and keeps the bits that are left, fewer than eight.
pub fn put_behind(kept: &mut BitBuf, bits: &BitBuf, out: &mut Line)
    requires { length kept.old < 8 }
    ensures octets { out.new ≡ whole_octets (kept.old ++ bits.now) }
    ensures kept { kept.new ≡ unfilled (kept.old ++ bits.now) }
    ensures few { length kept.new < 8 }
    ensures len { length out.new ≤ 3241 }
{
    out.clear();
    put_after(kept, bits, out);
}

// Appends the octets that kept bits and those after them fill, and keeps the bits that are left. It requires capacity
// for 3,241 octets.
pub(crate) fn put_after(kept: &mut BitBuf, bits: &BitBuf, out: &mut Line)
    requires kept { length kept.old < 8 }
    requires room { length out.old ≤ 4951 }
    ensures octets { out.new ≡ out.old ++ whole_octets (kept.old ++ bits.now) }
    ensures kept { kept.new ≡ unfilled (kept.old ++ bits.now) }
    ensures few { length kept.new < 8 }
    ensures len { length out.new ≤ length out.old + 3241 }
{
    let missing = 8 - kept.len();
    if bits.len() < missing {
        kept.append(bits, 0, bits.len());
        return;
    }
    kept.append(bits, 0, missing);
    out.put(&[kept.field(0, 8) as u8]);
    put_octets(bits, missing, out);
    let rest = (bits.len() - missing) % 8;
    kept.clear();
    kept.append(bits, bits.len() - rest, rest);
}

/// Appends the octets that the bits from a position on fill, the most significant bit first. It requires capacity for
/// them.
pub fn put_octets(bits: &BitBuf, at: usize, out: &mut Line)
    requires there { at ≤ length bits.now }
    requires room { length out.old + (length bits.now - at) / 8 ≤ 8192 }
    ensures list { out.new ≡ out.old ++ whole_octets (drop at bits.now) }
    ensures len { length out.new ≡ length out.old + (length bits.now - at) / 8 }
{
    let words = (bits.len() - at) / 64;
    for k in 0..words {
        out.put(&bits.field(at + 64 * k, 64).to_be_bytes());
    }
    for j in 8 * words..(bits.len() - at) / 8 {
        out.put(&[bits.field(at + 8 * j, 8) as u8]);
    }
}
