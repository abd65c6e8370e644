//! The work of `soft` on a soft recording: its levels become bits, and the blocks of broken packets (PDU) are decoded
//! again from them.

ghost use Rattle.std.specs.Prelude.{◌≡◌, ◌≢◌, true, [], length};
ghost use Rattle.p25_stream.specs.Scan.{given};
ghost use Rattle.p25_units.specs.Items.{place_of};
ghost use Rattle.p25_recording_filters.specs.SoftLevels.{item_softened};
ghost use Rattle.p25_recording_filters.specs.Softs.{IsHeardAmong, PutSoftItem, first_level, fresh_soft, is_even_packet};

use crate::hearing::{fill, hear_some};
use crate::held_levels::HeldLevels;
use crate::reports::put_behind;
use p25_bch_nid::PDU;
use p25_bits::BitBuf;
use p25_filter::{Ending, Filter, Refusal};
use p25_line::Line;
use p25_soft::soften;
use p25_stream::laws::item_laws;
use p25_stream::{Item, Scanner};
use std::marker::Model;

/// The work on a soft recording: a filter that returns the bits of its items, with failing blocks of packets (PDU)
/// decoded from the levels. At most seven bits that do not fill an octet are kept back.
#[derive(Drop)]
pub struct Soft {
    scanner: Scanner,
    levels: HeldLevels,
    kept: BitBuf,
    raw: BitBuf,
}

impl Model for Soft {
    ghost use Rattle.std.specs.Prelude.{◌+◌, ◌^◌, ◌<◌, length};
    ghost use Rattle.p25_recording_filters.specs.Softs.{IsHolding, SoftParts, first_level};

    ghost Value = { SoftParts };

    ghost view = { λ s. record { scan = s.scanner; levels = s.levels; kept = s.kept } };

    ghost invariant = { λ s. IsHolding s.scanner s.levels
        × (length s.kept < 8)
        × (first_level s.scanner.place + length s.levels < 2 ^ 29) };
}

// Returns whether an item is a broken packet (PDU) that begins at an even position.
fn is_even_packet(item: &Item) -> bool
    ensures { result ≡ is_even_packet item.now }
{
    match item {
        Item::Broken { place, duid, .. } => *duid == PDU && *place % 2 == 0,
        _ => false,
    }
}

// Softens the bits of an item, with the levels from the group of its position on.
fn soften_item(item: &Item, levels: &HeldLevels, raw: &mut BitBuf)
    requires { is_even_packet item.now ≡ true → IsHeardAmong item.now levels.now raw.old }
    ensures list { raw.new ≡ item_softened (first_level (place_of item.now)) levels.now item.now raw.old }
    ensures len { length raw.new ≡ length raw.old }
{
    if !is_even_packet(item) {
        return;
    }
    let at = (item.place() % 8 / 2) as usize;
    let count = (item.covered() / 2) as usize;
    let _ = soften(item, levels.part(at, count), raw);
}

impl Soft {
    /// Returns the work before the first octet.
    pub fn new() -> Soft
        ensures { result ≡ fresh_soft }
    {
        Soft {
            scanner: Scanner::new(),
            levels: HeldLevels::new(),
            kept: BitBuf::new(),
            raw: BitBuf::new(),
        }
    }

    // Writes to `out` the octets that the bits of the next item fill after those kept back. It requires that there is
    // such an item. Drops the levels before the group of the position after it.
    fn put_next(&mut self, out: &mut Line)
        requires { given self.old.scan ≢ [] }
        ensures { PutSoftItem self.old out.new self.new }
    {
        // An item is large: it is not moved.
        match &self.scanner.next(&mut self.raw) {
            Some(item) => {
                soften_item(item, &self.levels, &mut self.raw);
                put_behind(&mut self.kept, &self.raw, out);
                let place = item.place();
                let behind = place + item.covered();
                self.levels
                    .drop_front((4 * (behind / 8) - 4 * (place / 8)) as usize);
            }
            None => unreachable!(),
        }
    }
}

impl Filter for Soft {
    ghost use Rattle.std.specs.Prelude.{◌≡◌, ◌+◌, [], length};
    ghost use Rattle.p25_stream.specs.Scan.{given};
    ghost use Rattle.p25_recording_filters.specs.Softs.{first_level, soft_future};

    ghost future = { soft_future };

    ghost is_finished = { λ s. s.scan.finished };

    ghost IsDrained = { λ s. given s.scan ≡ [] };

    ghost pieces_left = { λ s. length s.scan.held };

    ghost size = { λ s. first_level s.scan.place + length s.levels };

    fn push_some(&mut self, octets: &[u8]) -> usize {
        // For the prover: the number of bits held bounds that of the levels.
        let _ = self.scanner.held();
        hear_some(&mut self.levels, octets, &mut self.scanner)
    }

    fn finish(&mut self) {
        // For the prover: the number of bits held bounds that of the levels.
        let _ = self.scanner.held();
        fill(&mut self.levels, &mut self.scanner);
        self.scanner.finish();
    }

    fn next(&mut self, out: &mut Line) -> Result<bool, Refusal> {
        if self.scanner.is_drained() {
            return Ok(false);
        }
        // For the prover: items lie end to end.
        item_laws();
        self.put_next(out);
        Ok(true)
    }

    fn ending(&self) -> Ending {
        Ending::Done
    }
}
