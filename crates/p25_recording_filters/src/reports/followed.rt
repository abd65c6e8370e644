//! The report of `follow`: the bits of the recording, with damaged syncs and NIDs restored.

ghost use Rattle.std.specs.Prelude.{◌≡◌, ◌<◌, ◌++◌, [], length};
ghost use Rattle.p25_units.specs.Units.{whole_octets};
ghost use Rattle.p25_follow.specs.Following.{fresh_follow, written_item};
ghost use Rattle.p25_recording_filters.specs.Commands.{unfilled};

use super::changed::{put_after, put_behind};
use crate::report::Report;
use p25_bits::BitBuf;
use p25_filter::Ending;
use p25_follow::{Follower, is_rest};
use p25_line::Line;
use p25_units::Item;
use std::marker::Model;

/// The bits of a recording, with sync and NID written for the data units that lie end to end after others. Fewer than
/// 6,912 bits of a stretch after a data unit are kept back, and at most seven bits that do not fill an octet.
#[derive(Drop)]
pub struct Followed {
    follower: Follower,
    // The buffer for the bits before those of an item. Its contents between items have no meaning.
    room: BitBuf,
    kept: BitBuf,
}

impl Model for Followed {
    ghost use Rattle.std.specs.Prelude.{◌<◌, length};
    ghost use Rattle.p25_recording_filters.specs.Commands.{FollowedParts};

    ghost Value = { FollowedParts };

    ghost view = { λ s. record { follower = s.follower; kept = s.kept } };

    ghost invariant = { λ s. length s.kept < 8 };
}

impl Followed {
    /// Returns the report before the first item.
    pub fn new() -> Followed
        ensures { result ≡ record { follower = fresh_follow; kept = [] } }
    {
        Followed::of(Follower::new(), BitBuf::new())
    }

    /// Returns a report from its follower and the bits, at most seven, that fill no octet.
    pub fn of(follower: Follower, kept: BitBuf) -> Followed
        requires { length kept < 8 }
        ensures { result ≡ record { follower = follower; kept = kept } }
    {
        Followed {
            follower,
            room: BitBuf::new(),
            kept,
        }
    }

    /// Returns its follower.
    pub fn follower(&self) -> &Follower
        ensures { result.now ≡ self.now.follower }
    {
        &self.follower
    }

    /// Returns the bits that fill no octet, at most seven.
    pub fn kept(&self) -> &BitBuf
        ensures bits { result.now ≡ self.now.kept }
        ensures few { length result.now < 8 }
    {
        &self.kept
    }
}

/// Returns the report before the first item.
impl Default for Followed {
    ghost is_default = { λ report. report ≡ record { follower = fresh_follow; kept = [] } };

    fn default() -> Followed {
        Followed::new()
    }
}

// Writes to `out` the octets that bits, and then the bits of an item unless it belongs to a stretch, fill after kept ones,
// and keeps the bits that are left.
pub(crate) fn put_item(item: &Item, bits: &BitBuf, raw: &BitBuf, kept: &mut BitBuf, out: &mut Line)
    requires { length kept.old < 8 }
    ensures octets { out.new ≡ whole_octets (kept.old ++ (bits.now ++ written_item item.now raw.now)) }
    ensures kept { kept.new ≡ unfilled (kept.old ++ (bits.now ++ written_item item.now raw.now)) }
    ensures few { length kept.new < 8 }
{
    put_behind(kept, bits, out);
    if !is_rest(item) {
        put_after(kept, raw, out);
    }
}

impl Report for Followed {
    ghost use Rattle.std.specs.Prelude.{true};
    ghost use Rattle.std.proofs.lemmas.Bool.{true≢false};
    ghost use Rattle.p25_recording_filters.specs.Commands.{followed_reporting};

    const LOOKS_AT_BITS: bool = true;

    ghost LOOKS_AT_BITS = { true };

    ghost reporting = { followed_reporting };

    ghost ignores_bits = { λ blind. absurd (true≢false blind) };

    fn put(&mut self, item: &Item, raw: &mut BitBuf, out: &mut Line) {
        self.follower.take(item, raw, &mut self.room);
        put_item(item, &self.room, raw, &mut self.kept, out);
    }

    fn close(&self, out: &mut Line) {
        let mut room = BitBuf::new();
        let mut kept = BitBuf::new();
        kept.append(&self.kept, 0, self.kept.len());
        self.follower.finish(&mut room);
        put_behind(&mut kept, &room, out);
    }

    fn ending(&self) -> Ending {
        Ending::Done
    }
}
