//! A follower of the items of a stream that decodes coded fields from soft symbols.

ghost use Rattle.std.specs.{Prelude.{◌≡◌, ℕ, ◌+◌, ◌*◌, ◌/◌, ◌%◌, ◌<◌, ◌≤◌, ◌++◌, List, ℤ, None, false, length, true}, Option.{is_some}};
ghost use Rattle.p25_bits.specs.Bits.{part};
ghost use Rattle.p25_units.specs.Items.{IsSoundItem, covered, place_of};
ghost use Rattle.p25_soft.specs.Softened.{IsHeard};
ghost use Rattle.p25_follow.specs.{Followed.{is_rest, unit_name}, Following.{behind_item, fresh_follow}};
ghost use Rattle.p25_decide.specs.{DecidedFollowing.{before_item, own_item, settled_over}, DecidedRecordings.{item_decided}};
ghost use Rattle.p25_decide.specs.{DecidedStretches.{chain_over}, DecidedTaking.{AreFrom}};

use crate::item::decide_item;
use crate::stretch::decide_settled;
use p25_bits::BitBuf;
use p25_follow::{Follower, is_rest};
use p25_units::Item;
use std::marker::Model;

/// A follower whose output has the coded fields of data units decoded from soft symbols: of those that the scan finds, and
/// of those whose sync and NID it restores.
#[derive(Drop)]
pub struct Decider {
    follower: Follower,
    // The buffers for a stretch and for what is settled of it. Their contents between items have no meaning.
    stretch: BitBuf,
    settled: BitBuf,
}

impl Model for Decider {
    ghost use Rattle.p25_follow.specs.Following.{Follow};

    ghost Value = { Follow };

    ghost view = { λ s. s.follower };
}

// Writes to `stretch` the bits that a follower keeps.
fn copy_kept(follower: &Follower, stretch: &mut BitBuf)
    ensures list { stretch.new ≡ follower.now.stretch }
    ensures few { length stretch.new < 6912 }
{
    let kept = follower.stretch();
    stretch.clear();
    stretch.append(kept, 0, kept.len());
}

/// Returns the follower before the first item.
impl Default for Decider {
    ghost is_default = { λ decider. decider ≡ fresh_follow };

    fn default() -> Decider {
        Decider::new()
    }
}

impl Decider {
    /// Returns a follower before the first item.
    pub fn new() -> Decider
        ensures { result ≡ fresh_follow }
    {
        Decider {
            follower: Follower::new(),
            stretch: BitBuf::new(),
            settled: BitBuf::new(),
        }
    }

    /// Returns the number of bits that are kept, at most 6,911.
    pub fn kept(&self) -> usize
        ensures value { result ≡ length self.now.stretch }
        ensures few { result < 6912 }
    {
        self.follower.stretch().len()
    }

    // Takes an item of a stretch.
    fn take_rest(&mut self, item: &Item, raw: &BitBuf, from: usize, levels: &[i8], out: &mut BitBuf)
        requires rest { is_rest item.now ≡ true }
        requires sound { IsSoundItem item.now }
        requires short { length raw.now ≤ 4096 }
        requires levels { from + length self.old.stretch + length raw.now ≤ 2 * length levels.now }
        ensures out { (first : ℕ) (all : List ℤ) → AreFrom first levels.now all
            → out.new ≡ settled_over (item_decided all) (2 * first + from) self.old.before (self.old.stretch ++ raw.now) }
        ensures behind { self.new ≡ behind_item self.old item.now raw.now }
    {
        let before = self.follower.before();
        copy_kept(&self.follower, &mut self.stretch);
        self.stretch.append(raw, 0, raw.len());
        self.follower.take(item, raw, &mut self.settled);
        decide_settled(
            false,
            before,
            &self.stretch,
            &None,
            &self.settled,
            from,
            levels,
            out,
        );
    }

    // Takes a data unit, or a sync with too few bits after it.
    fn take_unit(&mut self, item: &Item, raw: &BitBuf, from: usize, levels: &[i8], out: &mut BitBuf)
        requires unit { is_rest item.now ≡ false }
        requires sound { IsSoundItem item.now }
        requires levels { from + length self.old.stretch ≤ 2 * length levels.now }
        ensures out { (first : ℕ) (all : List ℤ) → AreFrom first levels.now all
            → out.new ≡ chain_over (item_decided all) (2 * first + from) self.old.before self.old.stretch (unit_name item.now) }
        ensures behind { self.new ≡ behind_item self.old item.now raw.now }
    {
        let before = self.follower.before();
        copy_kept(&self.follower, &mut self.stretch);
        self.follower.take(item, raw, &mut self.settled);
        let end = self.follower.before();
        decide_settled(
            true,
            before,
            &self.stretch,
            &end,
            &self.settled,
            from,
            levels,
            out,
        );
    }

    /// Takes an item and the bits that it covers, and writes to `out` the bits to output before the item's own, with coded
    /// fields decoded. If the item is a data unit, or a sync with too few bits after it, its own bits follow them, and are
    /// left in `raw` with their coded fields decoded. `levels` has the soft symbols of the bits that are kept and of the
    /// item, and `from` is the number of bits before the kept ones for which it has soft symbols too.
    ///
    /// It requires that any other item covers at most 4,096 bits.
    pub fn take(
        &mut self,
        item: &Item,
        raw: &mut BitBuf,
        from: usize,
        levels: &[i8],
        out: &mut BitBuf,
    )
        requires sound { IsSoundItem item.now }
        requires short { is_rest item.now ≡ true → length raw.old ≤ 4096 }
        requires covers { length raw.old ≡ covered item.now }
        requires levels { from + length self.old.stretch + covered item.now ≤ 2 * length levels.now }
        requires heard { is_some (unit_name item.now) ≡ true → (from + length self.old.stretch) % 2 ≡ 0
            → IsHeard item.now (part ((from + length self.old.stretch) / 2) (covered item.now / 2) levels.now) raw.old }
        ensures out { (first : ℕ) (all : List ℤ) → AreFrom first levels.now all
            → out.new ≡ before_item (item_decided all) (2 * first + from) self.old item.now raw.old }
        ensures own { (first : ℕ) (all : List ℤ) → AreFrom first levels.now all → place_of item.now ≡ 2 * first + from + length self.old.stretch
            → is_rest item.now ≡ false → raw.new ≡ item_decided all item.now raw.old }
        ensures behind { self.new ≡ behind_item self.old item.now raw.old }
    {
        if is_rest(item) {
            self.take_rest(item, raw, from, levels, out);
            return;
        }
        let at = from + self.kept();
        self.take_unit(item, raw, from, levels, out);
        decide_item(item, at, levels, raw);
    }

    /// Writes to `out` the bits to output at the end of the stream: all that is left of a stretch there, with coded fields
    /// decoded.
    pub fn finish(&mut self, from: usize, levels: &[i8], out: &mut BitBuf)
        requires { from + length self.old.stretch ≤ 2 * length levels.now }
        ensures out { (first : ℕ) (all : List ℤ) → AreFrom first levels.now all
            → out.new ≡ chain_over (item_decided all) (2 * first + from) self.old.before self.old.stretch None }
        ensures same { self.new ≡ self.old }
    {
        let before = self.follower.before();
        copy_kept(&self.follower, &mut self.stretch);
        self.follower.finish(&mut self.settled);
        decide_settled(
            true,
            before,
            &self.stretch,
            &None,
            &self.settled,
            from,
            levels,
            out,
        );
    }
}
