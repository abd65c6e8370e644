//! A scanner of bits that arrive octet by octet.

ghost use Rattle.std.specs.Prelude.{◌≡◌, ◌+◌, ◌^◌, ◌<◌, ◌≤◌, ◌↔◌, ◌++◌, [], true, false, length, take, drop, IsTrue, IfSome, MatchOption};
ghost use Rattle.p25_bits.specs.Bits.{bits_of, octet_bits};
ghost use Rattle.p25_stream.specs.Scan.{Gave, given, octets_taken};
ghost use Rattle.p25_units.specs.Items.{IsSoundItem, covered};

use crate::arriving::put_some;
use crate::judged::Judged;
use crate::judging::{judged_anew, set_item, settle};
use p25_bits::BitBuf;
use p25_units::Item;
use std::marker::Model;

/// A scanner: it holds the bits that no returned item covers, at most 25,927, and the position of the first of them. It
/// keeps its knowledge of the item there, so that no position is tested and no NID is decoded again at each octet.
#[derive(Drop)]
pub struct Scanner {
    held: BitBuf,
    // The buffer into which a data unit is decoded. Its contents have no meaning.
    room: BitBuf,
    place: u64,
    finished: bool,
    judged: Judged,
}

impl Model for Scanner {
    ghost use Rattle.std.specs.Prelude.{◌+◌, ◌^◌, ◌<◌, ◌≤◌, length};
    ghost use Rattle.p25_stream.specs.{Scan.{Scan}, Judgements.{IsJudged}};

    ghost Value = { Scan };

    ghost view = { λ s. record { place = s.place; held = s.held; finished = s.finished } };

    ghost invariant = { λ s. IsJudged s.judged s.held × (length s.held ≤ 25927) × (s.place + length s.held < 2 ^ 61) };
}

/// Returns the scanner at position 0 that holds nothing.
impl Default for Scanner {
    ghost is_default = { λ scanner. scanner ≡ record { place = 0; held = []; finished = false } };

    fn default() -> Scanner {
        Scanner::new()
    }
}

impl Scanner {
    /// Returns a scanner at position 0 that holds nothing and has no item.
    pub fn new() -> Scanner
        ensures value { result ≡ record { place = 0; held = []; finished = false } }
        ensures drained { given result ≡ [] }
    {
        let held = BitBuf::new();
        let judged = judged_anew(&held);
        Scanner {
            held,
            room: BitBuf::new(),
            place: 0,
            finished: false,
            judged,
        }
    }

    /// Appends the bits of an octet, the most significant first. It requires that no item is left, that the stream is
    /// not finished, and that fewer than 2^60 bits were taken.
    pub fn push(&mut self, octet: u8)
        requires drained { given self.old ≡ [] }
        requires going { self.old.finished ≡ false }
        requires few { self.old.place + length self.old.held < 2 ^ 60 }
        ensures { self.new ≡ record self.old { held = self.old.held ++ bits_of 8 octet } }
    {
        self.held.put_field(u64::from(octet), 8);
        settle(&mut self.judged, &self.held);
    }

    /// Appends the bits of some octets, from the first on, and returns the number of these octets. It is eight if there
    /// are that many and at most 25,863 bits are held, and otherwise one. It requires that no item is left, that the
    /// stream is not finished, and that fewer than 2^60 bits were taken.
    #[inline]
    pub fn push_some(&mut self, octets: &[u8]) -> usize
        requires some { 0 < length octets.now }
        requires drained { given self.old ≡ [] }
        requires going { self.old.finished ≡ false }
        requires few { self.old.place + length self.old.held < 2 ^ 60 }
        ensures bits { self.new ≡ record self.old { held = self.old.held ++ octet_bits (take result octets.now) } }
        ensures some { 0 < result }
        ensures there { result ≤ length octets.now }
        ensures count { result ≡ octets_taken (length self.old.held) (length octets.now) }
    {
        let count = put_some(octets, &mut self.held);
        settle(&mut self.judged, &self.held);
        count
    }

    /// Ends the stream: no more bits come, and the bits held are divided to their end.
    pub fn finish(&mut self)
        ensures { self.new ≡ record self.old { finished = true } }
    {
        self.finished = true;
    }

    /// Returns whether `next` would return `None`.
    pub fn is_drained(&self) -> bool
        ensures { IsTrue result ↔ (given self.now ≡ []) }
    {
        if self.finished {
            self.held.is_empty()
        } else {
            !self.judged.is_settled()
        }
    }

    /// Returns the number of bits held: those taken that no returned item covers.
    pub fn held(&self) -> usize
        ensures value { result ≡ length self.now.held }
        ensures most { result ≤ 25927 }
    {
        self.held.len()
    }

    /// Returns the next item and writes to `raw` the bits that it covers, which are no longer held. `None` is returned
    /// if and only if the bits so far decide no further item, or the stream is finished and all bits are covered. Then
    /// the bits held and `raw` are unchanged.
    pub fn next(&mut self, raw: &mut BitBuf) -> Option<Item>
        ensures given { MatchOption result ((given self.old ≡ []) × (self.new ≡ self.old) × (raw.new ≡ raw.old)) (λ item. Gave self.old item raw.new self.new) }
        ensures sound { IfSome result IsSoundItem }
    {
        let mut item = Item::empty();
        if self.next_in(raw, &mut item) {
            Some(item)
        } else {
            None
        }
    }

    /// Writes to `item` the next item and to `raw` the bits that it covers, which are no longer held, and returns true.
    /// False is returned if and only if `next` would return `None`; then nothing changes. An item is large, so it is
    /// not moved.
    pub fn next_in(&mut self, raw: &mut BitBuf, item: &mut Item) -> bool
        ensures given { result ≡ true → Gave self.old item.new raw.new self.new }
        ensures none { result ≡ false → (given self.old ≡ []) × (self.new ≡ self.old) × (raw.new ≡ raw.old) × (item.new ≡ item.old) }
        ensures sound { result ≡ true → IsSoundItem item.new }
    {
        if self.is_drained() {
            return false;
        }
        set_item(self.judged, &self.held, self.place, &mut self.room, item);
        let count = item.covered();
        raw.clear();
        raw.append(&self.held, 0, count as usize);
        self.let_go(count);
        true
    }

    /// Returns the next item, whose bits are no longer held, for a caller that does not use its bits. `None` is
    /// returned if and only if `next` would return it; then nothing changes.
    pub fn next_item(&mut self) -> Option<Item>
        ensures given { MatchOption result ((given self.old ≡ []) × (self.new ≡ self.old))
            (λ item. Gave self.old item (take (covered item) self.old.held) self.new) }
        ensures sound { IfSome result IsSoundItem }
    {
        let mut item = Item::empty();
        if self.next_item_in(&mut item) {
            Some(item)
        } else {
            None
        }
    }

    /// Writes to `item` the next item, whose bits are no longer held, and returns true. Its bits are not copied. False
    /// is returned if and only if `next` would return `None`; then nothing changes. An item is large, so it is not
    /// moved.
    pub fn next_item_in(&mut self, item: &mut Item) -> bool
        ensures given { result ≡ true → Gave self.old item.new (take (covered item.new) self.old.held) self.new }
        ensures none { result ≡ false → (given self.old ≡ []) × (self.new ≡ self.old) × (item.new ≡ item.old) }
        ensures sound { result ≡ true → IsSoundItem item.new }
    {
        if self.is_drained() {
            return false;
        }
        set_item(self.judged, &self.held, self.place, &mut self.room, item);
        self.let_go(item.covered());
        true
    }

    // Drops the first `count` bits.
    fn let_go(&mut self, count: u64)
        requires { count ≤ length self.old.held }
        ensures { self.new ≡ record self.old { place = self.old.place + count; held = drop count self.old.held } }
    {
        self.held.drop_front(count as usize);
        self.place += count;
        self.judged = judged_anew(&self.held);
    }
}
