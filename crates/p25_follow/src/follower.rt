//! A follower of the items of a stream.

ghost use Rattle.std.specs.Prelude.{◌≡◌, ◌≤◌, ◌<◌, true, length};
ghost use Rattle.p25_units.specs.Items.{IsSoundItem};
ghost use Rattle.p25_follow.specs.{Expected.{names_of}, Followed.{is_rest, unit_name}};
ghost use Rattle.p25_follow.specs.Following.{IsFollow, behind_item, follow, fresh_follow, written_before, written_end};

use crate::chain::put_chain;
use p25_bch_nid::Nid;
use p25_bits::BitBuf;
use p25_units::Item;
use std::marker::Model;

/// The state between the items of a stream: the name of the last data unit, and the undecided bits of the stretch after
/// it, fewer than 6,912.
#[derive(Drop)]
pub struct Follower {
    before: Option<Nid>,
    stretch: BitBuf,
}

impl Model for Follower {
    ghost use Rattle.p25_follow.specs.{Expected.{names_of}, Following.{Follow, IsFollow, follow}};

    ghost Value = { Follow };

    ghost view = { λ s. follow (names_of s.before) s.stretch };

    ghost invariant = { λ s. IsFollow (follow (names_of s.before) s.stretch) };
}

/// Returns the follower before the first item.
impl Default for Follower {
    ghost is_default = { λ follower. follower ≡ fresh_follow };

    fn default() -> Follower {
        Follower::new()
    }
}

impl Follower {
    /// Returns a follower before the first item.
    pub fn new() -> Follower
        ensures { result ≡ fresh_follow }
    {
        Follower {
            before: None,
            stretch: BitBuf::new(),
        }
    }

    /// Returns a follower from its state: the name of the data unit before, and the bits of the stretch after it. It
    /// requires fewer than 6,912 bits, and none if no data unit was before them. So a caller can keep the state in
    /// another form.
    pub fn of(before: Option<Nid>, stretch: BitBuf) -> Follower
        requires { IsFollow (follow (names_of before) stretch) }
        ensures { result ≡ follow (names_of before) stretch }
    {
        Follower { before, stretch }
    }

    /// Returns the name of the data unit before the bits that are kept, or none.
    pub fn before(&self) -> Option<Nid>
        ensures { names_of result ≡ self.now.before }
    {
        self.before
    }

    /// Returns the bits that are kept, fewer than 6,912.
    pub fn stretch(&self) -> &BitBuf
        ensures bits { result.now ≡ self.now.stretch }
        ensures few { length result.now < 6912 }
    {
        &self.stretch
    }

    /// Takes an item and the bits that it covers, and writes to `out` the bits to output before the item's own. If the
    /// item is a data unit, or a sync with too few bits after it (`Cut`), they are all that is left of the stretch
    /// before it. Otherwise they are the decided part of the stretch with the item's bits. The item's own bits follow
    /// them in the output if and only if it is a data unit or `Cut`.
    ///
    /// It requires that any other item covers at most 4,096 bits.
    pub fn take(&mut self, item: &Item, raw: &BitBuf, out: &mut BitBuf)
        requires sound { IsSoundItem item.now }
        requires short { is_rest item.now ≡ true → length raw.now ≤ 4096 }
        ensures out { out.new ≡ written_before self.old item.now raw.now }
        ensures behind { self.new ≡ behind_item self.old item.now raw.now }
        ensures few { length self.new.stretch < 6912 }
    {
        out.clear();
        if is_rest(item) {
            // Nothing is kept of a stretch without a data unit before it.
            if self.before.is_none() {
                out.append(raw, 0, raw.len());
                return;
            }
            self.stretch.append(raw, 0, raw.len());
            self.before = put_chain(false, self.before, &mut self.stretch, &None, out);
        } else {
            let name = unit_name(item);
            put_chain(true, self.before, &mut self.stretch, &name, out);
            self.before = name;
        }
    }

    /// Writes to `out` the bits to output at the end of the stream: all that is left of a stretch there.
    pub fn finish(&self, out: &mut BitBuf)
        ensures { out.new ≡ written_end self.now }
    {
        out.clear();
        let mut stretch = BitBuf::new();
        stretch.append(&self.stretch, 0, self.stretch.len());
        put_chain(true, self.before, &mut stretch, &None, out);
    }
}

/// Returns whether an item belongs to a stretch: it is neither a data unit nor a sync with too few bits after it.
pub fn is_rest(item: &Item) -> bool
    ensures { result ≡ is_rest item.now }
{
    match item {
        Item::NoUnit { .. } | Item::Gap { .. } => true,
        Item::Whole { .. } | Item::Broken { .. } | Item::Cut { .. } => false,
    }
}

// Returns the name of a data unit, whole or broken.
fn unit_name(item: &Item) -> Option<Nid>
    requires { IsSoundItem item.now }
    ensures { names_of result ≡ unit_name item.now }
{
    match item {
        Item::Whole { frame, .. } => Nid::new(frame.unit.nac(), frame.unit.body().duid()),
        Item::Broken { nac, duid, .. } => Nid::new(*nac, *duid),
        Item::NoUnit { .. } | Item::Gap { .. } | Item::Cut { .. } => None,
    }
}
