//! A caller, which groups the data units among items into calls.

ghost use Rattle.std.specs.Prelude.{◌≡◌, ◌-◌, ◌^◌, ◌<◌, IfSome};
ghost use Rattle.p25_calls.specs.Taking.{HasSoundPending, answer_to, behind_item, fresh_caller, open_call};
ghost use Rattle.p25_units.specs.Items.{IsSoundItem, place_of};

use crate::call::Call;
use crate::runs::take_unit;
use crate::seen::{item_end, seen_unit};
use p25_units::Item;
use std::marker::Model;

/// The state between the items of a stream. It has the end of the last one, their number, and the run of voice data
/// units that a further data unit may still join.
#[derive(Clone, Copy, Debug, PartialEq, Eq)]
pub struct Caller {
    reached: u64,
    taken: u32,
    pending: Option<Call>,
}

impl Model for Caller {
    ghost use Rattle.p25_calls.specs.Taking.{CallerParts, IsCaller};

    ghost Value = { CallerParts };

    ghost view = { λ s. record { reached = s.reached; taken = s.taken; pending = s.pending } };

    ghost invariant = { λ s. IsCaller (record { reached = s.reached; taken = s.taken; pending = s.pending }) };

    ghost inverse = { λ parts. record { reached = parts.reached; taken = parts.taken; pending = parts.pending } };
}

/// Returns the caller before the first item.
impl Default for Caller {
    ghost is_default = { λ caller. caller ≡ fresh_caller };

    fn default() -> Caller {
        Caller::new()
    }
}

impl Caller {
    /// Returns a caller before the first item.
    pub fn new() -> Caller
        ensures { result ≡ fresh_caller }
    {
        Caller {
            reached: 0,
            taken: 0,
            pending: None,
        }
    }

    /// Takes an item. It requires that the item begins at the end of the last one, or at position 0 if none was taken.
    /// It also requires positions below 2^60, and fewer than 2^32 − 1 items before.
    ///
    /// Returns the call that ends with this item, because the item is its terminator (TDU or TDULC). Or returns the
    /// call that ended with the data unit before, which is no terminator, because there is a break before this one.
    /// `None` is returned if and only if no call ends so.
    pub fn take(&mut self, item: &Item) -> Option<Call>
        requires place { place_of item.now ≡ self.old.reached }
        requires below { place_of item.now < 2 ^ 60 }
        requires few { self.old.taken < 2 ^ 32 - 1 }
        ensures answer { result ≡ answer_to self.old item.now }
        ensures behind { self.new ≡ behind_item self.old item.now }
        ensures sound { IsSoundItem item.now → HasSoundPending self.old → HasSoundPending self.new }
        ensures nac { IsSoundItem item.now → HasSoundPending self.old → IfSome result (λ call. call.nac < 4096) }
    {
        self.reached = item_end(item);
        self.taken += 1;
        take_unit(&mut self.pending, &seen_unit(item))
    }

    /// Returns the call that is still open, and resets the caller. `None` is returned if and only if no call is open.
    #[tactic(auto, unfolding(crate::specs::Taking::open_call))]
    pub fn finish(&mut self) -> Option<Call>
        ensures answer { result ≡ open_call self.old }
        ensures behind { self.new ≡ fresh_caller }
        ensures nac { HasSoundPending self.old → IfSome result (λ call. call.nac < 4096) }
    {
        let before = self.pending;
        *self = Caller::new();
        before?.if_linked()
    }
}
