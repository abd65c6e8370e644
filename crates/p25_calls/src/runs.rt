//! The run that ends with a data unit, and the calls that the data unit ends.

ghost use Rattle.std.specs.Prelude.{◌≡◌, ◌-◌, ◌^◌, ◌<◌, IfSome};
ghost use Rattle.p25_calls.specs.{Seen.{unit_end}, Taking.{IsPending, broken_off, run_with, terminated, unit_answer, unit_pending}};

use crate::call::Call;
use crate::seen::UnitSeen;

// Returns the run whose last data unit is the given one: the open run if there is no break before the data unit, and
// otherwise a new one.
fn run_with(pending: &Option<Call>, unit: &UnitSeen) -> Call
    requires pending { IfSome pending.now (IsPending unit.now.place (2 ^ 32 - 2)) }
    requires end { unit_end unit.now < 2 ^ 61 }
    ensures { result ≡ run_with pending.now unit.now }
{
    match pending {
        Some(call) if call.goes_on(unit) => call.extended(unit),
        _ => Call::of_one(unit),
    }
}

// Returns the call that ends with the data unit before a given one. `None` is returned if and only if no run is open,
// there is no break before the data unit, or the run has no link data unit.
fn broken_off(pending: &Option<Call>, unit: &UnitSeen) -> Option<Call>
    requires pending { IfSome pending.now (IsPending unit.now.place (2 ^ 32 - 2)) }
    requires end { unit_end unit.now < 2 ^ 61 }
    ensures { result ≡ broken_off pending.now unit.now }
{
    match pending {
        Some(call) if !call.goes_on(unit) => call.if_linked(),
        _ => None,
    }
}

// Returns the call that ends with the last data unit of a run. `None` is returned if and only if that is no terminator,
// or the run has no link data unit.
fn terminated(run: &Call, unit: &UnitSeen) -> Option<Call>
    ensures { result ≡ terminated run.now unit.now }
{
    if unit.is_terminator() {
        run.if_linked()
    } else {
        None
    }
}

/// Takes a data unit, or `None` for any other item, as `Caller::take` takes an item. Returns the call that it ends, and
/// writes to `pending` the run that a further data unit may still join. It is for callers that keep the state of a
/// `Caller` in another form. It requires that the open run ends at or before the beginning of the data unit, and has
/// fewer than 2^32 − 1 data units. `None` is returned if and only if no call ends so.
pub fn take_unit(pending: &mut Option<Call>, unit: &Option<UnitSeen>) -> Option<Call>
    requires pending { IfSome unit.now (λ unit. IfSome pending.old (IsPending unit.place (2 ^ 32 - 2))) }
    requires end { IfSome unit.now (λ unit. unit_end unit < 2 ^ 61) }
    ensures answer { result ≡ unit_answer pending.old unit.now }
    ensures pending { pending.new ≡ unit_pending pending.old unit.now }
{
    let unit = unit.as_ref()?;
    let before = *pending;
    let run = run_with(&before, unit);
    // A further data unit may still join it if its last data unit is a voice data unit, and no terminator (TDU or
    // TDULC).
    *pending = (unit.is_voice() && !unit.is_terminator()).then_some(run);
    broken_off(&before, unit).or(terminated(&run, unit))
}
