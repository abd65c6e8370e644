//! Calls

ghost use Rattle.std.specs.Prelude.{◌≡◌, if◌then◌else◌, None, Some};
ghost use Rattle.p25_calls.specs.Taking.{linked_pending};
ghost use Rattle.p25_c.specs.Values.{flag};
ghost use Rattle.p25_c.specs.VoiceCalls.{call_answer, call_asked, call_held, call_left, call_told, caller_left, closed_left, ends_so, finished_left, has_unit, is_kept, is_over, last_asked, no_call, pending_held, state_told, unit_told};

use crate::answers::OUTSIDE;
use crate::fields::FieldParts;
use crate::items::{BROKEN, ItemParts, UNIT};
use p25_calls::{Call, CallEnd, LinkControl, UnitSeen, take_unit};

// How a call ends.

/// without a terminator
const END_OPEN: u8 = 0;

/// with a TDU
const END_TDU: u8 = 1;

/// with a TDULC
const END_TDULC: u8 = 2;

// What a caller returns.

/// a call has ended, and `call` is set to it
const CALL: i32 = 1;

/// no call has ended; `call` stays
const NO_CALL: i32 = 0;

// The most bits between two data units of a call.
const SILENCE_MOST: u64 = 3_456;

// The most items that a caller takes, and the least position at which it takes none.
const TAKEN_MOST: u32 = u32::MAX;

const PLACE_END: u64 = 1 << 60;

/// A call, as `p25 calls` prints it: a longest run of voice units without a break inside, with voice in it (LDU1 or LDU2). There
/// is a break before a header, after a terminator, at a change of the network access code (NAC), at a packet, and before a voice
/// unit that begins more than 3,456 bits after the end of the one before it.
#[derive(Clone, Copy)]
#[repr(C)]
pub struct CallParts {
    /// the bit at which its first data unit begins
    pub place: u64,
    /// how many bits there are from there to the end of its last data unit
    pub bits: u64,
    /// how many voice units it has that are LDU1 or LDU2
    pub links: u32,
    /// how many of its data units are broken
    pub broken: u32,
    /// the network access code (NAC) of its data units
    pub nac: u16,
    /// 1 if it begins without a header (HDU), else 0
    pub late: u8,
    /// how it ends, one of the numbers above
    pub end: u8,
    /// 1 if some whole data unit of it has link control (LC), else 0
    pub has_lc: u8,
    /// 1 if some whole data unit of it names an algorithm, else 0
    pub has_algid: u8,
    /// the algorithm (ALGID) that the first of these names, or 0
    pub algid: u8,
    /// the link control (LC) of the first of these, or zeros
    pub lc: [u8; 9],
}

/// What is kept between the items of a recording. A program only reads it.
#[derive(Clone, Copy)]
#[repr(C)]
pub struct CallerState {
    /// the bit at which the next item begins
    pub reached: u64,
    /// how many items were taken
    pub taken: u32,
    /// whether a run of voice units is open that a further data unit may still join
    pub is_open: u8,
    /// whether a run ends with the gap after which no data unit can join it
    pub by_gap: u8,
    /// that run: a call once links is above 0
    pub run: CallParts,
}

/// Sets `caller` to one that has taken no item. Since 1.1.
#[unsafe(no_mangle)]
pub extern "C" fn p25_caller_begin(caller: &mut CallerState)
    ensures { caller.new ≡ state_told 0 0 0 None }
{
    *caller = state_told(0, 0, 0, &None);
}

/// Sets `caller` to one that has taken no item and begins at bit `place` of a recording: its first item begins there. So a program
/// that joins a recording late, or that has lost samples, goes on.
///
/// If `by_gap` is true, a call without a terminator ends with the item that decides it: the item with which the recording reaches
/// more than 3,456 bits after the last data unit of the call, such as a gap of 4,096 bits. The calls are the same, but they come
/// earlier. Since 1.1.
#[unsafe(no_mangle)]
pub extern "C" fn p25_caller_begin_at(caller: &mut CallerState, place: u64, by_gap: bool)
    ensures { caller.new ≡ state_told (flag by_gap) place 0 None }
{
    *caller = state_told(u8::from(by_gap), place, 0, &None);
}

/// Takes an item. It takes each item of a recording in order, gaps too: the first at bit 0, each other at the end of the one
/// before it. The fields are those of a whole data unit, as `p25_unit_fields` sets them; of any other item the call does not look
/// at them.
///
/// Returns `P25_CALL` if a call ends, and sets `call` to it: with this item, its terminator, or with the data unit before, if
/// there is a break after that one. So a call comes with the item that decides that it has ended. Returns `P25_NO_CALL` if none
/// ends, and then `call` stays.
///
/// Returns `P25_OUTSIDE` if the item may not be taken, and then `caller` and `call` stay: it does not begin at the end of the one
/// before it; it begins at bit 2^60 or after it; 2^32 - 1 items were taken; or the open run of `caller` ends after its member
/// reached, or has more LDU1, LDU2 or broken data units than items were taken. The last does not happen to one that these calls
/// set. Since 1.1.
#[unsafe(no_mangle)]
pub extern "C" fn p25_caller_take(
    caller: &mut CallerState,
    item: &ItemParts,
    fields: &FieldParts,
    call: &mut CallParts,
) -> i32
    ensures answer { result ≡ call_answer (call_asked caller.old item.now fields.now) }
    ensures caller { caller.new ≡ caller_left caller.old item.now fields.now }
    ensures call { call.new ≡ call_left (call_asked caller.old item.now fields.now) call.old }
{
    if !is_kept(caller)
        || item.place != caller.reached
        || item.place >= PLACE_END
        || caller.taken == TAKEN_MOST
    {
        return OUTSIDE;
    }
    let unit = unit_told(item, fields);
    let mut pending = pending_held(caller);
    let ended = take_unit(&mut pending, &unit);
    let reached = item.place + u64::from(item.bits);
    let last = settle(caller.by_gap, &mut pending, reached);
    *caller = state_told(caller.by_gap, reached, caller.taken + 1, &pending);
    tell_call(&ended.or(last), call)
}

// Ends the run that is open if it is over and the caller ends calls so, and returns the call that it is.
fn settle(by_gap: u8, pending: &mut Option<Call>, reached: u64) -> Option<Call>
    ensures call { result ≡ (if ends_so by_gap pending.old reached then linked_pending pending.old else None) }
    ensures left { pending.new ≡ (if ends_so by_gap pending.old reached then None else pending.old) }
{
    if !ends_so(by_gap, pending, reached) {
        return None;
    }
    let last = linked(pending);
    *pending = None;
    last
}

// Whether the run that is open ends, since it is over and the caller ends calls so.
fn ends_so(by_gap: u8, pending: &Option<Call>, reached: u64) -> bool
    ensures { result ≡ ends_so by_gap pending.now reached }
{
    by_gap != 0 && is_over(pending, reached)
}

// Whether no unit can join the run that is open any more, once the recording was read up to a bit.
fn is_over(pending: &Option<Call>, reached: u64) -> bool
    ensures { result ≡ is_over pending.now reached }
{
    match pending {
        Some(run) => {
            run.place <= reached
                && run.bits <= reached - run.place
                && reached - run.place - run.bits > SILENCE_MOST
        }
        None => false,
    }
}

// The call that is open.
fn linked(pending: &Option<Call>) -> Option<Call>
    ensures { result ≡ linked_pending pending.now }
{
    match pending {
        Some(run) => run.if_linked(),
        None => None,
    }
}

/// Ends a recording: returns `P25_CALL` and sets `call` to the call that is still open, or returns `P25_NO_CALL` if none is. Then
/// `caller` is one that has taken no item. Returns `P25_OUTSIDE` if `p25_caller_take` refuses the numbers of `caller`, and then
/// it stays. If no call is returned, `call` stays. Since 1.1.
#[unsafe(no_mangle)]
pub extern "C" fn p25_caller_finish(caller: &mut CallerState, call: &mut CallParts) -> i32
    ensures answer { result ≡ call_answer (last_asked caller.old) }
    ensures caller { caller.new ≡ finished_left caller.old }
    ensures call { call.new ≡ call_left (last_asked caller.old) call.old }
{
    if !is_kept(caller) {
        return OUTSIDE;
    }
    let ended = linked(&pending_held(caller));
    *caller = state_told(caller.by_gap, 0, 0, &None);
    tell_call(&ended, call)
}

/// Ends the run that is open, and goes on: returns `P25_CALL` and sets `call` to the call that is open, or returns `P25_NO_CALL` if
/// none is. The next item begins at the end of the last one, and begins a new run. A program does so if a recording pauses. Returns
/// `P25_OUTSIDE` if `p25_caller_take` refuses the numbers of `caller`, and then it stays. If no call is returned, `call` stays.
/// Since 1.1.
#[unsafe(no_mangle)]
pub extern "C" fn p25_caller_close(caller: &mut CallerState, call: &mut CallParts) -> i32
    ensures answer { result ≡ call_answer (last_asked caller.old) }
    ensures caller { caller.new ≡ closed_left caller.old }
    ensures call { call.new ≡ call_left (last_asked caller.old) call.old }
{
    if !is_kept(caller) {
        return OUTSIDE;
    }
    let ended = linked(&pending_held(caller));
    *caller = state_told(caller.by_gap, caller.reached, caller.taken, &None);
    tell_call(&ended, call)
}

/// Returns whether an item is a data unit of a call or of the open run of a caller: a whole or a broken data unit whose first bit is
/// at `place` of the call or after it, and before `place + bits` of the call. Since 1.1.
#[unsafe(no_mangle)]
pub extern "C" fn p25_call_has(call: &CallParts, item: &ItemParts) -> bool
    ensures { result ≡ has_unit call.now item.now }
{
    (item.kind == UNIT || item.kind == BROKEN)
        && call.place <= item.place
        && item.place - call.place < call.bits
}

// Sets `call` to a call if there is one, and returns whether there is.
fn tell_call(ended: &Option<Call>, call: &mut CallParts) -> i32
    ensures answer { result ≡ call_answer (Some ended.now) }
    ensures call { call.new ≡ call_left (Some ended.now) call.old }
{
    match ended {
        Some(told) => {
            *call = call_told(told);
            CALL
        }
        None => NO_CALL,
    }
}

// Whether a caller is one that these calls set.
fn is_kept(caller: &CallerState) -> bool
    ensures { result ≡ is_kept caller.now }
{
    if caller.is_open == 0 {
        return true;
    }
    let run = &caller.run;
    run.place <= caller.reached
        && run.bits <= caller.reached - run.place
        && run.links <= caller.taken
        && run.broken <= caller.taken
}

// The unit that an item is.
fn unit_told(item: &ItemParts, fields: &FieldParts) -> Option<UnitSeen>
    ensures { result ≡ unit_told item.now fields.now }
{
    let bits = u64::from(item.bits);
    let (broken, link, algid) = match item.kind {
        UNIT => (
            false,
            (fields.has_lc != 0).then_some(LinkControl(fields.lc)),
            (fields.has_mi != 0).then_some(fields.algid),
        ),
        BROKEN => (true, None, None),
        _ => return None,
    };
    Some(UnitSeen {
        place: item.place,
        bits,
        nac: item.nac,
        duid: item.duid,
        broken,
        link,
        algid,
    })
}

// A caller by what it keeps.
fn state_told(by_gap: u8, reached: u64, taken: u32, pending: &Option<Call>) -> CallerState
    ensures { result ≡ state_told by_gap reached taken pending.now }
{
    let (is_open, run) = match pending {
        Some(call) => (1, call_told(call)),
        None => (0, no_call()),
    };
    CallerState {
        reached,
        taken,
        is_open,
        by_gap,
        run,
    }
}

// The run that is open.
fn pending_held(caller: &CallerState) -> Option<Call>
    ensures { result ≡ pending_held caller.now }
{
    (caller.is_open != 0).then_some(call_held(&caller.run))
}

// A call as numbers and octets.
fn call_told(call: &Call) -> CallParts
    ensures { result ≡ call_told call.now }
{
    CallParts {
        place: call.place,
        bits: call.bits,
        links: call.links,
        broken: call.broken,
        nac: call.nac,
        late: u8::from(call.late),
        end: match call.end {
            CallEnd::Tdu => END_TDU,
            CallEnd::Tdulc => END_TDULC,
            CallEnd::Open => END_OPEN,
        },
        has_lc: u8::from(call.link.is_some()),
        has_algid: u8::from(call.algid.is_some()),
        algid: call.algid.unwrap_or(0),
        lc: match &call.link {
            Some(link) => link.0,
            None => [0; 9],
        },
    }
}

// The call of numbers and octets.
fn call_held(parts: &CallParts) -> Call
    ensures { result ≡ call_held parts.now }
{
    Call {
        place: parts.place,
        bits: parts.bits,
        nac: parts.nac,
        late: parts.late != 0,
        end: match parts.end {
            END_TDU => CallEnd::Tdu,
            END_TDULC => CallEnd::Tdulc,
            _ => CallEnd::Open,
        },
        links: parts.links,
        broken: parts.broken,
        link: (parts.has_lc != 0).then_some(LinkControl(parts.lc)),
        algid: (parts.has_algid != 0).then_some(parts.algid),
    }
}

// The numbers of no call.
fn no_call() -> CallParts
    ensures { result ≡ no_call }
{
    CallParts {
        place: 0,
        bits: 0,
        links: 0,
        broken: 0,
        nac: 0,
        late: 0,
        end: 0,
        has_lc: 0,
        has_algid: 0,
        algid: 0,
        lc: [0; 9],
    }
}
