//! The settled data units of a stretch, with their coded fields decoded from soft symbols.

ghost use Rattle.std.specs.Prelude.{◌≡◌, ℕ, ◌+◌, ◌*◌, ◌≤◌, ◌++◌, List, ℤ, drop, length};
ghost use Rattle.p25_bits.specs.Bits.{part};
ghost use Rattle.p25_follow.specs.{Chains.{chain_by}, Expected.{kind_length, name_of, names_of}};
ghost use Rattle.p25_decide.specs.{DecidedRecordings.{item_decided}, DecidedTaking.{AreFrom, over_by, settled_kind, voice_decided}};

use crate::unit::decide_unit;
use p25_bch_nid::Nid;
use p25_bits::BitBuf;
use p25_follow::parts::{STEP_REACH, kind_length, step, with_kind};

// Returns the type of the data unit that is settled first from a position on, after a data unit with a name.
fn settled_kind(
    whole: bool,
    before: &Nid,
    stretch: &BitBuf,
    at: usize,
    end: &Option<Nid>,
) -> Option<u8>
    requires { at ≤ length stretch.now }
    ensures { result ≡ settled_kind whole (name_of before.now) (drop at stretch.now) (names_of end.now) }
{
    if whole {
        return step(before, stretch, at, end);
    }
    if stretch.len() - at < STEP_REACH {
        return None;
    }
    step(before, stretch, at, end)
}

// Appends the bits of a voice data unit of a type that are at a position among settled ones. `from` is the number of bits
// before them for which there are soft symbols: if it is even, the coded fields are decoded.
fn put_unit(kind: u8, settled: &BitBuf, at: usize, from: usize, levels: &[i8], out: &mut BitBuf)
    requires kind { 144 ≤ kind_length kind }
    requires there { at + kind_length kind ≤ length settled.now }
    requires levels { from + kind_length kind ≤ 2 * length levels.now }
    requires room { length out.old + kind_length kind ≤ 25928 }
    ensures list { (first : ℕ) (all : List ℤ) → AreFrom first levels.now all
        → out.new ≡ out.old ++ voice_decided all (2 * first + from) kind (part at (kind_length kind) settled.now) }
    ensures len { length out.new ≡ length out.old + kind_length kind }
{
    let count = kind_length(kind);
    let mut unit = BitBuf::new();
    unit.append(settled, at, count);
    if from % 2 == 0 {
        decide_unit(kind, &levels[from / 2..from / 2 + count / 2], &mut unit);
    }
    out.append(&unit, 0, count);
}

// Writes to `out` the settled bits of a stretch after a data unit with a name, or after none, with the coded fields of
// their data units decoded. A whole stretch reaches to `end`, the name of the data unit after it. `from` is the number of
// bits before the stretch for which there are soft symbols.
pub(crate) fn decide_settled(
    whole: bool,
    before: Option<Nid>,
    stretch: &BitBuf,
    end: &Option<Nid>,
    settled: &BitBuf,
    from: usize,
    levels: &[i8],
    out: &mut BitBuf,
)
    requires settled { settled.now ≡ chain_by whole (names_of before) stretch.now (names_of end.now) }
    requires fits { length settled.now ≤ length stretch.now }
    requires levels { from + length stretch.now ≤ 2 * length levels.now }
    ensures { (first : ℕ) (all : List ℤ) → AreFrom first levels.now all
        → out.new ≡ over_by whole (item_decided all) (2 * first + from) (names_of before) stretch.now (names_of end.now) }
{
    let count = settled.len();
    out.clear();
    let mut before = before;
    let mut at = 0;
    while let Some(name) = before {
        match settled_kind(whole, &name, stretch, at, end) {
            Some(kind) => {
                put_unit(kind, settled, at, from + at, levels, out);
                at += kind_length(kind);
                before = Some(with_kind(&name, kind));
            }
            None => before = None,
        }
    }
    out.append(settled, at, count - at);
}
