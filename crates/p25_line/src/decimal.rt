//! Numbers in decimal, two digits at a time.

ghost use Rattle.std.specs.Prelude.{◌≡◌, ◌+◌, ◌/◌, ◌%◌, ◌<◌, ◌≤◌, ◌∷◌, ◌++◌, length, drop, decimal};

/// The most digits of a number of 64 bits.
pub(crate) const DIGITS_MOST: usize = 20;

// The two digits of each number below 100.
static PAIRS: [u8; 200] =
    *b"0001020304050607080910111213141516171819202122232425262728293031323334353637383940414243444546474849\
    5051525354555657585960616263646566676869707172737475767778798081828384858687888990919293949596979899";

/// Returns the decimal digits of a number, which it writes at the end of a buffer.
pub(crate) fn decimal_text(number: u64, room: &mut [u8; DIGITS_MOST]) -> &[u8]
    ensures { result.now ≡ decimal number }
{
    let start = write_decimal(number, room);
    &room[start..]
}

// Writes the decimal digits of a number at the end of a buffer, and returns the position of the first.
fn write_decimal(number: u64, room: &mut [u8; DIGITS_MOST]) -> usize
    ensures within { result ≤ 20 }
    ensures written { drop result room.new ≡ decimal number }
{
    let mut left = number;
    let mut at = DIGITS_MOST;
    while left >= 100 {
        at -= 2;
        write_pair(left % 100, room, at);
        left /= 100;
    }
    write_first(left, room, at)
}

// Writes the two digits of a number below 100 at a position.
#[inline(always)]
fn write_pair(pair: u64, room: &mut [u8; DIGITS_MOST], at: usize)
    requires below { pair < 100 }
    requires room { at + 2 ≤ 20 }
    ensures { drop at room.new ≡ (48 + pair / 10) ∷ (48 + pair % 10) ∷ drop (at + 2) room.old }
{
    let from = pair as usize * 2;
    let (tens, ones) = (PAIRS[from], PAIRS[from + 1]);
    room[at] = tens;
    room[at + 1] = ones;
}

// Writes the one or two digits of a number below 100 before a position, and returns the position of the first.
#[inline(always)]
fn write_first(number: u64, room: &mut [u8; DIGITS_MOST], end: usize) -> usize
    requires below { number < 100 }
    requires long { length (decimal number) ≤ end }
    requires room { end ≤ 20 }
    ensures within { result ≤ 20 }
    ensures written { drop result room.new ≡ decimal number ++ drop end room.old }
{
    if number < 10 {
        room[end - 1] = b'0' + number as u8;
        return end - 1;
    }
    write_pair(number, room, end - 2);
    end - 2
}
