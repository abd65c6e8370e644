//! Numbers of a few bits each, group by group. A group is joined to one number, a number is split, and so numbers of
//! one width are written as numbers of another.

ghost use Rattle.std.specs.Prelude.{◌≡◌, ◌*◌, ◌^◌, ◌<◌, ◌≤◌, All, length};
ghost use Rattle.p25_bits.specs.{Bits.{bits_of}, Numbers.{number_bits, numbers_from}};

// Returns the number that numbers of `width` bits each write, the first one highest.
#[inline(always)]
pub(crate) fn joined(width: u32, numbers: &[u8]) -> u64
    requires width { width ≤ 8 }
    requires few { width * length numbers.now ≤ 28 }
    requires small { All (λ number. number < 2 ^ width) numbers.now }
    ensures bits { bits_of (width * length numbers.now) result ≡ number_bits width numbers.now }
    ensures fits { result < 2 ^ (width * length numbers.now) }
{
    let mut whole = 0;
    for number in numbers {
        whole = (whole << width) + u64::from(*number);
    }
    whole
}

// Splits the low bits of a number into numbers of `width` bits each, the first one highest.
#[inline(always)]
pub(crate) fn put_apart(whole: u64, width: u32, numbers: &mut [u8])
    requires width { width ≤ 8 }
    requires few { width * length numbers.old ≤ 28 }
    ensures { numbers.new ≡ numbers_from width (length numbers.old) (bits_of (width * length numbers.old) whole) }
{
    let count = numbers.len();
    for i in 0..count {
        numbers[i] = ((whole >> (width as usize * (count - 1 - i))) % (1 << width)) as u8;
    }
}

// Writes to `target` the numbers of `to` bits each that the bits of numbers of `from` bits each write. There are six
// groups: `to` numbers of the one list have as many bits as `from` numbers of the other.
#[inline(always)]
pub(crate) fn regroup(source: &[u8], from: u32, to: u32, target: &mut [u8])
    requires from { from ≤ 8 }
    requires to { to ≤ 8 }
    requires few { from * to ≤ 28 }
    requires source { length source.now ≡ 6 * to }
    requires small { All (λ number. number < 2 ^ from) source.now }
    requires target { length target.old ≡ 6 * from }
    ensures { target.new ≡ numbers_from to (6 * from) (number_bits from source.now) }
{
    let (taken, put) = (to as usize, from as usize);
    for g in 0..6 {
        let whole = joined(from, &source[taken * g..taken * g + taken]);
        put_apart(whole, to, &mut target[put * g..put * g + put]);
    }
}
