//! Numbers and the bits that write them, the first bit highest: one number in a slice of bits, and numbers of one width in
//! a list of bits.

ghost use Rattle.std.specs.Prelude.{◌≡◌, ◌+◌, ◌*◌, ◌^◌, ◌<◌, ◌≤◌, ◌++◌, All, length, take, drop};
ghost use Rattle.p25_bits.specs.{Bits.{bits_of, field_of, octet_bits}, Numbers.{number_bits, numbers_from, pair_at, triple_at}};

use super::bit_buf::BitBuf;
use super::laws::octets_fit;

/// Returns the number that is written by at most 64 bits, the first bit highest.
pub fn number_of(bits: &[bool]) -> u64
    requires { length bits.now ≤ 64 }
    ensures value { result ≡ field_of bits.now }
    ensures fits { result < 2 ^ length bits.now }
{
    let mut number: u64 = 0;
    for bit in bits {
        number = 2 * number + u64::from(*bit);
    }
    number
}

/// Writes the lowest bits of a number to at most 64 bits, the highest of them first.
pub fn put_number(number: u64, bits: &mut [bool])
    requires { length bits.old ≤ 64 }
    ensures { bits.new ≡ bits_of (length bits.old) number }
{
    let width = bits.len();
    for (i, bit) in bits.iter_mut().enumerate() {
        *bit = (number >> (width - 1 - i)) & 1 == 1;
    }
}

/// Returns the number of the two octets from a position on, the first one higher.
pub fn pair_at(octets: &[u8], at: usize) -> u16
    requires { at + 2 ≤ length octets.now }
    ensures { result ≡ pair_at octets.now at }
{
    256 * u16::from(octets[at]) + u16::from(octets[at + 1])
}

/// Returns the number of the three octets from a position on, the first one highest.
pub fn triple_at(octets: &[u8], at: usize) -> u32
    requires { at + 3 ≤ length octets.now }
    ensures value { result ≡ triple_at octets.now at }
    ensures below { result < 2 ^ 24 }
{
    65536 * u32::from(octets[at]) + u32::from(pair_at(octets, at + 1))
}

impl BitBuf {
    /// Appends numbers in order, `width` bits each, the highest bit first.
    pub fn put_numbers(&mut self, numbers: &[u8], width: u32)
        requires width { width ≤ 8 }
        requires fits { All (λ number. number < 2 ^ width) numbers.now }
        requires room { length self.old + width * length numbers.now ≤ 25928 }
        ensures list { self.new ≡ self.old ++ number_bits width numbers.now }
        ensures len { length self.new ≡ length self.old + width * length numbers.now }
    {
        for number in numbers {
            self.put_field(u64::from(*number), width);
        }
    }

    /// Appends the first eight octets at once, the highest bit of each first.
    #[inline]
    pub fn put_eight(&mut self, octets: &[u8])
        requires there { 8 ≤ length octets.now }
        requires room { length self.old + 64 ≤ 25928 }
        ensures list { self.new ≡ self.old ++ octet_bits (take 8 octets.now) }
        ensures len { length self.new ≡ length self.old + 64 }
    {
        // For the prover: octets are below 256.
        octets_fit(octets);
        let eight = u64::from_be_bytes([
            octets[0], octets[1], octets[2], octets[3], octets[4], octets[5], octets[6], octets[7],
        ]);
        self.put_field(eight, 64);
    }

    /// Writes to `numbers` those that the bits from position `at` on write, `width` bits each, the first bit highest.
    pub fn take_numbers(&self, at: usize, width: u32, numbers: &mut [u8])
        requires width { width ≤ 8 }
        requires there { at + width * length numbers.old ≤ length self.now }
        ensures { numbers.new ≡ numbers_from width (length numbers.old) (drop at self.now) }
    {
        let first = if width == 8 {
            self.take_eights(at, numbers)
        } else {
            0
        };
        self.take_from(at, width, first, numbers);
    }

    // Writes the numbers from index `first` on. Those before it are already written.
    fn take_from(&self, at: usize, width: u32, first: usize, numbers: &mut [u8])
        requires width { width ≤ 8 }
        requires there { at + width * length numbers.old ≤ length self.now }
        requires first { first ≤ length numbers.old }
        requires before { take first numbers.old ≡ numbers_from width first (drop at self.now) }
        ensures { numbers.new ≡ numbers_from width (length numbers.old) (drop at self.now) }
    {
        // For the prover: the number of bits held bounds every position below.
        let _ = self.len();
        for i in first..numbers.len() {
            numbers[i] = self.field(at + width as usize * i, width) as u8;
        }
    }

    // Writes octets, eight at once, as long as eight are left, and returns how many were written.
    fn take_eights(&self, at: usize, octets: &mut [u8]) -> usize
        requires there { at + 8 * length octets.old ≤ length self.now }
        ensures most { result ≤ length octets.old }
        ensures long { length octets.new ≡ length octets.old }
        ensures taken { take result octets.new ≡ numbers_from 8 result (drop at self.now) }
    {
        // For the prover: the number of bits held bounds every position below.
        let _ = self.len();
        let whole = octets.len() / 8;
        for g in 0..whole {
            let first = 8 * g;
            let eight = self.field(at + 8 * first, 64);
            for k in 0..8 {
                octets[first + k] = ((eight >> (56 - 8 * k)) % 256) as u8;
            }
        }
        8 * whole
    }
}
