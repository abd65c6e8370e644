//! The two rates: their parameters, and the traits of a rate by its tables.

ghost use Rattle.std.specs.Prelude.{◌≡◌, ◌≢◌, ℕ, ◌+◌, ◌*◌, ◌^◌, ◌<◌, ◌≤◌, length, slice_index};
ghost use Rattle.p25_trellis.specs.{Tables.{nibble_distance}, TableLaws.{IsRate}};

use super::tables::RateTables;

/// A rate of the trellis code: a table of points with a row for each state and a column for each symbol. The state
/// after a symbol is that symbol (TIA-102.BAAA, Trellis Coding).
///
/// The laws of a table are the basis of decoding. Its points are nibbles, and from one state two symbols lead to paths
/// that differ in at least `APART` bits before they meet again.
pub trait Rate {
    /// The number of states, and of symbols: 4 or 8.
    const STATES: u8;
    /// The number of bits that a symbol represents: 2 or 3.
    const BITS_PER_SYMBOL: u32;
    /// The number of octets of a block: 12 or 18.
    const OCTETS: usize;
    /// The least number of transmitted bits in which two different paths differ: 5 or 3.
    const APART: u32;

    ghost STATES: { ℕ };

    ghost BITS_PER_SYMBOL: { ℕ };

    ghost OCTETS: { ℕ };

    ghost APART: { ℕ };

    // The four bits of the point in a state's row and a symbol's column.
    ghost point_of: { ℕ → ℕ → ℕ };

    // The least number of bits in which the paths from two states differ until they meet.
    ghost parted: { ℕ → ℕ → ℕ };

    /// Returns the four bits of the point in a state's row and a symbol's column, as a number.
    fn point(state: u8, symbol: u8) -> u8
        requires row { state < STATES }
        requires column { symbol < STATES }
        ensures value { result ≡ point_of state symbol }
        ensures nibble { result < 16 };

    /// Returns the symbol that transmits a nibble from a state, or 8 if none does.
    fn symbol_sending(state: u8, nibble: u8) -> u8
        requires row { state < STATES }
        requires nibble { nibble < 16 }
        ensures sends { result < STATES → point_of state result ≡ nibble }
        ensures none { STATES ≤ result → (result ≡ 8) × ((symbol : ℕ) → symbol < STATES → point_of state symbol ≢ nibble) };

    /// Returns the rank of a symbol at a nibble after each state: eight times the number of bits in which its point
    /// differs from the nibble, plus the symbol. So the lowest rank is that of the lowest of the nearest symbols. There
    /// are eight entries; those after the last state are not used.
    fn ranks(symbol: u8, nibble: u8) -> &'static [u16]
        requires column { symbol < STATES }
        requires nibble { nibble < 16 }
        ensures each { (state : ℕ) → state < STATES → slice_index result.now state ≡ 8 * nibble_distance (point_of state symbol) nibble + symbol }
        ensures low { (state : ℕ) → slice_index result.now state ≤ 39 }
        ensures len { length result.now ≡ 8 };

    // The laws of the table.
    ghost table: { IsRate STATES BITS_PER_SYMBOL OCTETS APART point_of parted };
}

/// Half rate: 12 octets as 48 symbols of two bits. TIA-102.BAAA, Trellis Coding.
#[derive(Clone, Copy, Debug, PartialEq, Eq)]
pub struct Half;

/// Three-quarter rate: 18 octets as 48 symbols of three bits. TIA-102.BAAA, Trellis Coding.
#[derive(Clone, Copy, Debug, PartialEq, Eq)]
pub struct ThreeQuarter;

/// The parameters of a rate from which its others follow.
#[derive(Clone, Copy)]
pub(crate) struct RateNumbers {
    // The number of bits that a symbol represents: 2 of a dibit or 3 of a tribit.
    pub(crate) bits: u32,
    // The least number of transmitted bits in which two different paths differ.
    pub(crate) apart: u32,
}

/// A rate defined by its parameters and its points.
pub(crate) trait RatePoints {
    ghost use Rattle.p25_trellis.specs.{TableLaws.{TrellisRate}, declared.rate.RateNumbers.{RateNumbers}};

    const NUMBERS: RateNumbers;

    ghost NUMBERS: { RateNumbers };

    // The points, the distances between paths, and the laws of both.
    ghost rate: { TrellisRate NUMBERS.bits NUMBERS.apart };
}

impl RatePoints for Half {
    ghost use Rattle.p25_trellis.specs.TableLaws.{half_rate};

    const NUMBERS: RateNumbers = RateNumbers { bits: 2, apart: 5 };

    ghost NUMBERS = { record { bits = 2; apart = 5 } };

    ghost rate = { half_rate };
}

impl RatePoints for ThreeQuarter {
    ghost use Rattle.p25_trellis.specs.TableLaws.{three_quarter_rate};

    const NUMBERS: RateNumbers = RateNumbers { bits: 3, apart: 3 };

    ghost NUMBERS = { record { bits = 3; apart = 3 } };

    ghost rate = { three_quarter_rate };
}

// There is a state and a symbol for each value of a symbol's bits, and a block is 48 symbols.
impl<T: RateTables> Rate for T {
    const STATES: u8 = 1 << T::NUMBERS.bits;

    const BITS_PER_SYMBOL: u32 = T::NUMBERS.bits;

    const OCTETS: usize = 6 * T::NUMBERS.bits as usize;

    const APART: u32 = T::NUMBERS.apart;

    ghost STATES = { 2 ^ T.NUMBERS.bits };

    ghost BITS_PER_SYMBOL = { T.NUMBERS.bits };

    ghost OCTETS = { 6 * T.NUMBERS.bits };

    ghost APART = { T.NUMBERS.apart };

    ghost point_of = { T.rate.point };

    ghost parted = { T.rate.parted };

    fn point(state: u8, symbol: u8) -> u8 {
        T::tables().nibbles[usize::from(state) * usize::from(Self::STATES) + usize::from(symbol)]
    }

    fn symbol_sending(state: u8, nibble: u8) -> u8 {
        ((T::tables().symbols[usize::from(nibble)] >> (4 * state)) % 16) as u8
    }

    fn ranks(symbol: u8, nibble: u8) -> &'static [u16] {
        let at = 8 * (usize::from(nibble) * usize::from(Self::STATES) + usize::from(symbol));
        &T::tables().ranks[at..at + 8]
    }

    ghost table = { T.rate.laws };
}
