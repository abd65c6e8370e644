//! The bit errors of a word of a small binary code, by its syndrome, without a search.
//!
//! A word is the information and then its check bits, the sum over GF(2) of the rows at whose positions the information
//! is 1. A row is a number of at most 16 bits, its highest bit for the first check bit. As a check matrix this is a
//! column for each position: the rows, and for each check bit a column with one bit of its own. A word passes if the
//! sum of the columns at the positions that are 1, its syndrome, is 0. Bit errors are a number of as many bits as the
//! word has, the first bit highest, with a 1 for each bit error.

ghost use Rattle.std.specs.Prelude.{◌≡◌, ◌+◌, ◌^◌, ◌<◌, ◌≤◌, ◌++◌, true, length, MatchOption};
ghost use Rattle.p25_code.specs.{Binary.{check_columns, rows_fit}, WrongBits.{number_sum, AreInverse, AreWrong, NoneByRows, NoneWrong}};

/// Returns at most `radius` bit errors with the syndrome `sum`, at most one of them in the information. It requires a
/// row for each bit of information and `checks` check bits. `None` is returned if and only if no such bit errors have
/// that syndrome.
pub fn wrong_by_rows(rows: &[u16], checks: u32, radius: u32, sum: u16) -> Option<u32>
    requires rows { length rows.now ≤ 16 }
    requires checks { checks ≤ 16 }
    requires fits { rows_fit checks rows.now ≡ true }
    requires sum { sum < 2 ^ checks }
    ensures { let columns = rows.now ++ check_columns checks in
        MatchOption result (NoneByRows columns checks radius sum) (AreWrong columns radius sum) }
{
    if sum.count_ones() <= radius {
        return Some(u32::from(sum));
    }
    for (i, row) in rows.iter().enumerate() {
        let rest = sum ^ *row;
        if rest.count_ones() < radius {
            let place = (rows.len() - 1 - i) as u32;
            return Some((1 << (place + checks)) | u32::from(rest));
        }
    }
    None
}

/// Returns at most `radius` bit errors, and at most three, with the syndrome `sum`, in a code with as many check bits
/// as bits of information. `turned` are the rows of the inverse matrix, and `turned_sum` is the sum of those at whose
/// positions the syndrome is 1. It is the bits of information that alone would have the syndrome. `None` is returned if
/// and only if no such bit errors have that syndrome.
///
/// Of three bit errors at most one is in the information, or at most one is in the check bits.
pub fn wrong_by_halves(
    rows: &[u16],
    turned: &[u16],
    radius: u32,
    sum: u16,
    turned_sum: u16,
) -> Option<u32>
    requires rows { length rows.now ≤ 16 }
    requires fits { rows_fit (length rows.now) rows.now ≡ true }
    requires turned_fits { rows_fit (length rows.now) turned.now ≡ true }
    requires inverse { AreInverse rows.now turned.now }
    requires radius { radius ≤ 3 }
    requires sum { sum < 2 ^ length rows.now }
    requires turned_sum { turned_sum ≡ number_sum turned.now sum }
    ensures { let columns = rows.now ++ check_columns (length rows.now) in
        MatchOption result (NoneWrong columns radius sum) (AreWrong columns radius sum) }
{
    let half = rows.len() as u32;
    if let Some(wrong) = wrong_by_rows(rows, half, radius, sum) {
        return Some(wrong);
    }
    let wrong = wrong_by_rows(turned, half, radius, turned_sum)?;
    Some(((wrong % (1 << half)) << half) | (wrong >> half))
}

#[cfg(test)]
mod tests {
    use super::*;

    // The code of three equal bits: one information bit, two check bits.
    #[test]
    fn finds_one_wrong_bit_of_three(rt: HostRuntime) {
        for (sum, wrong) in [(0b00, 0b000), (0b11, 0b100), (0b10, 0b010), (0b01, 0b001)] {
            assert_eq!(rt; wrong_by_rows(&[0b11], 2, 1, sum), Some(wrong));
        }
        assert_eq!(rt; wrong_by_rows(&[0b11], 2, 0, 0b11), None);
    }
}
