//! The numbers that the calls on codewords return if no codeword is decoded or none can be.

ghost use Rattle.std.specs.Prelude.{◌≡◌, ◌≤◌};
ghost use Rattle.p25_c.specs.Answers.{fixes_in, reading_answer};

use p25_code::Reading;

/// No codeword is near enough to the received word, which is unchanged.
pub(crate) const BEYOND: i32 = -1;

/// An argument represents no symbol or no word. Nothing is changed.
pub(crate) const OUTSIDE: i32 = -2;

/// Returns the number of letters that a decoding changed, or `BEYOND`.
pub(crate) fn answer_of(reading: Reading) -> i32
    requires { fixes_in reading ≤ 63 }
    ensures { result ≡ reading_answer reading }
{
    match reading {
        Reading::Found { fixes } => fixes as i32,
        Reading::Beyond => BEYOND,
    }
}
