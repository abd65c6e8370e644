//! The properties that every block code gives its callers, proved from the trait alone.

ghost use Rattle.std.specs.Prelude.{◌≡◌, ◌*◌, ◌-◌, ◌≤◌, List, false, length, All};
ghost use Rattle.p25_bits.specs.Distance.{distance_by};
ghost use Rattle.p25_code.specs.{Words.{IsReading}, Readings.{word_read}, Erasures.{without_erased, erased_cost, IsErasedReading}};

use crate::code::{BlockCode, ErasedCode, Reading};

/// Decodes a received word. If a codeword lies within the correction radius of the received word, exactly that codeword
/// is left, and the result is `Found` with the distance between the two.
pub fn read_received<C: BlockCode>(word: &mut [C::Letter]) -> Reading
    requires code { C.HasCode }
    requires word { length word.old ≡ C.N }
    ensures reading { IsReading C.Letter.eq C.IsWord C.radius_is word.old word.new result }
    ensures value { word_read result word.new ≡ C.reading_is word.old }
    ensures sent { (sent : List C.Letter) → C.IsWord sent → distance_by C.Letter.eq word.old sent ≤ C.radius_is → word.new ≡ sent }
    ensures fixes { (sent : List C.Letter) → C.IsWord sent → distance_by C.Letter.eq word.old sent ≤ C.radius_is
        → result ≡ Reading.Found (distance_by C.Letter.eq word.old sent) }
{
    C::read(word)
}

/// Decodes a received word with some erased letters. If a codeword costs at most N - K, two for each wrong letter that
/// is not erased and one for each erased letter, exactly that codeword is left. If nothing is erased and twice the
/// radius is N - K, the result and the letters left are those of `read_received`.
pub fn read_with_erasures<C: ErasedCode>(word: &mut [C::Letter], erased: &[bool]) -> Reading
    requires code { C.HasCode }
    requires word { length word.old ≡ C.N }
    requires erased { length erased.now ≡ C.N }
    ensures reading { IsErasedReading C.Letter.eq C.IsWord (C.N - C.K) (without_erased word.old erased.now) word.old word.new result }
    ensures value { word_read result word.new ≡ C.erased_reading_is (without_erased word.old erased.now) }
    ensures sent { (sent : List C.Letter) → C.IsWord sent → erased_cost C.Letter.eq (without_erased word.old erased.now) sent ≤ C.N - C.K → word.new ≡ sent }
    ensures whole { C.N - C.K ≡ 2 * C.radius_is → All (λ gone. gone ≡ false) erased.now → IsReading C.Letter.eq C.IsWord C.radius_is word.old word.new result }
{
    C::read_erased(word, erased)
}
