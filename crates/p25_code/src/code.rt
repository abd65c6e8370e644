//! The trait of block codes.

ghost use Rattle.std.specs.Prelude.{◌≡◌, ℕ, ◌*◌, ◌-◌, ◌<◌, ◌≤◌, ◌≢◌, List, Option, length, take, IsTrue};
ghost use Rattle.p25_bits.specs.Distance.{distance_by};

/// The result of decoding a received word.
#[derive(Clone, Copy, Debug, PartialEq, Eq)]
pub enum Reading {
    /// A codeword lies within the correction radius. The received word was replaced by it, and this many letters
    /// changed.
    Found { fixes: u32 },
    /// No codeword lies within the correction radius. The received word is unchanged.
    Beyond,
}

/// A systematic block code: a set of codewords of N letters, the first K of which are the information, and a correction
/// radius. A type represents a code and holds no value.
///
/// Contracts see the set itself as `IsWord`, so an instance is proved against its set and not against its method.
pub trait BlockCode {
    ghost use Rattle.p25_code.specs.{Words.{IsEncoding, IsReading}, Readings.{IsReadAs}};

    /// The number of letters of a codeword.
    const N: usize;

    /// The number of letters of the information, with which a codeword begins.
    const K: usize;

    /// The letter of a codeword: a bit or a symbol.
    type Letter: Copy + Eq;

    ghost N: { ℕ };

    ghost K: { ℕ };

    // N and K are parameters of such a code. It always holds for a code without parameters.
    ghost HasCode: { Type 0 };

    // The codewords.
    ghost IsWord: { List Self.Letter → Type 0 };

    ghost radius_is: { ℕ };

    // No two codewords are nearer to each other than this.
    ghost distance_is: { ℕ };

    // The encoding of the information as a function: the codeword that begins with it.
    ghost encoding_is: { List Self.Letter → List Self.Letter };

    // The decoding of a received word as a function: the codeword within the correction radius, or none.
    ghost reading_is: { List Self.Letter → Option (List Self.Letter) };

    /// Returns the correction radius: the most wrong letters that are corrected.
    fn radius() -> usize
        requires { HasCode }
        ensures { result ≡ radius_is };

    /// Encodes `info`: writes to `word`, of N letters, the one codeword whose first K letters are `info`.
    fn encode(info: &[Self::Letter], word: &mut [Self::Letter])
        requires code { HasCode }
        requires info { length info.now ≡ K }
        requires word { length word.old ≡ N }
        ensures value { word.new ≡ encoding_is info.now }
        ensures encoding { IsEncoding IsWord K info.now word.new };

    /// Decodes a received word of N letters up to the correction radius (bounded-distance decoding). `Found` is
    /// returned if and only if a codeword lies within the correction radius of it: `word` becomes that codeword, and
    /// `fixes` is the number of letters that changed. `Beyond` is returned if and only if there is none, and then
    /// `word` is unchanged.
    fn read(word: &mut [Self::Letter]) -> Reading
        requires code { HasCode }
        requires word { length word.old ≡ N }
        ensures { IsReading Self.Letter.eq IsWord radius_is word.old word.new result };

    // The decoding is a codeword within the correction radius, and none if and only if no codeword is that near.
    ghost reads_as: { HasCode → (received : List Self.Letter) → IsReadAs Self.Letter.eq IsWord radius_is received (reading_is received) };

    // Letters that compare equal are the same letter.
    ghost same_letter: { (x y : Self.Letter) → IsTrue (Self.Letter.eq x y) → x ≡ y };

    // Each codeword has N letters.
    ghost length_of_word: { HasCode → (word : List Self.Letter) → IsWord word → length word ≡ N };

    // No other codeword has the same information.
    ghost one_word: { HasCode → (v w : List Self.Letter) → IsWord v → IsWord w → take K v ≡ take K w → v ≡ w };

    // Two different codewords differ in at least `distance_is` letters.
    ghost far_apart: { HasCode → (v w : List Self.Letter) → IsWord v → IsWord w → v ≢ w → distance_is ≤ distance_by Self.Letter.eq v w };

    // So at most one codeword lies within the correction radius of any list.
    ghost within: { HasCode → 2 * radius_is < distance_is };

    // The information is part of the codeword.
    ghost begins: { HasCode → K ≤ N };
}

/// A block code that can decode words with erased letters. An erased letter costs one and a wrong letter two; a word is
/// decoded if some codeword costs at most N - K.
///
/// Contracts see the received letters and the erasures as one list with erasures.
pub trait ErasedCode: BlockCode {
    ghost use Rattle.p25_code.specs.{Erasures.{without_erased, IsErasedReading}, ErasedReadings.{IsErasedReadAs}};

    // The decoding of a list with erasures as a function: the codeword within the cost N - K, or none.
    ghost erased_reading_is: { List (Option Self.Letter) → Option (List Self.Letter) };

    /// Decodes a received word of N letters; those with a true entry in `erased` are erasures (errors-and-erasures
    /// decoding). `Found` is returned if and only if, for some codeword, twice the wrong letters that are not erased
    /// plus the erased letters are at most N - K. Then `word` becomes that codeword, and `fixes` is the number of
    /// letters that changed. `Beyond` is returned if and only if there is no such codeword, and then `word` is
    /// unchanged.
    fn read_erased(word: &mut [Self::Letter], erased: &[bool]) -> Reading
        requires code { Self.HasCode }
        requires word { length word.old ≡ Self.N }
        requires erased { length erased.now ≡ Self.N }
        ensures { IsErasedReading Self.Letter.eq Self.IsWord (Self.N - Self.K) (without_erased word.old erased.now) word.old word.new result };

    // The decoding is a codeword within the cost, and none if and only if no codeword costs that little.
    ghost erased_reads_as: { Self.HasCode → (list : List (Option Self.Letter))
        → IsErasedReadAs Self.Letter.eq Self.IsWord (Self.N - Self.K) list (erased_reading_is list) };

    // So at most one codeword is within the cost of any list.
    ghost erasures_within: { Self.HasCode → Self.N - Self.K < Self.distance_is };
}
