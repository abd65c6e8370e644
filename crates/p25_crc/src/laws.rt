//! The laws of the three checks as functions, and in how many bits two of their words differ. Each body is empty: the function states
//! what is proved.

ghost use Rattle.std.specs.Prelude.{◌≡◌, ℕ, ◌+◌, ◌*◌, ◌≤◌, List, length};
ghost use Rattle.p25_bits.specs.Distance.{distance_of};
ghost use Rattle.p25_crc.specs.{Checks.{IsCrc9, IsCrc16, IsCrc32}, Values.{crc9_of, crc16_of, crc32_of}};
ghost use Rattle.p25_crc.specs.Words.{block_word, header_word, packet_word};

/// **Theorem.** `crc9_of`, `crc16_of` and `crc32_of` return the check of a message, and no other number is its check.
pub fn check_laws()
    ensures crc9 { (serial : ℕ) (octets : List ℕ) → IsCrc9 serial octets (crc9_of serial octets) }
    ensures crc16 { (octets : List ℕ) → IsCrc16 octets (crc16_of octets) }
    ensures crc32 { (octets : List ℕ) → IsCrc32 octets (crc32_of octets) }
    ensures only_crc9 { (serial : ℕ) (octets : List ℕ) (check : ℕ) → IsCrc9 serial octets check → check ≡ crc9_of serial octets }
    ensures only_crc16 { (octets : List ℕ) (check : ℕ) → IsCrc16 octets check → check ≡ crc16_of octets }
    ensures only_crc32 { (octets : List ℕ) (check : ℕ) → IsCrc32 octets check → check ≡ crc32_of octets }
{}

/// **Theorem.** The least distance between two different words of a check, so the least number of bit errors after which a word can
/// still agree with its check.
///
/// - `header`: two packet headers of 96 bits with their checks differ in at least 4 bits.
/// - `block`: two confirmed blocks of 144 bits with their serial numbers and checks differ in at least 3 bits.
/// - `packet`: two packets of one length, at most 127 blocks of 12 octets, with their checks differ in at least 4 bits.
/// - `header_reached`, `block_reached`, `packet_reached`: some two such words differ in no more; these packets have 32 blocks.
pub fn words_apart()
    ensures header { (octets other : List ℕ) → length octets ≡ 10 → length other ≡ 10
        → (header_word octets ≡ header_word other → ⊥) → 4 ≤ distance_of (header_word octets) (header_word other) }
    ensures block { (serial other_serial : ℕ) (octets other : List ℕ) → length octets ≡ 16 → length other ≡ 16
        → (block_word serial octets ≡ block_word other_serial other → ⊥) → 3 ≤ distance_of (block_word serial octets) (block_word other_serial other) }
    ensures packet { (octets other : List ℕ) → length octets ≡ length other → length octets + 4 ≤ 127 * 12
        → (packet_word octets ≡ packet_word other → ⊥) → 4 ≤ distance_of (packet_word octets) (packet_word other) }
    ensures header_reached { (octets : List ℕ) × (other : List ℕ) × (length octets ≡ 10) × (length other ≡ 10)
        × (distance_of (header_word octets) (header_word other) ≡ 4) }
    ensures block_reached { (serial : ℕ) × (other_serial : ℕ) × (octets : List ℕ) × (other : List ℕ) × (length octets ≡ 16) × (length other ≡ 16)
        × (distance_of (block_word serial octets) (block_word other_serial other) ≡ 3) }
    ensures packet_reached { (octets : List ℕ) × (other : List ℕ) × (length octets + 4 ≡ 32 * 12) × (length other + 4 ≡ 32 * 12)
        × (distance_of (packet_word octets) (packet_word other) ≡ 4) }
{}
