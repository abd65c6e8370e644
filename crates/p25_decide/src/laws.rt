//! Laws of fields that are decoded from soft symbols. Each function states what is proved, and calls at most other theorems.

ghost use Rattle.std.specs.Prelude.{◌≡◌, ℕ, ◌+◌, ◌-◌, ◌*◌, ◌/◌, ◌<◌, ◌≤◌, ◌⊎◌, List, Bool, ℤ, All, Option, Some, None, [], length, slice_get, take, true};
ghost use Rattle.p25_code.specs.LeastCost.{IsCheapest, IsSpread, cheapest_word, pairs_cost};
ghost use Rattle.p25_bits.specs.Distance.{distance_by};
ghost use Rattle.p25_coded_fields.specs.Decided.{InnerWords, read_erasing, symbols_decided, symbols_read, word_decided};
ghost use Rattle.p25_gf64.specs.declared.symbol.Sym.{Sym as symbol};
ghost use Rattle.p25_reed_solomon.specs.{Words.{IsCode, IsWord, same_symbols}, RsReadings.{rs_erased_reading_of}};
ghost use Rattle.p25_golay.specs.{Golay18.{IsGolay18, golay18_word}, Golay24.{IsGolay24, golay24_word}};
ghost use Rattle.p25_hamming.specs.{Hamming10.{IsHamming10, hamming10_word}, Lsd16.{IsLsd16, lsd16_word}};
ghost use Rattle.p25_voice_units.specs.Lengths.{voice_length_of};
ghost use Rattle.p25_soft.specs.Levels.{hard_bits};
ghost use Rattle.p25_stream.specs.Items.{items_of};
ghost use Rattle.p25_follow.specs.Following.{fresh_follow};
ghost use Rattle.p25_decide.specs.{DecidedRecordings.{decide_of, item_decided}, DecidedStretches.{stretches_over}, DecidedFollowing.{changed_by}};
ghost use Rattle.p25_decide.specs.{LevelCosts.{level_cost, word_level_costs}, DecidedUnits.{decided_bare, with_words}};

use p25_code::NumberCode;
use p25_golay::{Golay18, Golay24};
use p25_hamming::{Hamming10, Lsd16};

/// **Theorem.** What an inner codeword is decoded to from the soft symbols of its dibits.
///
/// - `most`: a dibit costs at most 9,216 at a level.
/// - `spread`: the costs of soft symbols separate dibits by a margin of 1,024: two dibits cost together at least 2,048 for each bit in which they
///   differ.
/// - `least`: the result is a codeword, no codeword costs less, and none that costs as much has a lower information.
/// - `near`: a codeword that costs less than 1,024 times the least distance of the code is the result.
pub fn codeword_laws<C: NumberCode>()
    ensures most { (level : ℤ) (dibit : ℕ) → level_cost level dibit ≤ 9216 }
    ensures spread { (levels : List ℤ) (first count : ℕ) → IsSpread 1024 count (word_level_costs levels first count) }
    ensures least { C.HasCode → (levels : List ℤ) (first : ℕ) → let costs = word_level_costs levels first (C.N / 2) in
        IsCheapest C.IsWord C.K costs (cheapest_word C.encoding_is C.K costs) }
    ensures near { C.HasCode → 2 * (C.N / 2) ≡ C.N → (levels : List ℤ) (first : ℕ) (sent : List Bool) → C.IsWord sent →
        let costs = word_level_costs levels first (C.N / 2) in pairs_cost costs sent < 1024 * C.distance_is → cheapest_word C.encoding_is C.K costs ≡ sent }
{}

/// **Theorem.** The radius of each inner code by soft symbols: a codeword that costs less than 8,192 (both Golay codes), 3,072 (Hamming) or
/// 5,120 (low speed data, LSD) is the one that is decoded.
pub fn radius_laws()
    ensures golay18 { (levels : List ℤ) (first : ℕ) (sent : List Bool) → IsGolay18 sent → let costs = word_level_costs levels first 9 in
        pairs_cost costs sent < 8192 → cheapest_word golay18_word 6 costs ≡ sent }
    ensures golay24 { (levels : List ℤ) (first : ℕ) (sent : List Bool) → IsGolay24 sent → let costs = word_level_costs levels first 12 in
        pairs_cost costs sent < 8192 → cheapest_word golay24_word 12 costs ≡ sent }
    ensures hamming10 { (levels : List ℤ) (first : ℕ) (sent : List Bool) → IsHamming10 sent → let costs = word_level_costs levels first 5 in
        pairs_cost costs sent < 3072 → cheapest_word hamming10_word 6 costs ≡ sent }
    ensures lsd16 { (levels : List ℤ) (first : ℕ) (sent : List Bool) → IsLsd16 sent → let costs = word_level_costs levels first 8 in
        pairs_cost costs sent < 5120 → cheapest_word lsd16_word 8 costs ≡ sent }
{
    codeword_laws::<Golay18>();
    codeword_laws::<Golay24>();
    codeword_laws::<Hamming10>();
    codeword_laws::<Lsd16>()
}

/// **Theorem.** What stays of bits if codewords of one length, one after the other, are written at positions.
///
/// - `length`: as many bits as before.
/// - `outside`: each bit that is in none of the codewords.
pub fn place_laws()
    ensures length { (size : ℕ) (places : List ℕ) (words bare : List Bool) → size * length places ≤ length words
        → All (λ at. at + size ≤ length bare) places → length (with_words size places words bare) ≡ length bare }
    ensures outside { (size place : ℕ) (places : List ℕ) (words bare : List Bool) → size * length places ≤ length words
        → All (λ at. at + size ≤ length bare) places → All (λ at. (place < at) ⊎ (at + size ≤ place)) places
        → slice_get (with_words size places words bare) place ≡ slice_get bare place }
{}

/// **Theorem.** What the outer codeword of a field is decoded to from the costs of its inner codewords. It has at most `most` pairs of
/// erased symbols.
///
/// - `near`: a codeword from which at most half of n - k symbols of the decoded inner codewords differ is the result.
/// - `first`: the result is the codeword that is found with the fewest pairs of erasures.
/// - `none`: if no number of pairs finds a codeword, the symbols of the inner codewords stay as they were decoded.
pub fn field_laws()
    ensures near { (words : InnerWords) (n k most : ℕ) (costs : List ℕ) (sent : List symbol) → IsCode n k → words.each * words.count ≡ n → IsWord n k sent
        → 2 * distance_by same_symbols (symbols_read words costs) sent ≤ n - k → word_decided words (rs_erased_reading_of n k) most costs ≡ Some sent }
    ensures first { (words : InnerWords) (outer : List (Option symbol) → Option (List symbol)) (most u : ℕ) (costs : List ℕ) (word : List symbol) → u ≤ most
        → ((v : ℕ) → v < u → read_erasing words outer costs v ≡ None) → read_erasing words outer costs u ≡ Some word
        → word_decided words outer most costs ≡ Some word }
    ensures none { (words : InnerWords) (outer : List (Option symbol) → Option (List symbol)) (most : ℕ) (costs : List ℕ)
        → ((v : ℕ) → v ≤ most → read_erasing words outer costs v ≡ None) → symbols_decided words outer most costs ≡ symbols_read words costs }
{}

/// **Theorem.** What stays of a unit whose coded fields are decoded, without its status symbols: as many bits as before, and its first 112
/// bits, the sync and the network identifier (NID).
pub fn unit_laws()
    ensures length { (duid : ℕ) (levels : List ℤ) (bare : List Bool) → voice_length_of duid ≡ Some (length bare)
        → length (decided_bare duid levels bare) ≡ length bare }
    ensures front { (duid : ℕ) (levels : List ℤ) (bare : List Bool) → voice_length_of duid ≡ Some (length bare)
        → take 112 (decided_bare duid levels bare) ≡ take 112 bare }
{}

/// **Theorem.** A recording of soft symbols decided: `follow`, and then each unit of the followed bits from its soft symbols.
///
/// - `stretches`: one pass over the items of the bits as they came writes the same. Each unit that the scan finds is decided by itself, and
///   each stretch after a unit comes as its chain, in which each unit whose sync and NID are restored is decided.
/// - `follower`: so does a follower that writes the settled bits of a stretch, decided, as soon as they are settled.
pub fn recording_laws()
    ensures stretches { (levels : List ℤ) → let bits = hard_bits levels in
        decide_of levels ≡ stretches_over (item_decided levels) 0 None [] (items_of 0 bits) bits }
    ensures follower { (levels : List ℤ) → let bits = hard_bits levels in
        decide_of levels ≡ changed_by (item_decided levels) true 0 fresh_follow (items_of 0 bits) bits }
{}
