//! Decoding of fields from the costs of their bits (soft decisions).

ghost use Rattle.std.specs.Prelude.{◌≡◌, ℕ, suc, ◌+◌, ◌*◌, ◌/◌, ◌^◌, ◌<◌, ◌≤◌, All, None, false, length, replicate, slice_index};
ghost use Rattle.std.specs.Option.{is_some};
ghost use Rattle.p25_bits.specs.{Bits.{bits_of}, Numbers.{joined_below}};
ghost use Rattle.p25_code.specs.Erasures.{without_erased};
ghost use Rattle.p25_link.specs.Symbols.{symbols_in};
ghost use Rattle.p25_coded_fields.specs.Decided.{first_found, information_at, inner_words, least_at, marks_by, rank_at, rank_of, read_marking, second_at, stands_before, symbols_decided, symbols_or, symbols_read, word_decided};

use p25_code::{ErasedCode, NumberCode, Reading, cheapest, cost_margin, read_with_erasures};
use p25_gf64::Sym;
use p25_link::put_symbols;

// The most inner codewords of a field, and the most symbols.
const MOST: usize = 36;

// Decodes the inner words, and leaves their informations, as numbers.
fn read_words<I: NumberCode>(costs: &[u32], infos: &mut [u32])
    requires code { I.HasCode }
    requires pairs { 2 * (I.N / 2) ≡ I.N }
    requires small { I.N ≤ 24 }
    requires sixes { 6 * (I.K / 6) ≡ I.K }
    requires few { length infos.old ≤ 36 }
    requires costs { length costs.now ≡ 2 * I.N * length infos.old }
    requires low { All (λ cost. cost ≤ 2 ^ 16) costs.now }
    ensures each { let words = inner_words (length infos.old) I.N (I.K / 6) I.encoding_is in
        (i : ℕ) → i < length infos.old → slice_index infos.new i ≡ information_at words costs.now i }
    ensures low { (i : ℕ) → i < length infos.old → slice_index infos.new i < 2 ^ I.K }
{
    let size = 2 * I::N;
    for i in 0..infos.len() {
        infos[i] = cheapest::<I>(&costs[size * i..size * i + size]);
    }
}

// Writes the symbols of the informations, `each` of one.
fn put_words(infos: &[u32], each: usize, word: &mut [Sym])
    requires each { each ≤ 2 }
    requires few { length infos.now ≤ 36 }
    requires word { each * length infos.now ≡ length word.old }
    ensures { word.new ≡ joined_below (length infos.now) (λ i. symbols_in each (bits_of (6 * each) (slice_index infos.now i))) }
{
    for i in 0..infos.len() {
        put_symbols(u128::from(infos[i]), &mut word[each * i..each * i + each]);
    }
}

// Writes the costs of the inner codewords, and those of the cheapest other codewords.
fn weigh<I: NumberCode>(costs: &[u32], infos: &[u32], leasts: &mut [u32], seconds: &mut [u32])
    requires code { I.HasCode }
    requires pairs { 2 * (I.N / 2) ≡ I.N }
    requires small { I.N ≤ 24 }
    requires sixes { 6 * (I.K / 6) ≡ I.K }
    requires some { 0 < I.K }
    requires few { length infos.now ≤ 36 }
    requires leasts { length leasts.old ≡ length infos.now }
    requires seconds { length seconds.old ≡ length infos.now }
    requires costs { length costs.now ≡ 2 * I.N * length infos.now }
    requires low { All (λ cost. cost ≤ 2 ^ 16) costs.now }
    requires infos { let words = inner_words (length infos.now) I.N (I.K / 6) I.encoding_is in
        (i : ℕ) → i < length infos.now → slice_index infos.now i ≡ information_at words costs.now i }
    requires fit { (i : ℕ) → i < length infos.now → slice_index infos.now i < 2 ^ I.K }
    ensures leasts { let words = inner_words (length infos.now) I.N (I.K / 6) I.encoding_is in
        (i : ℕ) → i < length infos.now → slice_index leasts.new i ≡ least_at words costs.now i }
    ensures seconds { let words = inner_words (length infos.now) I.N (I.K / 6) I.encoding_is in
        (i : ℕ) → i < length infos.now → slice_index seconds.new i ≡ second_at words costs.now i }
    ensures low { All (λ cost. cost ≤ 2 ^ 20) leasts.new × All (λ cost. cost ≤ 2 ^ 20) seconds.new }
{
    let size = 2 * I::N;
    for i in 0..infos.len() {
        let margin = cost_margin::<I>(&costs[size * i..size * i + size], infos[i]);
        leasts[i] = margin.least;
        seconds[i] = margin.second;
    }
}

// Returns whether the inner word at index `i` is before the one at index `j` in the order, the least certain first.
fn is_before(leasts: &[u32], seconds: &[u32], i: usize, j: usize) -> bool
    requires first { i < length leasts.now }
    requires second { j < length leasts.now }
    requires few { length leasts.now ≤ 36 }
    requires seconds { length seconds.now ≡ length leasts.now }
    requires low { All (λ cost. cost ≤ 2 ^ 20) leasts.now × All (λ cost. cost ≤ 2 ^ 20) seconds.now }
    ensures { result ≡ stands_before (slice_index leasts.now) (slice_index seconds.now) i j }
{
    let (first, second) = (seconds[i] + 2 * leasts[j], seconds[j] + 2 * leasts[i]);
    first < second || first == second && i < j
}

// Returns the number of inner words before the one at index `i` in the order, the least certain first.
fn rank(leasts: &[u32], seconds: &[u32], i: usize) -> usize
    requires place { i < length leasts.now }
    requires few { length leasts.now ≤ 36 }
    requires seconds { length seconds.now ≡ length leasts.now }
    requires low { All (λ cost. cost ≤ 2 ^ 20) leasts.now × All (λ cost. cost ≤ 2 ^ 20) seconds.now }
    ensures value { result ≡ rank_of (length leasts.now) (stands_before (slice_index leasts.now) (slice_index seconds.now)) i }
    ensures low { result ≤ 36 }
{
    let mut before = 0;
    for j in 0..leasts.len() {
        before += usize::from(is_before(leasts, seconds, j, i));
    }
    before
}

// Writes the rank of each inner word.
fn put_ranks(leasts: &[u32], seconds: &[u32], ranks: &mut [usize])
    requires few { length leasts.now ≤ 36 }
    requires seconds { length seconds.now ≡ length leasts.now }
    requires ranks { length ranks.old ≡ length leasts.now }
    requires low { All (λ cost. cost ≤ 2 ^ 20) leasts.now × All (λ cost. cost ≤ 2 ^ 20) seconds.now }
    ensures each { (i : ℕ) → i < length leasts.now
        → slice_index ranks.new i ≡ rank_of (length leasts.now) (stands_before (slice_index leasts.now) (slice_index seconds.now)) i }
    ensures low { All (λ rank. rank ≤ 36) ranks.new }
{
    for i in 0..leasts.len() {
        ranks[i] = rank(leasts, seconds, i);
    }
}

// Writes the rank of each inner word by its costs.
fn put_order<I: NumberCode>(costs: &[u32], infos: &[u32], ranks: &mut [usize])
    requires code { I.HasCode }
    requires pairs { 2 * (I.N / 2) ≡ I.N }
    requires small { I.N ≤ 24 }
    requires sixes { 6 * (I.K / 6) ≡ I.K }
    requires some { 0 < I.K }
    requires few { length infos.now ≤ 36 }
    requires ranks { length ranks.old ≡ length infos.now }
    requires costs { length costs.now ≡ 2 * I.N * length infos.now }
    requires low { All (λ cost. cost ≤ 2 ^ 16) costs.now }
    requires infos { let words = inner_words (length infos.now) I.N (I.K / 6) I.encoding_is in
        (i : ℕ) → i < length infos.now → slice_index infos.now i ≡ information_at words costs.now i }
    requires fit { (i : ℕ) → i < length infos.now → slice_index infos.now i < 2 ^ I.K }
    ensures each { let words = inner_words (length infos.now) I.N (I.K / 6) I.encoding_is in
        (i : ℕ) → i < length infos.now → slice_index ranks.new i ≡ rank_at words costs.now i }
    ensures low { All (λ rank. rank ≤ 36) ranks.new }
{
    let mut leasts = [0; MOST];
    let mut seconds = [0; MOST];
    let leasts = &mut leasts[..infos.len()];
    let seconds = &mut seconds[..infos.len()];
    weigh::<I>(costs, infos, leasts, seconds);
    put_ranks(leasts, seconds, ranks);
}

// Marks as erased the symbols of the first words of the order, `symbols` symbols in all.
fn mark(ranks: &[usize], each: usize, symbols: usize, erased: &mut [bool])
    requires each { each ≤ 2 }
    requires few { length ranks.now ≤ 36 }
    requires low { All (λ rank. rank ≤ 36) ranks.now }
    requires erased { each * length ranks.now ≡ length erased.old }
    ensures { erased.new ≡ marks_by each (length ranks.now) (slice_index ranks.now) symbols }
{
    for i in 0..ranks.len() {
        erased[each * i..each * i + each].fill(each * ranks[i] < symbols);
    }
}

// Decodes the outer word without erasures, and returns whether a codeword was found. If not, the symbols are unchanged.
fn read_whole<O: ErasedCode<Letter = Sym>>(word: &mut [Sym]) -> bool
    requires code { O.HasCode }
    requires word { length word.old ≡ O.N }
    requires short { O.N ≤ 36 }
    ensures word { let unmarked = replicate (length word.old) false in word.new ≡ symbols_or word.old (O.erased_reading_is (without_erased word.old unmarked)) }
    ensures found { let unmarked = replicate (length word.old) false in result ≡ is_some (O.erased_reading_is (without_erased word.old unmarked)) }
{
    let unmarked = [false; MOST];
    match read_with_erasures::<O>(word, &unmarked[..word.len()]) {
        Reading::Found { .. } => true,
        Reading::Beyond => false,
    }
}

// Decodes the outer word with one pair of symbols erased, with two, and so on, until a codeword is found, and returns
// whether one is. If none is found, the symbols are unchanged.
fn read_erasing<O: ErasedCode<Letter = Sym>>(
    ranks: &[usize],
    each: usize,
    most: usize,
    word: &mut [Sym],
) -> bool
    requires code { O.HasCode }
    requires each { each ≤ 2 }
    requires few { length ranks.now ≤ 36 }
    requires low { All (λ rank. rank ≤ 36) ranks.now }
    requires most { most ≤ 36 }
    requires word { length word.old ≡ O.N }
    requires short { O.N ≤ 36 }
    requires words { each * length ranks.now ≡ O.N }
    requires none { read_marking O.erased_reading_is word.old each (length ranks.now) (slice_index ranks.now) 0 ≡ None }
    ensures word { let reading = read_marking O.erased_reading_is word.old each (length ranks.now) (slice_index ranks.now) in
        word.new ≡ symbols_or word.old (first_found (suc most) reading) }
    ensures found { let reading = read_marking O.erased_reading_is word.old each (length ranks.now) (slice_index ranks.now) in
        result ≡ is_some (first_found (suc most) reading) }
{
    let mut all = [false; MOST];
    let erased = &mut all[..word.len()];
    for pairs in 1..most + 1 {
        mark(ranks, each, 2 * pairs, erased);
        match read_with_erasures::<O>(word, erased) {
            Reading::Found { .. } => return true,
            Reading::Beyond => {}
        }
    }
    false
}

// Decodes the outer word of symbols that were decoded from costs. If no codeword is found without erasures, the least
// certain symbols are erased.
fn read_ordered<I: NumberCode, O: ErasedCode<Letter = Sym>>(
    costs: &[u32],
    infos: &[u32],
    most: usize,
    word: &mut [Sym],
) -> bool
    requires code { I.HasCode }
    requires outer { O.HasCode }
    requires pairs { 2 * (I.N / 2) ≡ I.N }
    requires small { I.N ≤ 24 }
    requires sixes { 6 * (I.K / 6) ≡ I.K }
    requires some { 0 < I.K }
    requires two { I.K ≤ 12 }
    requires short { O.N ≤ 36 }
    requires most { most ≤ 36 }
    requires word { length word.old ≡ O.N }
    requires few { length infos.now ≤ 36 }
    requires words { (I.K / 6) * length infos.now ≡ O.N }
    requires costs { length costs.now ≡ 2 * I.N * length infos.now }
    requires low { All (λ cost. cost ≤ 2 ^ 16) costs.now }
    requires infos { let words = inner_words (length infos.now) I.N (I.K / 6) I.encoding_is in
        (i : ℕ) → i < length infos.now → slice_index infos.now i ≡ information_at words costs.now i }
    requires fit { (i : ℕ) → i < length infos.now → slice_index infos.now i < 2 ^ I.K }
    requires read { word.old ≡ symbols_read (inner_words (length infos.now) I.N (I.K / 6) I.encoding_is) costs.now }
    requires none { O.erased_reading_is (without_erased word.old (replicate (length word.old) false)) ≡ None }
    ensures word { word.new ≡ symbols_decided (inner_words (length infos.now) I.N (I.K / 6) I.encoding_is) O.erased_reading_is most costs.now }
    ensures found { result ≡ is_some (word_decided (inner_words (length infos.now) I.N (I.K / 6) I.encoding_is) O.erased_reading_is most costs.now) }
{
    let mut ranks = [0; MOST];
    let ranks = &mut ranks[..infos.len()];
    put_order::<I>(costs, infos, ranks);
    read_erasing::<O>(ranks, I::K / 6, most, word)
}

// Decodes a field, with a buffer for the informations of its inner words.
fn decide_words<I: NumberCode, O: ErasedCode<Letter = Sym>>(
    costs: &[u32],
    infos: &mut [u32],
    most: usize,
    word: &mut [Sym],
) -> bool
    requires code { I.HasCode }
    requires outer { O.HasCode }
    requires pairs { 2 * (I.N / 2) ≡ I.N }
    requires small { I.N ≤ 24 }
    requires sixes { 6 * (I.K / 6) ≡ I.K }
    requires some { 0 < I.K }
    requires two { I.K ≤ 12 }
    requires short { O.N ≤ 36 }
    requires most { most ≤ 36 }
    requires word { length word.old ≡ O.N }
    requires few { length infos.old ≤ 36 }
    requires words { (I.K / 6) * length infos.old ≡ O.N }
    requires costs { length costs.now ≡ 2 * I.N * length infos.old }
    requires low { All (λ cost. cost ≤ 2 ^ 16) costs.now }
    ensures word { word.new ≡ symbols_decided (inner_words (length infos.old) I.N (I.K / 6) I.encoding_is) O.erased_reading_is most costs.now }
    ensures found { result ≡ is_some (word_decided (inner_words (length infos.old) I.N (I.K / 6) I.encoding_is) O.erased_reading_is most costs.now) }
{
    read_words::<I>(costs, infos);
    put_words(infos, I::K / 6, word);
    if read_whole::<O>(word) {
        return true;
    }
    read_ordered::<I, O>(costs, infos, most, word)
}

/// Decodes a field of a data unit from the costs of its bits. Each inner word is decoded to the cheapest codeword. Then
/// the outer word is decoded with no symbol erased, with the two least certain, with four, and so on, up to `most`
/// pairs, until a codeword is found. An inner word is the less certain, the smaller the cost of the cheapest other
/// codeword minus twice its own cost; among equal ones the first is the least certain.
///
/// It requires four numbers in `costs` for each pair of bits of the inner words, `count` words one after the other. The
/// call returns whether a codeword was found, and writes to `word` its symbols. If none was found, it writes the
/// symbols of the inner words as they were decoded. In the terms of coding theory this is soft-decision decoding of the
/// inner code, and generalized minimum distance decoding of the outer one.
pub fn decide_field<I: NumberCode, O: ErasedCode<Letter = Sym>>(
    costs: &[u32],
    count: usize,
    most: usize,
    word: &mut [Sym],
) -> bool
    requires inner { I.HasCode }
    requires outer { O.HasCode }
    requires pairs { 2 * (I.N / 2) ≡ I.N }
    requires small { I.N ≤ 24 }
    requires sixes { 6 * (I.K / 6) ≡ I.K }
    requires some { 0 < I.K }
    requires two { I.K ≤ 12 }
    requires short { O.N ≤ 36 }
    requires most { most ≤ 36 }
    requires word { length word.old ≡ O.N }
    requires count { (I.K / 6) * count ≡ O.N }
    requires costs { length costs.now ≡ 2 * I.N * count }
    requires low { All (λ cost. cost ≤ 2 ^ 16) costs.now }
    ensures word { word.new ≡ symbols_decided (inner_words count I.N (I.K / 6) I.encoding_is) O.erased_reading_is most costs.now }
    ensures found { result ≡ is_some (word_decided (inner_words count I.N (I.K / 6) I.encoding_is) O.erased_reading_is most costs.now) }
{
    let mut infos = [0; MOST];
    decide_words::<I, O>(costs, &mut infos[..count], most, word)
}
