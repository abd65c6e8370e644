//! Words that other programs encoded and decoded. A text represents a symbol by two octal digits.

ghost use Rattle.std.specs.Prelude.{◌-◌, ◌≤◌};
ghost use Rattle.p25_reed_solomon.specs.Words.{IsCode};

mod words;

use self::words::{
    BEYOND_24_12, BEYOND_24_16, BEYOND_36_20, FOUND_24_12, FOUND_24_16, FOUND_36_20,
};
use crate::Rs;
use p25_code::{BlockCode, Reading, read_received, read_with_erasures};
use p25_gf64::Sym;

#[test]
fn the_example_of_the_head(rt: HostRuntime) {
    use p25_code::{BlockCode, Reading};

    let mut word = [Sym::ZERO; 24]; // the word of the information 0
    word[..6].fill(Sym::ONE);
    assert_eq!(rt; Rs::<24, 12>::read(&mut word), Reading::Found { fixes: 6 });
}

#[test]
fn the_example_with_erasures(rt: HostRuntime) {
    use p25_code::{ErasedCode, Reading};

    let mut word = [Sym::ZERO; 24];
    word[..12].fill(Sym::ONE);
    let mut erased = [false; 24];
    erased[..12].fill(true);
    let reading = Rs::<24, 12>::read_erased(&mut word, &erased);
    assert_eq!(rt; reading, Reading::Found { fixes: 12 });
}

// The symbols of a text.
fn symbols_of<const N: usize>(text: &str) -> [Sym; N] {
    let mut symbols = [Sym::default(); N];
    for (symbol, digits) in symbols.iter_mut().zip(text.as_bytes().chunks_exact(2)) {
        *symbol = Sym::new(digits[0] % 8 * 8 + digits[1] % 8).unwrap();
    }
    symbols
}

// Whether a received word is decoded with this result, and to this word.
fn is_read<const N: usize, const K: usize>(
    received: &[Sym; N],
    reading: Reading,
    read: &[Sym; N],
) -> bool
    requires { IsCode N K }
{
    let mut word = *received;
    read_received::<Rs<N, K>>(&mut word) == reading && word == *read
}

// Whether a codeword is the encoding of its information.
fn is_encoded<const N: usize, const K: usize>(sent: &[Sym; N]) -> bool
    requires { IsCode N K }
{
    let mut word = [Sym::default(); N];
    Rs::<N, K>::encode(&sent[..K], &mut word);
    word == *sent && read_received::<Rs<N, K>>(&mut word) == (Reading::Found { fixes: 0 })
}

// Whether a codeword is decoded, and is the encoding of its information.
fn is_found<const N: usize, const K: usize>(row: &(&str, u32, &str)) -> bool
    requires { IsCode N K }
{
    let fixes = row.1;
    let sent = symbols_of::<N>(row.2);
    is_read::<N, K>(&symbols_of::<N>(row.0), Reading::Found { fixes }, &sent)
        && is_encoded::<N, K>(&sent)
}

// Whether no codeword is near enough, and nothing is changed.
fn is_beyond<const N: usize, const K: usize>(received: &str) -> bool
    requires { IsCode N K }
{
    let received = symbols_of::<N>(received);
    is_read::<N, K>(&received, Reading::Beyond, &received)
}

// A word of zeros whose first symbols are 63.
fn zeros_but_first<const N: usize>(count: usize) -> [Sym; N] {
    let mut word = [Sym::default(); N];
    for symbol in word.iter_mut().take(count) {
        *symbol = Sym::new(63).unwrap();
    }
    word
}

// Whether the codeword of zeros is decoded if as many symbols as the correction radius are 63.
fn reads_to<const N: usize, const K: usize>(radius: usize, fixes: u32) -> bool
    requires { IsCode N K }
{
    let received = zeros_but_first::<N>(radius);
    Rs::<N, K>::radius() == radius
        && is_read::<N, K>(&received, Reading::Found { fixes }, &[Sym::default(); N])
}

// A codeword whose first symbols are replaced by other ones.
fn with_wrong<const N: usize>(sent: &[Sym; N], count: usize) -> [Sym; N] {
    let mut word = *sent;
    for symbol in word.iter_mut().take(count) {
        *symbol = symbol.add(Sym::ONE);
    }
    word
}

// This many erasures after the first positions.
fn erased_from<const N: usize>(first: usize, count: usize) -> [bool; N] {
    let mut erased = [false; N];
    for i in 0..N {
        erased[i] = first <= i && i - first < count;
    }
    erased
}

// Whether a received word is decoded with this result and to this word, if this many symbols are erased after the first
// positions.
fn is_read_erased<const N: usize, const K: usize>(
    received: &[Sym; N],
    first: usize,
    erasures: usize,
    reading: Reading,
    read: &[Sym; N],
) -> bool
    requires { IsCode N K }
{
    let mut word = *received;
    let erased = erased_from::<N>(first, erasures);
    read_with_erasures::<Rs<N, K>>(&mut word, &erased) == reading && word == *read
}

// Whether a codeword is decoded with this many erasures at its beginning, and as many symbol errors in them and after
// them as possible: each erasure costs one, each symbol error two.
fn reads_wrong<const N: usize, const K: usize>(sent: &[Sym; N], erasures: usize) -> bool
    requires code { IsCode N K }
    requires few { erasures ≤ N - K }
{
    for wrong in 0..(N - K - erasures) / 2 + 1 {
        let fixes = (erasures + wrong) as u32;
        let received = with_wrong::<N>(sent, erasures + wrong);
        if !is_read_erased::<N, K>(&received, 0, erasures, Reading::Found { fixes }, sent) {
            return false;
        }
    }
    true
}

// Whether that holds for each number of erasures.
fn reads_with<const N: usize, const K: usize>(sent: &str) -> bool
    requires { IsCode N K }
{
    let sent = symbols_of::<N>(sent);
    for erasures in 0..N - K + 1 {
        if !reads_wrong::<N, K>(&sent, erasures) {
            return false;
        }
    }
    true
}

// Whether a word is unchanged if not all of its check symbols are erased, and decoded to the codeword of zeros if all
// are.
fn reads_few<const N: usize, const K: usize>(received: &[Sym; N], erasures: usize) -> bool
    requires code { IsCode N K }
    requires few { erasures ≤ N - K }
{
    if erasures < N - K {
        return is_read_erased::<N, K>(received, K, erasures, Reading::Beyond, received);
    }
    let fixes = erasures as u32;
    is_read_erased::<N, K>(
        received,
        K,
        erasures,
        Reading::Found { fixes },
        &[Sym::default(); N],
    )
}

// The coefficients of (x - α)(x - α^2)..(x - α^(N - K - 1)), which are in the check symbols, differ from each codeword
// in at least N - K symbols. So with fewer erasures than that no codeword is within the cost, with one erasure less by
// one only; and with that many the word is decoded.
fn needs_all<const N: usize, const K: usize>(received: &str) -> bool
    requires { IsCode N K }
{
    let received = symbols_of::<N>(received);
    for erasures in 0..N - K + 1 {
        if !reads_few::<N, K>(&received, erasures) {
            return false;
        }
    }
    true
}

#[test]
fn reads_with_erasures(rt: HostRuntime) {
    assert!(rt;
        reads_with::<36, 20>(
            "270175232777377521255315260744575571261610414715134206634110723660117725"
        )
    );
    assert!(rt; reads_with::<24, 12>("035000476356506273717415466536506351313017440371"));
    assert!(rt; reads_with::<24, 16>("031163745554154624037047554717145530440712313622"));
}

#[test]
fn reads_no_more_than_the_erasures_allow(rt: HostRuntime) {
    assert!(rt;
        needs_all::<36, 20>(
            "000000000000000000000000000000000000000001177110152336315267373505657576"
        )
    );
    assert!(rt; needs_all::<24, 12>("000000000000000000000000017414212573160627644310"));
    assert!(rt; needs_all::<24, 16>("000000000000000000000000000000000173053132213534"));
}

#[test]
fn reads_to_the_radius(rt: HostRuntime) {
    assert!(rt; reads_to::<36, 20>(8, 8));
    assert!(rt; reads_to::<24, 12>(6, 6));
    assert!(rt; reads_to::<24, 16>(4, 4));
}

#[test]
fn words_of_36_20(rt: HostRuntime) {
    for row in &FOUND_36_20 {
        assert!(rt; is_found::<36, 20>(row));
    }
    for received in &BEYOND_36_20 {
        assert!(rt; is_beyond::<36, 20>(received));
    }
}

#[test]
fn words_of_24_12(rt: HostRuntime) {
    for row in &FOUND_24_12 {
        assert!(rt; is_found::<24, 12>(row));
    }
    for received in &BEYOND_24_12 {
        assert!(rt; is_beyond::<24, 12>(received));
    }
}

#[test]
fn words_of_24_16(rt: HostRuntime) {
    for row in &FOUND_24_16 {
        assert!(rt; is_found::<24, 16>(row));
    }
    for received in &BEYOND_24_16 {
        assert!(rt; is_beyond::<24, 16>(received));
    }
}
