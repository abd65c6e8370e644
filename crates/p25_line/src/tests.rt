//! Values computed apart from this code, and each call once.

use super::{
    Line, LineFault, LineWords, WordList, comma_part, hex_value, is_dash, number_value,
    octets_or_dash, words_of,
};
use std::alloc::Global;
use std::test::Fail;

// Whether an emptied line is written in parts.
#[tactic(auto, using(crate::proofs::DecimalLaws::decimal_short))]
fn pieces_are_put(line: &mut Line) -> bool {
    line.clear();
    line.put(b"nac=");
    line.put_hex(&[0x02, 0x9F]);
    line.put(b" at=");
    line.put_number(18_446_744_073_709_551_615);
    line.octets() == b"nac=029f at=18446744073709551615".as_slice()
}

// Whether it is written with labels, three digits and octets.
fn values_are_put(line: &mut Line) -> bool {
    line.clear();
    line.put_labelled(b"at=", 0);
    line.put_labelled(b" bits=", 18_446_744_073_709_551_615);
    line.put(b" nac=");
    line.put_three_digits(0x02A);
    line.put_three_digits(0xF293);
    line.put_octets(&[]);
    line.put_octets(&[0x0A, 0xFF]);
    line.octets() == b"at=0 bits=18446744073709551615 nac=02a293-0aff".as_slice()
}

#[test]
fn line_of_pieces(rt: HostRuntime) {
    let mut line = Line::new();
    line.put(b"left over");
    assert!(rt; pieces_are_put(&mut line));
    assert!(rt; values_are_put(&mut line));
}

#[test]
fn words_of_a_line_that_is_written(rt: HostRuntime) -> Result<(), Fail> {
    let mut line = Line::new();
    line.put(b"tdu nac=");
    line.put_three_digits(0x293);
    let words = LineWords::read(line.octets())?;
    assert_eq!(rt; words.first(), b"tdu".as_slice());
    Ok(())
}

// Whether a line is displayed as this text, for users and for programmers.
fn is_shown(alloc: Global, line: &Line, want: &str) -> bool {
    match format!(in alloc; "{line} {line:?}") {
        Ok(text) => text.as_str() == want,
        Err(_) => false,
    }
}

// Whether a line is displayed for programmers alone, as this text.
fn is_no_text(alloc: Global, line: &Line, want: &str) -> bool {
    match format!(in alloc; "{line:?}") {
        Ok(text) => text.as_str() == want && line.to_string(alloc).is_err(),
        Err(_) => false,
    }
}

// Whether a copy of a line equals another line.
fn is_copied_as(line: &Line, other: &Line) -> bool {
    match line.clone() {
        Ok(copy) => copy == *other,
        Err(_) => false,
    }
}

// A line of one octet, which is no text.
fn line_of_octet(octet: u8) -> Line {
    let mut line = Line::new();
    line.put(&[octet]);
    line
}

// A line is displayed as its text or, if it is not a text, as its octets. Lines are equal if their octets are, whatever
// they held before.
#[test]
fn line_as_a_text(rt: HostRuntime) {
    let mut line = Line::default();
    line.put(b"left over");
    line.clear();
    line.put(b"a=\"");
    assert!(rt; is_shown(rt.alloc(), &line, "a=\" \"a=\\\"\""));
    let mut other = Line::new();
    other.put(b"a=\"");
    assert!(rt; line == other && is_copied_as(&line, &other) && !line.is_empty());
    let octet = line_of_octet(0xFF);
    assert!(rt; line != octet && is_no_text(rt.alloc(), &octet, "[255]"));
}

// Whether a line has this many words, or is refused.
fn has_words(line: &[u8], answer: Result<(), LineFault>, count: usize) -> bool {
    let mut words = WordList::new();
    words_of(line, &mut words) == answer && words.count() == count
}

const LINES: [(&[u8], Result<(), LineFault>, usize); 6] = [
    (b"tdu nac=293", Ok(()), 2),
    (b"a b c d e f g h i j k l m n o p q r", Ok(()), 18),
    (b"tdu  nac=293", Err(LineFault::Form), 0),
    (b"tdu ", Err(LineFault::Form), 0),
    (b"", Err(LineFault::Form), 0),
    (b"tdu\tnac=293", Err(LineFault::Form), 0),
];

#[test]
fn words_of_lines(rt: HostRuntime) {
    let long = [b'a'; 8_193];
    assert!(rt; has_words(&long[..8_192], Ok(()), 1));
    assert!(rt; has_words(&long, Err(LineFault::Long), 0));
    for (line, answer, count) in &LINES {
        assert!(rt; has_words(line, *answer, *count));
    }
}

// Whether this word is at a position of a line.
fn has_word(words: &LineWords, place: usize, word: &[u8]) -> bool {
    place < words.count() && place < 16 && words.get(place) == word
}

// Whether a line decodes to this many words, with this one first and this one at a position.
fn is_read(line: &[u8], count: usize, first: &[u8], place: usize, word: &[u8]) -> bool {
    match LineWords::read(line) {
        Ok(words) => {
            words.count() == count && words.first() == first && has_word(&words, place, word)
        }
        Err(_) => false,
    }
}

#[test]
fn words_of_a_line_that_is_read(rt: HostRuntime) {
    let line: &[u8] = b"a b c d e f g h i j k l m n o p q r";
    assert!(rt; is_read(line, 18, b"a", 15, b"p"));
}

// Whether a line decodes to one word.
fn is_one_word(line: &[u8]) -> bool {
    match LineWords::read(line) {
        Ok(words) => words.count() == 1,
        Err(_) => false,
    }
}

// Whether a line is refused for this reason.
fn is_refused(line: &[u8], fault: LineFault) -> bool {
    matches!(LineWords::read(line), Err(cause) if cause == fault)
}

#[test]
fn long_lines_and_lines_that_are_refused(rt: HostRuntime) {
    let long = [b'a'; 8_193];
    assert!(rt; is_one_word(&long[..8_192]));
    assert!(rt; is_refused(&long, LineFault::Long));
    assert!(rt; is_refused(b"", LineFault::Form));
    assert!(rt; is_refused(b"tdu  nac=293", LineFault::Form));
}

#[test]
fn second_word(rt: HostRuntime) -> Result<(), Fail> {
    let line: &[u8] = b"tdu nac=293";
    let mut words = WordList::new();
    words_of(line, &mut words)?;
    assert_eq!(rt; words.count(), 2);
    assert_eq!(rt; words.word(line, 1), b"nac=293".as_slice());
    Ok(())
}

const NUMBERS: [(&[u8], u64, Option<u64>); 6] = [
    (b"10001", 10_000, None),
    (b"10000", 10_000, Some(10_000)),
    (b"007", 10_000, None),
    (b"0", 10_000, Some(0)),
    (b"+7", 10_000, None),
    (b"18446744073709551616", 18_446_744_073_709_551_615, None),
];

// Whether a word is an octet in hexadecimal, and what the buffer, which held 7, contains afterwards.
fn is_hex(word: &[u8], answer: bool, octet: u8) -> bool {
    let mut octets = [7];
    hex_value(word, &mut octets) == answer && octets == [octet]
}

// Numbers with each count of digits up to five, the least and the greatest.
const DECIMALS: [(u64, &[u8]); 8] = [
    (0, b"0"),
    (9, b"9"),
    (10, b"10"),
    (99, b"99"),
    (100, b"100"),
    (1_009, b"1009"),
    (10_000, b"10000"),
    (90_817, b"90817"),
];

// Whether this is the decimal text of a number.
#[tactic(auto, using(crate::proofs::DecimalLaws::decimal_short))]
fn is_decimal(number: u64, text: &[u8]) -> bool {
    let mut line = Line::new();
    line.put_number(number);
    line.octets() == text
}

#[test]
fn decimal_numbers(rt: HostRuntime) {
    for (number, text) in &DECIMALS {
        assert!(rt; is_decimal(*number, text));
    }
}

// Whether a word is this number, or none.
fn is_number(word: &[u8], most: u64, number: Option<u64>) -> bool {
    number_value(word, most) == number
}

#[test]
fn values_of_words(rt: HostRuntime) {
    assert!(rt; is_hex(b"0A", false, 7));
    assert!(rt; is_hex(b"0a", true, 10));
    for (word, most, number) in &NUMBERS {
        assert!(rt; is_number(word, *most, *number));
    }
}

// A word, and its octets, at most two.
const OCTETS: [(&[u8], Option<&[u8]>); 8] = [
    (b"-", Some(b"")),
    (b"0a", Some(b"\x0A")),
    (b"0aff", Some(b"\x0A\xFF")),
    (b"0aff00", None),
    (b"0af", None),
    (b"0A", None),
    (b"", None),
    (b"--", None),
];

// Whether a word is these octets, or none, and then the buffer is unchanged.
fn are_octets(word: &[u8], octets: Option<&[u8]>) -> bool {
    let mut room = [7; 2];
    match (octets_or_dash(word, &mut room), octets) {
        (Some(count), Some(octets)) => &room[..count] == octets,
        (None, None) => room == [7; 2],
        _ => false,
    }
}

#[test]
fn octets_of_words(rt: HostRuntime) {
    for (word, octets) in &OCTETS {
        assert!(rt; are_octets(word, *octets));
    }
}

// A word, a position in it, the part that begins there, and whether that part is `-`.
const PARTS: [(&[u8], usize, &[u8], bool); 8] = [
    (b"3,14,15", 0, b"3", false),
    (b"3,14,15", 2, b"14", false),
    (b"3,14,15", 5, b"15", false),
    (b"3,", 2, b"", false),
    (b",3", 0, b"", false),
    (b"", 0, b"", false),
    (b"-", 0, b"-", true),
    (b"--", 0, b"--", false),
];

// Whether this part begins at a position of a word, and whether it is `-`.
fn is_part(word: &[u8], start: usize, part: &[u8], dash: bool) -> bool {
    if start > word.len() {
        return false;
    }
    let found = comma_part(word, start);
    found == part && is_dash(found) == dash
}

#[test]
fn parts_of_lists(rt: HostRuntime) {
    for (word, start, part, dash) in &PARTS {
        assert!(rt; is_part(word, *start, part, *dash));
    }
}

const FAULTS: [(LineFault, &str); 5] = [
    (LineFault::Long, "long"),
    (LineFault::Form, "form"),
    (LineFault::Kind, "kind"),
    (LineFault::Key, "key"),
    (LineFault::Value, "value"),
];

// Whether a fault is displayed as this word.
fn is_fault_shown(alloc: Global, fault: LineFault, word: &str) -> bool {
    match format!(in alloc; "{fault}") {
        Ok(text) => text.as_str() == word,
        Err(_) => false,
    }
}

#[test]
fn fault_words(rt: HostRuntime) {
    for (fault, word) in &FAULTS {
        assert!(rt; is_fault_shown(rt.alloc(), *fault, word));
    }
}
