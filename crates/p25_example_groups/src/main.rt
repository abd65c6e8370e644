//! Prints the group and the radio of each LDU1, voice with link control (LC), on standard input, in decimal, as it
//! arrives.
//!
//! This program shows the order of the calls. Push octets, take every item that they decide, and only then push more.
//! At the end of the input call `finish`, and take items once more: the end decides the items that no octet decided.
#![tactic(auto)]

ghost use Rattle.std.specs.{Prelude.{◌≡◌, ◌+◌, ◌-◌, ◌*◌, ◌^◌, ◌<◌, Some, [], false, length, IfSome, OnOk}, Io.KnownBytes.{Appends}};
ghost use Rattle.p25_bits.specs.Bits.{octet_bits};
ghost use Rattle.p25_stream.specs.Scan.{given};
ghost use Rattle.p25_example_groups.specs.{Printed.{HasPrinted, lines_left, lines_of, talk_line}, Talks.{talk_of, talk_text}};

use p25_link::LinkKind;
use p25_stream::{Item, Scanner};
use p25_units::{Body, VoiceUnit};
use std::io::{Read, Write};
use std::{fmt, io};

#[cfg(test)]
mod tests;

/// The radio that transmits and the group that it calls.
#[derive(Clone, Copy, Debug, PartialEq, Eq)]
struct Talk {
    group: u16,
    radio: u32,
}

impl fmt::Display for Talk {
    ghost output = { λ talk. Some (talk_text talk) };

    fn fmt<W: fmt::Write>(&self, f: &mut fmt::Formatter<W>) -> fmt::Result {
        let Talk { group, radio } = *self;
        write!(f, "group {group} radio {radio}")
    }
}

fn main(rt: HostRuntime) -> io::Result<()> {
    let mut input = rt.stdin();
    let mut output = rt.stdout();
    print_groups(&mut input, &mut output)
}

// Prints the line of each talk of a recording, as it arrives. After `Ok` the output is exactly those lines, if there are fewer octets
// than reads, and if the reader exposes its remaining octets and the writer its contents. The clause states nothing of an `Err`:
// neither its cause nor what was printed before it.
fn print_groups<R: Read, W: Write>(input: &mut R, output: &mut W) -> io::Result<()>
    ensures { OnOk result (IfSome (R.remaining input.old) (λ octets. length octets < 2 ^ 32 - 1
        → Appends (W.contents output.old) (W.contents output.new) (lines_of octets))) }
{
    let mut scanner = Scanner::new();
    let mut octets = [0; 4_096];
    // A scanner takes up to 2^60 bits, and this number of reads returns fewer than 2^47.
    for _ in 0..u32::MAX {
        let count = input.read(&mut octets)?;
        if count == 0 {
            return print_last(&mut scanner, output);
        }
        scan(&octets[..count], &mut scanner, output)?;
    }
    print_last(&mut scanner, output)
}

// Pushes octets, a few at a time, and prints the lines that each few decide. A scanner takes octets only while it has
// no item left, which is what `drained` states.
fn scan<W: Write>(octets: &[u8], scanner: &mut Scanner, output: &mut W) -> io::Result<()>
    requires drained { given scanner.old ≡ [] }
    requires going { scanner.old.finished ≡ false }
    requires few { scanner.old.place + length scanner.old.held + 8 * length octets.now < 2 ^ 60 }
    ensures drained { OnOk result (given scanner.new ≡ []) }
    ensures going { OnOk result (scanner.new.finished ≡ false) }
    ensures bits { OnOk result (scanner.new.place + length scanner.new.held ≡ scanner.old.place + length scanner.old.held + 8 * length octets.now) }
    ensures printed { OnOk result (HasPrinted (octet_bits octets.now) (W.contents output.old) scanner.old (W.contents output.new) scanner.new) }
{
    let mut taken = 0;
    while taken < octets.len() {
        taken += scanner.push_some(&octets[taken..]);
        print_talks(scanner, output)?;
    }
    Ok(())
}

// Prints a line for each talk among the items that the scanner can return, until none is left.
fn print_talks<W: Write>(scanner: &mut Scanner, output: &mut W) -> io::Result<()>
    ensures drained { OnOk result (given scanner.new ≡ []) }
    ensures same { scanner.new.finished ≡ scanner.old.finished }
    ensures bits { scanner.new.place + length scanner.new.held ≡ scanner.old.place + length scanner.old.held }
    ensures printed { OnOk result (HasPrinted [] (W.contents output.old) scanner.old (W.contents output.new) scanner.new) }
{
    while let Some(item) = scanner.next_item() {
        print_talk(read_talk(&item), output)?;
    }
    Ok(())
}

// Prints the line of a talk, if there is one.
fn print_talk<W: Write>(talk: Option<Talk>, output: &mut W) -> io::Result<()>
    ensures { OnOk result (Appends (W.contents output.old) (W.contents output.new) (talk_line talk)) }
{
    match talk {
        Some(talk) => writeln!(output, "{talk}"),
        None => Ok(()),
    }
}

// Ends the input, and prints the lines that the end decides.
fn print_last<W: Write>(scanner: &mut Scanner, output: &mut W) -> io::Result<()>
    ensures { OnOk result (Appends (W.contents output.old) (W.contents output.new) (lines_left scanner.old [])) }
{
    scanner.finish();
    print_talks(scanner, output)
}

// Returns the talk of an item, if the item is a whole LDU1 whose link control (LC) has one.
fn read_talk(item: &Item) -> Option<Talk>
    ensures { result ≡ talk_of item.now }
{
    let Item::Whole { frame, .. } = item else {
        return None;
    };
    let Body::Voice(VoiceUnit::Link1 { link, .. }) = frame.unit.body() else {
        return None;
    };
    match link.kind() {
        LinkKind::Group { group, source, .. } => Some(Talk {
            group,
            radio: source,
        }),
        LinkKind::Individual { .. } | LinkKind::Other => None,
    }
}
