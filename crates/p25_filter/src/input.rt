//! The work on an input: reading it in chunks, passing its octets to a command, and writing the command's output.

ghost use Rattle.std.specs.Prelude.{◌≡◌, ◌+◌, ◌*◌, ◌^◌, ◌<◌, ◌≤◌, false, List, [], length, OnOk, IfErr};
ghost use Rattle.p25_io.specs.Events.{Event};
ghost use Rattle.p25_filter.specs.{Futures.{Future, IsIdle}, Goings.{Comes, Goes, MayEnd}, Traces.{IsRun}};

use super::ending::{FilterEnd, Refusal};
use super::filter::Filter;
use super::page::{flush, gather};
use p25_io::Port;
use p25_line::Line;

// The most octets of an input.
const INPUT_MOST: usize = 16_777_216;

// Writes the page, after which there is no further chunk, and returns the end of the work: the given one, or that of a
// write that fails.
fn end_so<P: Port>(end: FilterEnd, page: &mut Line, port: &mut P) -> FilterEnd
    ensures { (now : Future) → MayEnd now end → Comes P.moves port.old page.old now [] result port.new }
{
    match flush(page, port) {
        Ok(()) => end,
        Err(_) => FilterEnd::WriteFault,
    }
}

// Gathers all chunks that the command can return.
fn drain<W: Filter, P: Port>(
    filter: &mut W,
    page: &mut Line,
    piece: &mut Line,
    port: &mut P,
) -> Result<(), FilterEnd>
    ensures goes { OnOk result (Goes P.moves port.old page.old (W.future filter.old) [] port.new page.new (W.future filter.new)) }
    ensures drained { OnOk result (W.IsDrained filter.new) }
    ensures idle { OnOk result (IsIdle (W.is_finished filter.new) (W.future filter.new)) }
    ensures comes { IfErr result (λ end. Comes P.moves port.old page.old (W.future filter.old) [] end port.new) }
    ensures same { W.is_finished filter.new ≡ W.is_finished filter.old }
    ensures size { W.size filter.new ≤ W.size filter.old }
{
    loop {
        match filter.next(piece) {
            Ok(true) => {
                let Ok(()) = gather(page, piece, port) else {
                    return Err(FilterEnd::WriteFault);
                };
            }
            Ok(false) => return Ok(()),
            Err(Refusal::Ended(ending)) => {
                return Err(end_so(FilterEnd::Ended(ending), page, port));
            }
            Err(Refusal::Memory) => return Err(end_so(FilterEnd::Memory, page, port)),
        }
    }
}

// Passes octets to the command, and writes all its output for them.
fn feed<W: Filter, P: Port>(
    filter: &mut W,
    octets: &[u8],
    page: &mut Line,
    piece: &mut Line,
    port: &mut P,
) -> Result<(), FilterEnd>
    requires drained { W.IsDrained filter.old }
    requires idle { IsIdle false (W.future filter.old) }
    requires going { W.is_finished filter.old ≡ false }
    requires few { W.size filter.old + 8 * length octets.now < 2 ^ 28 }
    ensures goes { OnOk result (Goes P.moves port.old page.old (W.future filter.old) octets.now port.new [] (W.future filter.new)) }
    ensures empty { OnOk result (page.new ≡ []) }
    ensures drained { OnOk result (W.IsDrained filter.new) }
    ensures idle { OnOk result (IsIdle false (W.future filter.new)) }
    ensures comes { IfErr result (λ end. Comes P.moves port.old page.old (W.future filter.old) octets.now end port.new) }
    ensures going { W.is_finished filter.new ≡ false }
    ensures size { W.size filter.new ≤ W.size filter.old + 8 * length octets.now }
{
    let mut done = 0;
    while done < octets.len() {
        done += filter.push_some(&octets[done..]);
        match drain(filter, page, piece, port) {
            Ok(()) => {}
            Err(stop) => return Err(stop),
        }
    }
    match flush(page, port) {
        Ok(()) => Ok(()),
        Err(_) => Err(FilterEnd::WriteFault),
    }
}

/// Reads the port to the end of the input, at most 16,777,216 octets, passes the octets to the command and writes its
/// output. Before each read, all output that the octets read so far determine is written, and nothing else. After a
/// fault nothing is read or written. If an allocation fails, the output before it is written.
pub fn run_on<W: Filter, P: Port>(filter: &mut W, port: &mut P) -> FilterEnd
    requires drained { W.IsDrained filter.old }
    requires idle { IsIdle false (W.future filter.old) }
    requires going { W.is_finished filter.old ≡ false }
    requires few { W.size filter.old ≡ 0 }
    ensures { (events : List Event) × P.moves port.old events port.new × IsRun (W.future filter.old) events result }
{
    let mut page = Line::new();
    let mut piece = Line::new();
    let mut buf = [0; 4_096];
    let mut taken = 0;
    loop {
        let Ok(count) = port.read(&mut buf) else {
            return FilterEnd::ReadFault;
        };
        if count == 0 {
            filter.finish();
            if let Err(stop) = drain(filter, &mut page, &mut piece, port) {
                return stop;
            }
            return end_so(FilterEnd::Ended(filter.ending()), &mut page, port);
        }
        let fits = count.min(INPUT_MOST - taken);
        match feed(filter, &buf[..fits], &mut page, &mut piece, port) {
            Ok(()) => {}
            Err(stop) => return stop,
        }
        if fits < count {
            return FilterEnd::TooLong;
        }
        taken += count;
    }
}
