//! One call of the program.

ghost use Rattle.std.specs.Prelude.{◌≡◌, []};
ghost use Rattle.p25_io.specs.Streams.{StreamsGo, events_on};
ghost use Rattle.p25_app.specs.Calls.{IsOneCall, words_given};

mod ended;

use super::arguments::words_of;
use super::error_line::{ErrorWriter, tell};
pub use ended::Ended;
use p25_io::Streams;
use p25_tool::{Outcome, outcome_status, run_on};
use std::alloc::Global;
use std::env::Args;
use std::io;
use std::io::{Read, Write};

/// Makes one call of the program, and returns its end.
///
/// The words are the arguments but the first. The events on the streams afterwards, in their order and with no others,
/// are those of one run of these words, by `run_on` of p25_tool. If the allocation for the arguments failed there are
/// none. `stream_laws` of p25_tool states their consequences. One event is made on `errors`: a write of the line of the
/// outcome, which is whole and flushed, or failed. The end has the status of the outcome. It requires that no event was
/// made on the streams or on `errors` before.
pub fn call<R: Read, W: Write, N: Read, E: ErrorWriter>(
    alloc: Global,
    arguments: io::Result<Args>,
    streams: &mut Streams<R, W>,
    errors: &mut Streams<N, E>,
) -> Ended
    requires blank { events_on streams.old ≡ [] }
    requires quiet { events_on errors.old ≡ [] }
    ensures went { StreamsGo R.remaining W.contents streams.old (events_on streams.new) streams.new }
    ensures called { IsOneCall (words_given arguments) (events_on streams.new) (StreamsGo N.remaining E.contents) errors.old errors.new result }
{
    let outcome = match words_of(arguments) {
        Some(words) => run_on(alloc, &words, streams),
        None => Outcome::Memory,
    };
    tell(&outcome, errors);
    Ended::new(outcome_status(&outcome))
}
