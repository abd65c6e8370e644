//! Two stations, one message, and one inverted bit: prints each step.
//!
//! A `World` holds both stations and the newest transmission of each direction. Each event is one call of `step`, which
//! returns its result. Nothing is transmitted by itself: the arrival of a transmission at the other station is an event
//! too.
#![tactic(auto)]

ghost use Rattle.std.specs.{Prelude.{◌≡◌, ◌<◌, [], ◌∷◌, Some, OnOk, IfOk, codes}, Io.KnownBytes.{Appends}};
ghost use Rattle.p25_stations.specs.{Runs.{steps_of, world_run}, WorldState.{first_world}};
ghost use Rattle.p25_example_exchange.specs.Exchanges.{counts_text, events_of, exchange_text, steps_text, told_text};

use p25_stations::{Event, Flips, Message, Step, StepKind, World};
use std::alloc::{AllocError, Global};
use std::io::Write;
use std::{fmt, io};

#[cfg(test)]
mod tests;

fn main(rt: HostRuntime) -> io::Result<()> {
    let mut output = rt.stdout();
    print_exchange(rt.alloc(), &mut output)
}

// Prints the steps of one message, and the counts after them. After `Ok` the output is exactly these lines, if the writer exposes its
// contents. The clause states nothing of an `Err`: neither its cause nor what was printed before it.
fn print_exchange<W: Write>(alloc: Global, output: &mut W) -> io::Result<()>
    ensures { OnOk result (Appends (W.contents output.old) (W.contents output.new) (exchange_text (events_of (codes "meet at the gate") 400))) }
{
    let mut world = World::new(alloc);
    let Some(message) = Message::new(b"meet at the gate") else {
        // By the contract of `new` this number of octets is a message, so the check proves that no call comes here.
        unreachable!();
    };
    let steps = exchange(&mut world, message, 400)?;
    print_steps(&steps, output)?;
    print_counts(&world, output)
}

// Prints a line for each step.
fn print_steps<W: Write>(steps: &[Step], output: &mut W) -> io::Result<()>
    ensures { OnOk result (Appends (W.contents output.old) (W.contents output.new) (steps_text steps.now)) }
{
    for i in 0..steps.len() {
        let kind = Told(&steps[i].kind);
        writeln!(output, "{kind}")?;
    }
    Ok(())
}

// Prints the numbers of messages sent, delivered and acknowledged.
fn print_counts<W: Write>(world: &World, output: &mut W) -> io::Result<()>
    ensures { OnOk result (Appends (W.contents output.old) (W.contents output.new) (counts_text world.now.state)) }
{
    let sent = world.sent().len();
    let delivered = world.delivered().len();
    let acknowledged = world.acknowledged();
    writeln!(
        output,
        "sent {sent}, delivered {delivered}, acknowledged {acknowledged}"
    )
}

// Offers a message to the sender of a new world, delivers its transmission to the receiver with the bit at one position
// inverted, and delivers the response as transmitted. Returns the three steps. The contract is in the terms of the
// theorems in `p25_stations::laws`: `steps_of` and `world_run` of a list of events.
fn exchange(world: &mut World, message: Message, place: u16) -> Result<[Step; 3], AllocError>
    requires first { world.old.state ≡ first_world }
    requires place { place < 25920 }
    ensures steps { IfOk result (λ steps. steps ≡ steps_of first_world (events_of message place)) }
    ensures world { OnOk result (world.new.state ≡ world_run first_world (events_of message place)) }
{
    let offered = world.step(&Event::Send(message))?;
    let heard = world.step(&Event::ToReceiver(one_place(place)))?;
    let answered = world.step(&Event::ToSender(Flips::new()))?;
    Ok([offered, heard, answered])
}

// Returns the list of one position.
fn one_place(place: u16) -> Flips
    requires { place < 25920 }
    ensures { result ≡ place ∷ [] }
{
    let mut flips = Flips::new();
    flips.push(place);
    flips
}

/// A step in words.
#[derive(Drop)]
struct Told<'a>(&'a StepKind);

impl fmt::Display for Told<'_> {
    ghost output = { λ told. Some (told_text told.0.now) };

    fn fmt<W: fmt::Write>(&self, f: &mut fmt::Formatter<W>) -> fmt::Result {
        match self.0 {
            StepKind::Taken { number, blocks } => {
                write!(f, "sent: packet {number}, blocks {blocks}")
            }
            StepKind::Delivered { number, message } => {
                let count = message.octets().len();
                write!(f, "delivered: packet {number}, octets {count}")
            }
            StepKind::Acknowledged { number } => write!(f, "acknowledged: packet {number}"),
            StepKind::Lost { .. } => write!(f, "lost"),
            _ => write!(f, "something else"),
        }
    }
}
