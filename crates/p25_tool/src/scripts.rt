//! The work of `stations`, `fragments` and `duplex`: each line of the input is an event of a world of stations.

ghost use Rattle.std.specs.Prelude.{◌≡◌, ◌++◌, []};
ghost use Rattle.p25_filter.specs.LineRules.{IsLineTaken};
ghost use Rattle.p25_tool.specs.{Machines.{DuplexAt, LongAt, StationsAt, script_rules, state_of}, Outputs.{duplex_closing_lines, duplex_step_line, step_line}};
ghost use Rattle.p25_script.specs.LongTexts.{long_step_text_of};

use p25_duplex::{DuplexEvent, DuplexStep, DuplexWorld, Side};
use p25_filter::{LineMachine, LineRefusal, Text};
use p25_fragments::{LongEvent, LongStep, LongWorld};
use p25_line::{Line, LineWords};
use p25_script::{
    ScriptEvent, closing_text, duplex_closing, duplex_step_text, long_closing_text, long_step_text,
    step_text,
};
use p25_stations::{Event, Step, World};
use std::marker::Model;

// The world in which the events of a script happen.
#[derive(Drop)]
pub(crate) enum ScriptWorld {
    Stations(World),
    Long(LongWorld),
    Duplex(DuplexWorld),
}

// The machine over the lines of a script.
#[derive(Drop)]
pub(crate) struct Script {
    world: ScriptWorld,
}

impl Model for Script {
    ghost use Rattle.p25_tool.specs.Machines.{ScriptState, state_of};

    ghost Value = { ScriptState };

    ghost view = { λ s. state_of s.world };
}

impl Script {
    // Returns the machine over the lines of a script whose events happen in this world.
    pub(crate) fn new(world: ScriptWorld) -> Script
        ensures { result ≡ state_of world }
    {
        Script { world }
    }
}

impl LineMachine for Script {
    ghost use Rattle.p25_tool.specs.{Machines.{script_rules}, LongLines.{script_long}};

    ghost rules = { script_rules };

    ghost long = { script_long };

    fn take(&mut self, line: &[u8], text: &mut Text) -> Result<(), LineRefusal> {
        match &mut self.world {
            ScriptWorld::Stations(world) => take_event(world, line, text),
            ScriptWorld::Long(world) => take_long(world, line, text),
            ScriptWorld::Duplex(world) => take_duplex(world, line, text),
        }
    }

    #[inline(never)]
    fn close(&self, text: &mut Text) {
        let mut out = Line::new();
        match &self.world {
            ScriptWorld::Stations(world) => closing_text(world, &mut out),
            ScriptWorld::Long(world) => long_closing_text(world, &mut out),
            ScriptWorld::Duplex(world) => return put_closing_lines(world, text),
        }
        out.put(b"\n");
        put_line(&out, text);
    }
}

// Writes a line to an empty text.
fn put_line(line: &Line, text: &mut Text)
    requires { text.old ≡ [] }
    ensures { text.new ≡ line.now }
{
    // For the prover: a line has at most 8,192 octets.
    let _ = line.len();
    text.put(line.octets());
}

// Writes the line of a step of `stations` to an empty text. This function and the next two are not inlined, so their lines take no stack
// while a world works.
#[inline(never)]
fn put_step(step: &Step, text: &mut Text)
    requires { text.old ≡ [] }
    ensures { text.new ≡ step_line step.now }
{
    let mut out = Line::new();
    step_text(step, &mut out);
    out.put(b"\n");
    put_line(&out, text);
}

// Writes the lines of a step of `fragments` to an empty text.
#[inline(never)]
fn put_long_step(step: &LongStep, text: &mut Text)
    requires { text.old ≡ [] }
    ensures { text.new ≡ long_step_text_of step.now }
{
    let mut out = Line::new();
    let mut more = Line::new();
    long_step_text(step, &mut out, &mut more);
    // For the prover: a line has at most 8,192 octets.
    let _ = (out.len(), more.len());
    text.put(out.octets());
    text.put(more.octets());
}

// Writes the line of a step of `duplex` to an empty text.
#[inline(never)]
fn put_duplex_step(step: &DuplexStep, text: &mut Text)
    requires { text.old ≡ [] }
    ensures { text.new ≡ duplex_step_line step.now }
{
    let mut out = Line::new();
    duplex_step_text(step, &mut out);
    out.put(b"\n");
    put_line(&out, text);
}

// Takes a line of `stations`. Events and steps are large, so those of a script are apart from those of the others.
#[inline(never)]
#[tactic(auto, unfolding(p25_line::specs::LineReadings::line_read))]
fn take_event(world: &mut World, line: &[u8], text: &mut Text) -> Result<(), LineRefusal>
    requires { text.old ≡ [] }
    ensures { IsLineTaken script_rules (StationsAt world.old.state) line.now result text.new (StationsAt world.new.state) }
{
    let words = LineWords::read(line).map_err(LineRefusal::Fault)?;
    let event = Event::read_words(&words).map_err(LineRefusal::Fault)?;
    put_step(&world.step(&event).map_err(|_| LineRefusal::Memory)?, text);
    Ok(())
}

// Takes a line of `fragments`.
#[inline(never)]
#[tactic(auto, unfolding(p25_line::specs::LineReadings::line_read))]
fn take_long(world: &mut LongWorld, line: &[u8], text: &mut Text) -> Result<(), LineRefusal>
    requires { text.old ≡ [] }
    ensures { IsLineTaken script_rules (LongAt world.old.state) line.now result text.new (LongAt world.new.state) }
{
    let words = LineWords::read(line).map_err(LineRefusal::Fault)?;
    match &LongEvent::read_words(&words) {
        Err(fault) => Err(LineRefusal::Fault(*fault)),
        Ok(event) => {
            let Ok(step) = &world.step(event) else {
                return Err(LineRefusal::Memory);
            };
            put_long_step(step, text);
            Ok(())
        }
    }
}

// Takes a line of `duplex`.
#[inline(never)]
#[tactic(auto, unfolding(p25_line::specs::LineReadings::line_read))]
fn take_duplex(world: &mut DuplexWorld, line: &[u8], text: &mut Text) -> Result<(), LineRefusal>
    requires { text.old ≡ [] }
    ensures { IsLineTaken script_rules (DuplexAt world.old.state) line.now result text.new (DuplexAt world.new.state) }
{
    let words = LineWords::read(line).map_err(LineRefusal::Fault)?;
    match &DuplexEvent::read_words(&words) {
        Err(fault) => Err(LineRefusal::Fault(*fault)),
        Ok(event) => match &world.step(event) {
            Err(_) => Err(LineRefusal::Memory),
            Ok(step) => {
                put_duplex_step(step, text);
                Ok(())
            }
        },
    }
}

// Writes to an empty text the lines that close a run: one of each side, and one with the number of false passes.
#[tactic(auto, unfolding(crate::specs::Outputs::duplex_closing_lines))]
fn put_closing_lines(world: &DuplexWorld, text: &mut Text)
    requires { text.old ≡ [] }
    ensures { text.new ≡ duplex_closing_lines world.now.state }
{
    let mut out = Line::new();
    let mut other = Line::new();
    duplex_closing(world, Side::B, &mut other);
    duplex_closing(world, Side::A, &mut out);
    out.put(b"\n");
    out.put(other.octets());
    out.put_labelled(b"\nfalse=", world.false_passes());
    out.put(b"\n");
    put_line(&out, text);
}
