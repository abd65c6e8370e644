//! Lines of scripts that are read and refused, the texts of steps, and short scripts with their results, written by
//! hand.

mod duplex_scripts;
mod long_scripts;
mod script_lines;
mod scripts;
mod steps;

use super::{Line, Step, step_text};
use p25_line::LineFault;
use std::process::Abort;
use std::str::FromStr;

// Asserts that lines are refused as events of a type, each for its reason.
fn refused<E: FromStr<Err = LineFault> + Drop>(rt: &impl Abort, rows: &[(&str, LineFault)]) {
    for (line, fault) in rows {
        assert_eq!(rt; line.parse::<E>().err(), Some(*fault));
    }
}

// Whether a step has this text.
fn is_text_of(step: &Step, text: &[u8]) -> bool {
    let mut line = Line::new();
    step_text(step, &mut line);
    line.octets() == text
}
