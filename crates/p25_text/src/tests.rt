//! Lines of data units that are read, written and refused, and the texts of items and of calls, written by hand by
//! their grammar.

mod calls;
mod fields;
mod items;
mod lines;
mod refusals;

use super::Line;

// The text of parts, each a number of times.
fn repeated(parts: &[(&[u8], usize)]) -> Line {
    let mut line = Line::new();
    for (part, count) in parts {
        put_times(part, *count, &mut line);
    }
    line
}

// Appends a part a number of times, as far as there is capacity.
fn put_times(part: &[u8], count: usize, line: &mut Line) {
    for _time in 0..count {
        if part.len() <= 64 && line.len() <= 8_128 {
            line.put(part);
        }
    }
}
