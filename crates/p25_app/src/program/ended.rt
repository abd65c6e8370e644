//! The end of a call of the program.

ghost use Rattle.std.specs.{Prelude.{◌≡◌}, Process.{exit_status}};

use std::io::Eprint;
use std::marker::Model;
use std::process::{ExitCode, Termination};

/// The end of one call of the program, which `main` returns. It cannot be dropped, so there is one for each call.
///
/// Contracts see it as the exit status of the program.
pub struct Ended {
    status: u8,
}

impl Model for Ended {
    ghost use Rattle.std.specs.Prelude.{ℕ};

    ghost Value = { ℕ };

    ghost view = { λ e. e.status };
}

impl Ended {
    // Returns an end with this status.
    pub(super) fn new(status: u8) -> Ended
        ensures { result ≡ status }
    {
        Ended { status }
    }
}

impl Termination for Ended {
    /// Returns the status, and prints nothing.
    fn report<R: Eprint>(self, _rt: &R) -> ExitCode
        ensures { exit_status result ≡ self }
    {
        let Ended { status } = self;
        ExitCode::from(status)
    }
}
