//! A source and a sink in one, in the order of the calls.

ghost use Rattle.std.specs.Prelude.{◌≡◌, ℕ, ◌<◌, ◌≤◌, List, [], ◌∷◌, length, take, IfOk, OnOk, OnErr};
ghost use Rattle.p25_io.specs.{Chains.{Chain}, Events.{Event, Read, ReadFailed, Wrote, WriteFailed}};

use crate::Failed;

/// Where octets come from and where they go to, a few at a time.
///
/// Contracts see which reads and writes lead from one state to another, in their order: a relation of two states and a
/// list of events. A caller knows of this relation only the events of its own calls.
pub trait Port {
    /// These events lead from the first state to the last.
    ghost moves: { Self → List Event → Self → Type 0 };

    /// Reads octets into the beginning of `buf` and returns their number. It requires a buffer that is not empty.
    /// `Ok(0)` is the end of the input. `Failed` is returned if the read failed, and then no octet was read.
    fn read(&mut self, buf: &mut [u8]) -> Result<usize, Failed>
        requires { 0 < length buf.old }
        ensures given { IfOk result (λ count. (count ≤ length buf.new) × moves self.old (Read (take count buf.new) ∷ []) self.new) }
        ensures failed { OnErr result (moves self.old (ReadFailed ∷ []) self.new) }
        ensures room { length buf.new ≡ length buf.old };

    /// Writes the whole chunk. `Failed` is returned if the write failed, and then a beginning of the chunk was written.
    fn write(&mut self, piece: &[u8]) -> Result<(), Failed>
        ensures ok { OnOk result (moves self.old (Wrote piece.now ∷ []) self.new) }
        ensures err { OnErr result ((count : ℕ) × (count ≤ length piece.now) × moves self.old (WriteFailed piece.now count ∷ []) self.new) };

    // No event leads from a state to itself, and sequences of events compose.
    ghost chain: { Chain moves };
}
