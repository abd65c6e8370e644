//! Where octets go to.
ghost use Rattle.std.specs.Prelude.{ℕ, List, Option, OnOk, OnErr};
ghost use Rattle.p25_io.specs.{Faults.{HasCause}, Octets.{Appended, AppendedBeginning}};

use crate::Failed;

/// Where octets go to, a chunk at a time.
///
/// Contracts see the octets that were written, if the sink exposes them, and its count of faults. Whether it exposes
/// them never changes.
pub trait Sink {
    /// The octets that were written so far, if the sink exposes them.
    ghost written: { Self → Option (List ℕ) };

    /// The number of writes that failed. It saturates at 2^64 - 1.
    ghost faults: { Self → ℕ };

    /// Appends the whole chunk, which may be empty.
    ///
    /// `Failed` is returned only if the count of faults rose in this call or is at 2^64 - 1. Then a beginning of the
    /// chunk was appended, which may be nothing or all of it.
    fn write(&mut self, piece: &[u8]) -> Result<(), Failed>
        ensures ok { OnOk result (Appended (written self.old) piece.now (written self.new)) }
        ensures err { OnErr result (AppendedBeginning (written self.old) piece.now (written self.new)) }
        ensures cause { HasCause (faults self.old) (faults self.new) result };
}
