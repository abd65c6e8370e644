//! Where octets come from.
ghost use Rattle.std.specs.Prelude.{◌≡◌, ◌<◌, ℕ, List, Option, length, IfOk, OnErr};
ghost use Rattle.p25_io.specs.{Faults.{HasCause}, Octets.{Gives, Kept}};

use crate::Failed;

/// Where octets come from, a few at a time.
///
/// Contracts see the octets that are left, if the source exposes them, and its count of faults. Whether it exposes them
/// never changes.
pub trait Source {
    /// The octets that are left to be read, if the source exposes them.
    ghost left: { Self → Option (List ℕ) };

    /// The number of reads that failed. It saturates at 2^64 - 1.
    ghost faults: { Self → ℕ };

    /// Reads octets into the beginning of `buf` and returns their number. It requires a buffer that is not empty.
    ///
    /// The octets are the first of those left. `Ok(0)` is the end of the input: if the source exposes the octets that
    /// are left, it is returned if and only if none are. `Failed` is returned only if the count of faults rose in this
    /// call or is at 2^64 - 1, and then no octet was taken.
    fn read(&mut self, buf: &mut [u8]) -> Result<usize, Failed>
        requires { 0 < length buf.old }
        ensures given { IfOk result (Gives (left self.old) (left self.new) buf.new) }
        ensures kept { OnErr result (Kept (left self.old) (left self.new)) }
        ensures cause { HasCause (faults self.old) (faults self.new) result }
        ensures room { length buf.new ≡ length buf.old };
}
