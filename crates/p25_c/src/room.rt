//! Counts that calls return.

ghost use Rattle.std.specs.Prelude.{◌≡◌, ◌≤◌, pos};

// A number of octets that were written, or of items that are returned.
pub(crate) fn counted(count: usize) -> i32
    requires { count ≤ 2147483647 }
    ensures { result ≡ pos count }
{
    count as i32
}
