//! The value of a public constant. The body is empty: the function states what is proved.

ghost use Rattle.std.specs.Prelude.{◌≡◌};

use crate::LINE_MOST;

/// **Theorem.** The most octets of a line are 8,192.
pub fn numbers()
    ensures line { LINE_MOST ≡ 8192 }
{}
