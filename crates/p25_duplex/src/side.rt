//! The two sides of a duplex world, a and b.

ghost use Rattle.std.specs.Prelude.{◌≡◌, length};
ghost use Rattle.p25_duplex.specs.DuplexSteps.{other_side, side_word};

/// One of the two stations of a duplex world.
#[derive(Clone, Copy, Debug, PartialEq, Eq)]
pub enum Side {
    /// Station a.
    A,
    /// Station b.
    B,
}

impl Side {
    /// Returns the other station.
    pub fn other(self) -> Side
        ensures { result ≡ other_side self }
    {
        match self {
            Side::A => Side::B,
            Side::B => Side::A,
        }
    }

    /// Returns the word for the station in scripts and texts: its letter.
    pub fn word(self) -> &'static [u8]
        ensures word { result.now ≡ side_word self }
        ensures len { length result.now ≡ 1 }
    {
        match self {
            Side::A => b"a",
            Side::B => b"b",
        }
    }
}
