//! The port of a source and a sink.

ghost use Rattle.std.specs.Prelude.{◌≡◌};

use crate::{Failed, Port, Sink, Source};

/// A port that reads from a source and writes to a sink. Contracts see the events of each.
#[derive(Debug, Drop)]
pub struct Pair<'a, S, K> {
    source: &'a mut S,
    sink: &'a mut K,
}

impl<'a, S: Source, K: Sink> Pair<'a, S, K> {
    /// Returns the port of a source and a sink.
    pub fn new(source: &'a mut S, sink: &'a mut K) -> Pair<'a, S, K>
        ensures same_source { result.source.ghost_name ≡ source.entry.ghost_name }
        ensures same_sink { result.sink.ghost_name ≡ sink.entry.ghost_name }
        ensures source { result.source.now ≡ source.old }
        ensures sink { result.sink.now ≡ sink.old }
    {
        Pair { source, sink }
    }
}

impl<'a, S: Source, K: Sink> Port for Pair<'a, S, K> {
    ghost use Rattle.p25_io.specs.{Pairs.{PairGoes}, PairLaws.{PairGoes-chain}};

    ghost moves = { PairGoes S.left S.faults K.written K.faults };

    ghost chain = { PairGoes-chain S.left S.faults K.written K.faults };

    fn read(&mut self, buf: &mut [u8]) -> Result<usize, Failed> {
        self.source.read(buf)
    }

    fn write(&mut self, piece: &[u8]) -> Result<(), Failed> {
        self.sink.write(piece)
    }
}
