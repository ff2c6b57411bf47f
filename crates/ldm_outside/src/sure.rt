//! The sink that never fails: its count of faults is the constant 0.
ghost use Rattle.std.specs.Prelude.{◌≡◌, length};

use crate::io::{Put, Sink, SinkFailed};

/// A sink that takes every piece, keeps none and tells nothing.
#[derive(Clone, Copy)]
pub struct SureSink;

impl Sink for SureSink {
    ghost use Rattle.std.specs.Prelude.{Ok};
    ghost use Rattle.ldm_outside.specs.Io.{WriteGives};
    ghost use Rattle.ldm_outside.specs.Sure.{told_by_sure_sink};

    ghost tells = { λ _. told_by_sure_sink };

    ghost is_handed_on = { λ _. Unit {0} };

    fn write(&mut self, piece: &[u8]) -> Put
        ensures taken { WriteGives result piece.now told_by_sure_sink told_by_sure_sink }
        ensures whole { result ≡ Put.Took (length piece.now) }
    {
        Put::Took(piece.len())
    }

    fn gather(&mut self) {}

    fn flush(&mut self) -> Result<(), SinkFailed>
        ensures { result ≡ Ok tt }
    {
        Ok(())
    }
}
