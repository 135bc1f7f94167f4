//! A sink that keeps all that is written.

ghost use Rattle.std.specs.Prelude.{◌≡◌, []};

use pylock_run::{IoFault, Sink};
use std::alloc::Global;

/// What was written. A write fails only where memory is refused.
#[derive(Drop)]
pub struct Printed {
    bytes: Vec<u8>,
    failures: u64,
}

impl Printed {
    /// Nothing yet.
    pub fn new(alloc: Global) -> Printed
        ensures bytes { result.bytes.items ≡ [] }
        ensures failures { result.failures ≡ 0 }
    {
        Printed {
            bytes: Vec::new(alloc),
            failures: 0,
        }
    }

    /// The bytes that were written.
    pub fn into_bytes(self) -> Vec<u8>
        ensures { result ≡ self.bytes }
    {
        let Printed { bytes, failures: _ } = self;
        bytes
    }
}

impl Sink for Printed {
    ghost use Rattle.std.specs.Prelude.{Some};

    ghost value = { λ p. record { held = Some p.bytes.items; failures = p.failures } };

    fn write(&mut self, piece: &[u8]) -> Result<usize, IoFault> {
        match self.bytes.extend_from_slice(piece) {
            Ok(()) => Ok(piece.len()),
            Err(_) => {
                self.failures = self.failures.saturating_add(1);
                Err(IoFault)
            }
        }
    }
}
