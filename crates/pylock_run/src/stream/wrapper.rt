//! A source over a reader of std and a sink over a writer: they expose the bytes that these expose,
//! and answer each error as a failure.
ghost use Rattle.std.specs.Prelude.{◌≡◌};

use crate::stream::{IoFault, Sink, Source};
use std::io::{Read, Write};

/// A source over a reader. An interrupted read counts as a failure too.
#[derive(Drop)]
pub struct FromRead<R> {
    inner: R,
    failures: u64,
}

impl<R: Read> FromRead<R> {
    /// A source of what the reader gives. It takes no memory.
    pub fn new(inner: R) -> FromRead<R>
        ensures { ⟦<FromRead<R> as Source>⟧.value result
            ≡ record { rest = R.remaining inner; failures = 0 } }
    {
        FromRead { inner, failures: 0 }
    }
}

impl<R: Read> Source for FromRead<R> {
    ghost value = { λ s. record { rest = R.remaining s.inner; failures = s.failures } };

    fn read(&mut self, buf: &mut [u8]) -> Result<usize, IoFault> {
        match self.inner.read(buf) {
            Ok(count) => Ok(count),
            Err(_) => {
                self.failures = self.failures.saturating_add(1);
                Err(IoFault)
            }
        }
    }
}

/// A sink over a writer. An interrupted write counts as a failure too.
#[derive(Drop)]
pub struct ToWrite<W> {
    inner: W,
    failures: u64,
}

impl<W: Write> ToWrite<W> {
    /// A sink that hands everything to the writer. It takes no memory.
    pub fn new(inner: W) -> ToWrite<W>
        ensures { ⟦<ToWrite<W> as Sink>⟧.value result
            ≡ record { held = W.contents inner; failures = 0 } }
    {
        ToWrite { inner, failures: 0 }
    }
}

impl<W: Write> Sink for ToWrite<W> {
    ghost value = { λ s. record { held = W.contents s.inner; failures = s.failures } };

    fn write(&mut self, piece: &[u8]) -> Result<usize, IoFault> {
        match self.inner.write(piece) {
            Ok(count) => {
                if count == 0 && !piece.is_empty() {
                    self.failures = self.failures.saturating_add(1);
                }
                Ok(count)
            }
            Err(_) => {
                self.failures = self.failures.saturating_add(1);
                Err(IoFault)
            }
        }
    }
}
