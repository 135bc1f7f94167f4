//! A sink that may be a terminal's.

ghost use Rattle.std.specs.Prelude.{◌≡◌, false, IsTrue};
ghost use Rattle.pylock_run.specs.Stream.Output.{output_value};
ghost use Rattle.pylock_run.specs.declared.stream.output.Output.TheVariants.{Bytes, Terminal};

use crate::stream::terminal::ToTerminal;
use crate::stream::{IoFault, Sink};
use std::alloc::Global;

/// Where an output of the program goes.
#[derive(Drop)]
pub enum Output<S> {
    /// To a program or a file, as it is.
    Bytes(S),
    /// To a terminal, which it can't steer.
    Terminal(ToTerminal<S>),
}

impl<S: Sink> Output<S> {
    /// An output to this sink, which may be a terminal's. It takes no memory.
    pub fn new(alloc: Global, sink: S, is_terminal: bool) -> Output<S>
        ensures bytes { is_terminal ≡ false → result ≡ Bytes sink }
        ensures terminal { IsTrue is_terminal
            → result ≡ Terminal (record { alloc = alloc; inner = sink; failures = 0 }) }
    {
        if is_terminal {
            Output::Terminal(ToTerminal::new(alloc, sink))
        } else {
            Output::Bytes(sink)
        }
    }
}

impl<S: Sink> Sink for Output<S> {
    ghost value = { output_value S.value };

    fn write(&mut self, piece: &[u8]) -> Result<usize, IoFault> {
        match self {
            Output::Bytes(sink) => sink.write(piece),
            Output::Terminal(terminal) => terminal.write(piece),
        }
    }
}
