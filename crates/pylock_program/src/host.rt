//! What surrounds a task.

use pylock_run::{Files, Sink, Source};

/// What a task reads and writes beside its words.
#[derive(Drop)]
pub struct Host<F, R, W, N> {
    /// The files that it names.
    pub files: F,
    /// Standard input.
    pub reader: R,
    /// Both outputs.
    pub outputs: Outputs<W, N>,
}

/// Where an answer is printed, and what a person is told besides.
#[derive(Drop)]
pub struct Outputs<W, N> {
    /// Standard output.
    pub writer: W,
    /// Standard error. What can't be written there is left out.
    pub diagnostics: N,
    /// Whether the process ends with the task. Then the memory of what was read is left to the
    /// system, which takes all of it at once; else it is given back.
    pub ends_process: bool,
}
