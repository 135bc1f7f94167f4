//! What is asked of markers and of the version of Python, and the answers.

use pymark_core::{Environment, Marker};
use pyver_core::Specifier;

/// A marker, and the value that is wanted of it.
#[derive(Clone, Copy)]
pub struct Condition<'a> {
    /// The marker.
    pub marker: &'a Marker,
    /// Its value.
    pub wanted: bool,
}

/// A specifier, and whether it is to admit the version that `python_full_version` spells.
#[derive(Clone, Copy)]
pub struct PythonCondition<'a> {
    /// The specifier.
    pub specifier: &'a Specifier,
    /// Whether it is to admit the version.
    pub wanted: bool,
}

/// The answer to a question about every coherent environment.
#[derive(Drop)]
pub enum Answer {
    /// It is so in all of them.
    Yes,
    /// It isn't so in this one, which is coherent.
    No(Environment),
    /// It was not decided.
    Undecided,
}
