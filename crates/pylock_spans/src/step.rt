//! A step of a path to a key.

/// A step of the path to a key or to an element of a list, as findings name it: `wheels 2 url`.
#[derive(Clone, Copy, Debug, PartialEq, Eq)]
pub enum Step<'a> {
    /// The key of a table, decoded.
    Key(&'a str),
    /// The element of a list at this position, from 1.
    Element(usize),
}
