//! The tree of a marker (PEP 508, "Environment Markers"). Each list is its last member and
//! those before it, so building moves nothing and a marker of one comparison takes no list.

use crate::comparison::Comparison;

/// Parts with one word between them: conjunctions with `or`, atoms with `and`.
#[derive(Drop)]
pub(crate) struct Joined<T> {
    /// The parts but for the last, in the order in which they were written.
    pub(crate) earlier: Vec<T>,
    /// The last part.
    pub(crate) last: T,
}

/// A comparison, or a marker in parentheses.
#[derive(Drop)]
pub(crate) enum Atom {
    /// A comparison, in memory of its own, so that the tree moves as a few words.
    Leaf(Box<Comparison>),
    /// A marker in parentheses.
    Group(Box<Tree>),
}

/// Atoms joined by `and`.
pub(crate) type Conjunction = Joined<Atom>;

/// Conjunctions joined by `or`.
pub(crate) type Tree = Joined<Joined<Atom>>;
