//! What a document tells.

use crate::rule::{Level, Rule};

/// A run of the tool over one lock.
#[derive(Clone, Copy)]
pub struct Run<'a> {
    /// The version of the tool.
    pub version: &'a str,
    /// The path of the lock, relative to the folder that a reader of the document takes as root.
    pub lock: &'a str,
    /// The rules, of which each result has one.
    pub rules: &'a [Rule],
    /// What was found, in order.
    pub results: &'a [SarifResult<'a>],
}

/// What was found at one place.
#[derive(Drop)]
pub struct SarifResult<'a> {
    /// The word of its rule.
    pub rule: &'a str,
    /// How severe it is.
    pub level: Level,
    /// What the rule finds, in one sentence. A person is told it with the name and the detail.
    pub description: &'a str,
    /// The number of the entry, from 1; of the head it is 0.
    pub number: u64,
    /// The name of the entry; the head has none.
    pub name: Option<&'a str>,
    /// What the finding names besides the entry.
    pub detail: Option<String>,
    /// Where it stands in the text, where that is known.
    pub place: Option<TextPlace>,
}

/// A line and a column, both from 1. The column counts characters (Unicode scalar values).
#[derive(Clone, Copy, Debug, PartialEq, Eq)]
pub struct TextPlace {
    /// The line.
    pub line: u64,
    /// The column.
    pub column: u64,
}
