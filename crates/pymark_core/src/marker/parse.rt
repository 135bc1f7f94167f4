//! Markers from their texts.

ghost use Rattle.std.specs.Prelude.{◌≡◌, IfOk, ok_or};
ghost use Rattle.pytext.specs.Agreement.{Gives};
ghost use Rattle.pymark_core.specs.Inner.Building.{NotesOf};
ghost use Rattle.pymark_core.specs.Marker.Grammar.{comparisons};
ghost use Rattle.pymark_core.specs.Marker.Reading.{tree_text};
ghost use Rattle.pymark_core.specs.Marker.View.{tree_view};

use super::builder::{Builder, Stage};
use super::error::MarkerError;
use super::notes::Notes;
use super::token::next_token;
use super::tree::Tree;
use std::alloc::Global;

/// The tree of a text, and what was noted of its comparisons.
pub(super) fn read_tree(alloc: Global, text: &str) -> Result<(Tree, Notes), MarkerError>
    ensures tree { Gives MarkerError.Memory (λ read. tree_view read.0) result
        (ok_or (tree_text text.now) MarkerError.Syntax) }
    ensures notes { IfOk result (λ read. NotesOf read.1 (comparisons (tree_view read.0))) }
{
    let mut builder = Builder::new(alloc);
    let mut notes = Notes::none();
    let mut stage = Stage::Start;
    let mut rest = text;
    while let Some((token, after)) = next_token(rest)? {
        stage = builder.take_token(alloc, &mut notes, stage, token)?;
        rest = after;
    }
    match builder.final_tree(stage) {
        Some(tree) => Ok((tree, notes)),
        None => Err(MarkerError::Syntax),
    }
}
