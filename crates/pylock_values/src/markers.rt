//! A marker's tree, piece by piece (PEP 508, "Grammar").

ghost use Rattle.std.specs.Prelude.{◌≡◌, ◌++◌, IfOk, OnOk, Some};
ghost use Rattle.std.specs.List.{flat_map};
ghost use Rattle.std.specs.Option.{option_copied};
ghost use Rattle.pymark_core.specs.Marker.Asked.{quoted_text};
ghost use Rattle.pymark_core.specs.Marker.Pieces as pieces;
ghost use Rattle.pymark_core.specs.Marker.Pieces.{operand_word};
ghost use Rattle.pymark_core.specs.declared.operand.Operand.{Operand};
ghost use Rattle.pylock_values.specs.MarkerPieces.{comparator_part, marker_record, operand_part};
ghost use Rattle.pylock_values.specs.MarkerPieces.{piece_fields, piece_parts};
ghost use Rattle.pylock_values.specs.Record.{next_field};

use crate::record::without_first;
use pylock_run::push_next_field;
use pymark_core::{Comparator, Comparison, Marker, Piece};
use std::alloc::{AllocError, Global};

/// The record of a marker's pieces, in the order in which they stand in its text: `and`, `or`, `(`
/// and `)` are a field, and a comparison is three, what stands left, the operator, and what stands
/// right. A quoted text has a quotation mark before it, a variable has none. It takes memory for
/// the record and for the list of pieces.
pub fn marker_record(alloc: Global, marker: &Marker) -> Result<Vec<u8>, AllocError>
    ensures { IfOk result (λ made. made.items ≡ marker_record marker.now.tree) }
{
    let mut fields = Vec::new(alloc);
    let pieces = marker.pieces(alloc)?;
    push_pieces(alloc, &mut fields, &pieces)?;
    without_first(alloc, &fields)
}

/// Pushes the fields of pieces, each behind a TAB.
fn push_pieces(alloc: Global, out: &mut Vec<u8>, pieces: &[Piece<'_>]) -> Result<(), AllocError>
    ensures { OnOk result (out.new.items ≡ out.old.items
        ++ flat_map piece_fields pieces.now) }
{
    for piece in pieces {
        push_piece(alloc, out, *piece)?;
    }
    Ok(())
}

/// Pushes the fields of a piece, each behind a TAB.
fn push_piece(alloc: Global, out: &mut Vec<u8>, piece: Piece<'_>) -> Result<(), AllocError>
    ensures { OnOk result (out.new.items ≡ out.old.items ++ piece_fields piece.entry) }
{
    match piece {
        Piece::Comparison(comparison) => push_comparison(alloc, out, comparison),
        Piece::And => push_next_field(out, Some("and")),
        Piece::Or => push_next_field(out, Some("or")),
        Piece::Open => push_next_field(out, Some("(")),
        Piece::Close => push_next_field(out, Some(")")),
    }
}

/// Pushes the three fields of a comparison, each behind a TAB.
fn push_comparison(
    alloc: Global,
    out: &mut Vec<u8>,
    comparison: &Comparison,
) -> Result<(), AllocError>
    ensures { OnOk result (out.new.items ≡ out.old.items
        ++ flat_map next_field (piece_parts (pieces.comparison comparison.now))) }
{
    push_operand(alloc, out, comparison.left_word(), comparison.left_text())?;
    push_next_field(out, Some(comparator_text(comparison.comparator())))?;
    push_operand(alloc, out, comparison.right_word(), comparison.right_text())
}

/// Pushes a TAB and the field of an operand: a word, or a quoted text.
#[tactic(auto, using(crate::proofs::MarkersLemmas::operands))]
fn push_operand(
    alloc: Global,
    out: &mut Vec<u8>,
    word: Option<&str>,
    text: Option<&str>,
) -> Result<(), AllocError>
    ensures { (operand : Operand) → option_copied word.entry ≡ operand_word operand
        → option_copied text.entry ≡ quoted_text operand
        → OnOk result (out.new.items ≡ out.old.items ++ next_field (Some (operand_part operand))) }
{
    if let Some(text) = text {
        let quoted = format!(in alloc; "\"{text}")?;
        return push_next_field(out, Some(quoted.as_str()));
    }
    push_next_field(out, word)
}

/// An operator as it is written.
fn comparator_text(comparator: Comparator) -> &'static str
    ensures { result.now ≡ comparator_part comparator }
{
    match comparator {
        Comparator::By(operator) => operator.as_str(),
        Comparator::In => "in",
        Comparator::NotIn => "not in",
    }
}
