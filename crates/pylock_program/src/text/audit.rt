//! What is found in a lock, a line for each finding or a document.

ghost use Rattle.std.specs.Prelude.{◌≡◌, ◌++◌, IfOk, OnOk, codes, decimal, map};
ghost use Rattle.std.specs.List.{flat_map};
ghost use Rattle.serde_json.specs.View.{view as data_of};
ghost use Rattle.pylock_program.specs.Audit.{document_report, lines_report};
ghost use Rattle.pylock_program.specs.Located.{audit_rows, located_data};
ghost use Rattle.pylock_program.specs.Text.Audit.{finding_line, findings_text, ignored_text};
ghost use Rattle.pylock_program.specs.Text.Json.{json_text};
ghost use Rattle.pylock_run.specs.Report.Print.{Prints};

use crate::lines::{Line, print_lines, push_count};
use crate::located::Located;
use crate::text::safe::push_next_labelled;
use pylock_audit::{LockFinding, finding_object};
use pylock_documents::push_document;
use pylock_json::{Json, List, Object};
use pylock_run::{RunFault, Sink, print, push_decimal, push_next_field, push_word};
use std::alloc::{AllocError, Global};

/// Writes the lines of the findings that count, `findings K` and a line for each, and how many are
/// ignored, if any; and answers the status. A line is written as it is made.
pub(crate) fn write_lines<W: Sink>(
    alloc: Global,
    found: &[LockFinding],
    ignored: usize,
    status: u8,
    writer: &mut W,
) -> Result<u8, RunFault>
    ensures { Prints (lines_report ignored status found.now)
        (W.value writer.old) (W.value writer.new) result }
{
    let mut out = Vec::new(alloc);
    push_counts(&mut out, found.len(), ignored)?;
    print_lines(out, found, status, writer)
}

/// Writes the document of the findings that count at their places, and of how many are ignored, if
/// any; and answers the status.
pub(crate) fn write_document<W: Sink>(
    alloc: Global,
    located: &[Located<'_>],
    ignored: usize,
    status: u8,
    writer: &mut W,
) -> Result<u8, RunFault>
    ensures { Prints (document_report ignored status located.now)
        (W.value writer.old) (W.value writer.new) result }
{
    let mut out = Vec::new(alloc);
    push_located(alloc, &mut out, located, ignored)?;
    print(&out, status, writer)
}

/// Pushes the document of the findings at their places, and of how many are ignored.
fn push_located(
    alloc: Global,
    out: &mut Vec<u8>,
    located: &[Located<'_>],
    ignored: usize,
) -> Result<(), AllocError>
    ensures { OnOk result
        (out.new.items ≡ out.old.items ++ json_text (audit_rows ignored located.now)) }
{
    let findings = located_list(alloc, located)?;
    let mut document = Object::new(alloc);
    document.put(alloc, "findings", findings.into_json())?;
    if ignored > 0 {
        document.put_number(alloc, "ignored", ignored as u64)?;
    }
    push_document(alloc, out, document)
}

fn located_list(alloc: Global, located: &[Located<'_>]) -> Result<List, AllocError>
    ensures { IfOk result (λ list. map data_of list ≡ map located_data located.now) }
{
    let mut list = List::new(alloc);
    for one in located {
        list.push(located_json(alloc, one)?)?;
    }
    Ok(list)
}

/// The object of a finding, with the line and the column where these are known.
fn located_json(alloc: Global, located: &Located<'_>) -> Result<Json, AllocError>
    ensures { IfOk result (λ json. data_of json ≡ located_data located.now) }
{
    let mut object = finding_object(alloc, located.finding)?;
    object.put_maybe_number(alloc, "line", located.place.map(|place| place.line))?;
    object.put_maybe_number(alloc, "column", located.place.map(|place| place.column))?;
    Ok(object.into_json())
}

/// Pushes `findings K`, and how many are ignored.
fn push_counts(out: &mut Vec<u8>, count: usize, ignored: usize) -> Result<(), AllocError>
    ensures { OnOk result (out.new.items ≡ out.old.items
        ++ codes "findings " ++ decimal count ++ ignored_text ignored ++ codes "\n") }
{
    out.extend_from_slice(b"findings ")?;
    push_decimal(out, count as u64)?;
    if ignored > 0 {
        out.extend_from_slice(b" ignored ")?;
        push_decimal(out, ignored as u64)?;
    }
    out.push(b'\n')?;
    Ok(())
}

/// Pushes `findings K` and a line for each finding.
pub(crate) fn push_findings(out: &mut Vec<u8>, found: &[LockFinding]) -> Result<(), AllocError>
    ensures { OnOk result (out.new.items ≡ out.old.items ++ findings_text found.now) }
{
    push_count(out, "findings", found.len())?;
    push_lines(out, found)
}

fn push_lines(out: &mut Vec<u8>, found: &[LockFinding]) -> Result<(), AllocError>
    ensures { OnOk result (out.new.items ≡ out.old.items ++ flat_map finding_line found.now) }
{
    for one in found {
        one.push(out)?;
    }
    Ok(())
}

impl Line for LockFinding {
    ghost use Rattle.pylock_program.specs.Text.Audit.{finding_line};

    ghost line = { finding_line };

    fn push(&self, out: &mut Vec<u8>) -> Result<(), AllocError> {
        push_decimal(out, self.number() as u64)?;
        push_next_field(out, self.name())?;
        push_word(out, self.finding().kind().word().as_bytes())?;
        push_next_labelled(out, self.finding().detail())?;
        out.push(b'\n')?;
        Ok(())
    }
}
