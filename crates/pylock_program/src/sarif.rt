//! Findings as a SARIF document, each at its place in the text of the lock.

ghost use Rattle.std.specs.Prelude.{◌≡◌, ◌⊎◌, IfOk, option_map};
ghost use Rattle.pylock_program.specs.Audit.{EndsUnwritten};
ghost use Rattle.pylock_program.specs.Each.{AreEach};
ghost use Rattle.pylock_program.specs.Sarif.{IsResult, PrintsSarif, run_report, text_place};
ghost use Rattle.pylock_run.specs.Report.Print.{Prints};

use crate::located::{Located, with_places};
use pylock_audit::LockFinding;
use pylock_command::release;
use pylock_documents::push_object;
use pylock_run::{RunFault, Sink, print};
use pylock_sarif::{Level, RULES, Run, SarifResult, TextPlace, rule_of, sarif_document};
use pylock_shared::whole_text;
use pylock_spans::Place;
use std::alloc::{AllocError, Global};

/// Writes findings in the lock at a path, which has these bytes, as a SARIF document, and answers
/// the status. It takes memory for the document and for the places of the entries.
#[tactic(auto, using(crate::proofs::SarifLemmas::sarifs))]
pub(crate) fn write_sarif<W: Sink>(
    alloc: Global,
    lock: (&str, &[u8]),
    found: &[LockFinding],
    status: u8,
    writer: &mut W,
) -> Result<u8, RunFault>
    ensures { PrintsSarif lock.entry.0.now lock.entry.1.now found.now status
        (W.value writer.old) (W.value writer.new) result
        ⊎ EndsUnwritten (W.value writer.old) (W.value writer.new) result }
{
    let (path, bytes) = lock;
    let located = with_places(alloc, bytes, found)?;
    let results = results_of(alloc, &located)?;
    let run = Run {
        version: release(),
        lock: path,
        rules: &RULES,
        results: &results,
    };
    print_run(alloc, &run, status, writer)
}

/// Writes the document of a run, and answers the status.
fn print_run<W: Sink>(
    alloc: Global,
    run: &Run<'_>,
    status: u8,
    writer: &mut W,
) -> Result<u8, RunFault>
    ensures { Prints (run_report run.now status)
        (W.value writer.old) (W.value writer.new) result }
{
    let document = sarif_document(alloc, run)?;
    let mut out = Vec::new(alloc);
    push_object(alloc, &mut out, document)?;
    print(&out, status, writer)
}

/// The result of each finding.
fn results_of<'a>(
    alloc: Global,
    located: &[Located<'a>],
) -> Result<Vec<SarifResult<'a>>, AllocError>
    ensures { IfOk result (λ results. AreEach IsResult located.now results.items) }
{
    let mut results = Vec::with_capacity(alloc, located.len())?;
    for one in located {
        results.push(result_of(alloc, one)?)?;
    }
    Ok(results)
}

/// The result of a finding at its place.
fn result_of<'a>(alloc: Global, located: &Located<'a>) -> Result<SarifResult<'a>, AllocError>
    ensures { IfOk result (IsResult located.now) }
{
    let one = located.finding;
    let word = one.finding().kind().word();
    let (level, description) = match rule_of(word) {
        Some(rule) => (rule.level, rule.description),
        None => (Level::Warning, word),
    };
    Ok(SarifResult {
        rule: word,
        level,
        description,
        number: one.number() as u64,
        name: one.name(),
        detail: whole_text(alloc, one.finding().detail())?,
        place: located.place.map(|place| text_place(place)),
    })
}

fn text_place(place: Place) -> TextPlace
    ensures { result ≡ text_place place }
{
    TextPlace {
        line: place.line,
        column: place.column,
    }
}
