//! The text of a form, and what is told beside it.

ghost use Rattle.std.specs.Prelude.{◌≡◌, IfOk, None, Some, length, map, option_map, string_bytes};
ghost use Rattle.pytext.specs.Agreement.{Gives};
ghost use Rattle.pylock_exports.specs.Base.{elsewhere, first_url, on_base};
ghost use Rattle.pylock_exports.specs.Given.{given_sources};
ghost use Rattle.pylock_exports.specs.Inner.{all_lent};
ghost use Rattle.pylock_exports.specs.Listed.{plan_sources, sources_from};
ghost use Rattle.pylock_exports.specs.Texts.{first_left, format_text, left_out, shown_left};
ghost use Rattle.pylock_command.specs.declared.form.PlanFormat.TheVariants as format;
ghost use Rattle.pylock_exports.specs.declared.refusal.ExportError.TheVariants as export;

use crate::base::{elsewhere, first_url, moved_sources, under_urls};
use crate::left::{LeftSource, left_of};
use crate::listed::{GivenSource, Listed, entry_sources, given_sources, plan_sources};
use crate::lists::list_text;
use crate::refusal::ExportError;
use crate::requirements::{PlanPart, requirements_text};
use pylock_command::{Base, FileFormat, PlanFormat};
use pylock_core::{Entry, Plan, Session};
use std::alloc::{AllocError, Global};

/// The text of a form, and what a person is to be told beside it.
#[derive(Debug)]
pub struct Exported {
    /// The text. It is ASCII.
    pub text: String,
    /// How many sources have no line: of a requirements file those that the other one has, of a
    /// list what has no file name, no URL or no SHA-256 where the list wants one.
    pub left_out: usize,
    /// The first of them in order, five at most.
    pub first_left: Vec<LeftSource>,
    /// How many files that the form has lie at a URL that doesn't begin as the base says; none
    /// without a base.
    pub elsewhere: usize,
    /// The URL of the first of them, as the lock has it.
    pub first_elsewhere: Option<String>,
}

impl Drop for Exported {
    fn drop(self) {
        let Exported {
            text: _,
            left_out: _,
            first_left: _,
            elsewhere: _,
            first_elsewhere: _,
        } = self;
    }
}

/// The text of a form of these sources.
fn text_of(alloc: Global, form: PlanFormat, list: &[Listed<'_>]) -> Result<String, ExportError>
    ensures { Gives export.Memory string_bytes result (format_text form (all_lent list.now)) }
{
    match form {
        PlanFormat::Requirements => requirements_text(alloc, PlanPart::Hashed, list),
        PlanFormat::RequirementsLocal => requirements_text(alloc, PlanPart::Local, list),
        PlanFormat::Files(form) => list_text(alloc, form, list),
    }
}

/// The text of a form of these sources as they stand, and what is left out.
fn export_here(
    alloc: Global,
    form: PlanFormat,
    list: &[Listed<'_>],
) -> Result<Exported, ExportError>
    ensures text { Gives export.Memory (λ e. string_bytes e.text) result
        (format_text form (all_lent list.now)) }
    ensures left_out { IfOk result (λ e. e.left_out ≡ left_out form (all_lent list.now)) }
    ensures first { IfOk result (λ e. map shown_left e.first_left.items
        ≡ first_left form (all_lent list.now)) }
    ensures elsewhere { IfOk result (λ e. e.elsewhere ≡ 0) }
    ensures first_elsewhere { IfOk result (λ e. e.first_elsewhere ≡ None) }
{
    let text = text_of(alloc, form, list)?;
    let (left_out, first_left) = left_of(alloc, form, list)?;
    Ok(Exported {
        text,
        left_out,
        first_left,
        elsewhere: 0,
        first_elsewhere: None,
    })
}

/// The text of a form of these sources on a base.
fn export_moved(
    alloc: Global,
    form: PlanFormat,
    base: Base<'_>,
    list: &[Listed<'_>],
) -> Result<Exported, ExportError>
    ensures text { Gives export.Memory (λ e. string_bytes e.text) result
        (format_text form (on_base (Some base.entry) (all_lent list.now))) }
    ensures left_out { IfOk result (λ e. e.left_out
        ≡ left_out form (on_base (Some base.entry) (all_lent list.now))) }
    ensures first { IfOk result (λ e. map shown_left e.first_left.items
        ≡ first_left form (on_base (Some base.entry) (all_lent list.now))) }
{
    let moved = moved_sources(alloc, base, list)?;
    let list = under_urls(alloc, moved.as_slice())?;
    export_here(alloc, form, list.as_slice())
}

/// How many files that the form has lie elsewhere than the base says, and the URL of the first.
#[tactic(auto, using(crate::proofs::SourceLemmas::counted))]
fn told_elsewhere(
    alloc: Global,
    form: PlanFormat,
    base: Base<'_>,
    list: &[Listed<'_>],
) -> Result<(usize, Option<String>), AllocError>
    ensures count { IfOk result (λ told. told.0
        ≡ length (elsewhere form (Some base.entry) (all_lent list.now))) }
    ensures first { IfOk result (λ told. option_map string_bytes told.1
        ≡ first_url (elsewhere form (Some base.entry) (all_lent list.now))) }
{
    let found = elsewhere(alloc, form, base, list)?;
    Ok((found.len(), first_url(alloc, found.as_slice())?))
}

/// The text of a form of these sources on the base that there may be, and what is told beside it.
fn export(
    alloc: Global,
    form: PlanFormat,
    base: Option<Base<'_>>,
    list: &[Listed<'_>],
) -> Result<Exported, ExportError>
    ensures text { Gives export.Memory (λ e. string_bytes e.text) result
        (format_text form (on_base base.entry (all_lent list.now))) }
    ensures left_out { IfOk result (λ e. e.left_out
        ≡ left_out form (on_base base.entry (all_lent list.now))) }
    ensures first { IfOk result (λ e. map shown_left e.first_left.items
        ≡ first_left form (on_base base.entry (all_lent list.now))) }
    ensures elsewhere { IfOk result (λ e. e.elsewhere
        ≡ length (elsewhere form base.entry (all_lent list.now))) }
    ensures first_elsewhere { IfOk result (λ e. option_map string_bytes e.first_elsewhere
        ≡ first_url (elsewhere form base.entry (all_lent list.now))) }
{
    let Some(base) = base else {
        return export_here(alloc, form, list);
    };
    let (elsewhere, first_elsewhere) = told_elsewhere(alloc, form, base, list)?;
    let mut exported = export_moved(alloc, form, base, list)?;
    exported.elsewhere = elsewhere;
    exported.first_elsewhere = first_elsewhere;
    Ok(exported)
}

/// A plan on the state of its session in a form for another tool, whole, or the first refusal in
/// the order of its lines. Where a base is given, the form has the URLs of files that are on it,
/// and judges these. It takes memory for a list of the sources, for a table of the files that
/// a list has, and for the text; on a base for the sources once more, and for their URLs.
pub fn export_plan(
    alloc: Global,
    form: PlanFormat,
    base: Option<Base<'_>>,
    session: &Session,
    plan: &Plan,
) -> Result<Exported, ExportError>
    ensures text { Gives export.Memory (λ e. string_bytes e.text) result
        (format_text form (on_base base.entry (plan_sources session.now.state plan.now))) }
    ensures left_out { IfOk result (λ e. e.left_out
        ≡ left_out form (on_base base.entry (plan_sources session.now.state plan.now))) }
    ensures first { IfOk result (λ e. map shown_left e.first_left.items
        ≡ first_left form (on_base base.entry (plan_sources session.now.state plan.now))) }
    ensures elsewhere { IfOk result (λ e. e.elsewhere
        ≡ length (elsewhere form base.entry (plan_sources session.now.state plan.now))) }
    ensures first_elsewhere { IfOk result (λ e. option_map string_bytes e.first_elsewhere
        ≡ first_url (elsewhere form base.entry (plan_sources session.now.state plan.now))) }
{
    let list = plan_sources(alloc, session, plan.picks())?;
    export(alloc, form, base, list.as_slice())
}

/// Every source of the entries of a lock, which have the numbers 1, 2, .. in their order, in a form
/// for another tool, whole, or the first refusal in the order of its lines. It takes the memory of
/// [`export_plan`].
pub fn export_files(
    alloc: Global,
    form: FileFormat,
    base: Option<Base<'_>>,
    entries: &[Entry],
) -> Result<Exported, ExportError>
    ensures text { Gives export.Memory (λ e. string_bytes e.text) result
        (format_text (format.Files form) (on_base base.entry (sources_from 1 entries.now))) }
    ensures left_out { IfOk result (λ e. e.left_out
        ≡ left_out (format.Files form) (on_base base.entry (sources_from 1 entries.now))) }
    ensures first { IfOk result (λ e. map shown_left e.first_left.items
        ≡ first_left (format.Files form) (on_base base.entry (sources_from 1 entries.now))) }
    ensures elsewhere { IfOk result (λ e. e.elsewhere
        ≡ length (elsewhere (format.Files form) base.entry (sources_from 1 entries.now))) }
    ensures first_elsewhere { IfOk result (λ e. option_map string_bytes e.first_elsewhere
        ≡ first_url (elsewhere (format.Files form) base.entry (sources_from 1 entries.now))) }
{
    let list = entry_sources(alloc, entries)?;
    export(alloc, PlanFormat::Files(form), base, list.as_slice())
}

/// These sources in a form for another tool, whole, or the first refusal in the order of its lines,
/// which has the number of a source. It takes the memory of [`export_plan`].
pub fn export_given(
    alloc: Global,
    form: FileFormat,
    base: Option<Base<'_>>,
    given: &[GivenSource<'_>],
) -> Result<Exported, ExportError>
    ensures text { Gives export.Memory (λ e. string_bytes e.text) result
        (format_text (format.Files form) (on_base base.entry (given_sources given.now))) }
    ensures left_out { IfOk result (λ e. e.left_out
        ≡ left_out (format.Files form) (on_base base.entry (given_sources given.now))) }
    ensures first { IfOk result (λ e. map shown_left e.first_left.items
        ≡ first_left (format.Files form) (on_base base.entry (given_sources given.now))) }
    ensures elsewhere { IfOk result (λ e. e.elsewhere
        ≡ length (elsewhere (format.Files form) base.entry (given_sources given.now))) }
    ensures first_elsewhere { IfOk result (λ e. option_map string_bytes e.first_elsewhere
        ≡ first_url (elsewhere (format.Files form) base.entry (given_sources given.now))) }
{
    let list = given_sources(alloc, given)?;
    export(alloc, PlanFormat::Files(form), base, list.as_slice())
}
