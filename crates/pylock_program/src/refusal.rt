//! What stands in the place of an answer: why there is none, and the diagnostic for a person.

ghost use Rattle.std.specs.Prelude.{◌≡◌, ◌++◌, Err, OnOk, true};
ghost use Rattle.std.specs.Option.{option_copied};
ghost use Rattle.pylock_program.specs.Findings.{findings_shown};
ghost use Rattle.pylock_program.specs.Refusal.{PrintsTelling, cause_status, cause_printed};
ghost use Rattle.pylock_program.specs.Refusal.{is_memory, option_printed, out_of_memory};
ghost use Rattle.pylock_program.specs.Refusal.{cause_report, clash_printed, refusal_report};
ghost use Rattle.pylock_program.specs.Refusal.{silence};
ghost use Rattle.pylock_program.specs.Refusal.{refusal_printed, side_printed, side_word};
ghost use Rattle.pylock_program.specs.Refusal.{unopened_printed};
ghost use Rattle.pylock_program.specs.declared.refusal.Cause.TheVariants as cause;
ghost use Rattle.pylock_program.specs.declared.opening.Unopened.TheVariants as unopened;
ghost use Rattle.pylock_run.specs.Report.Print.{Prints};
ghost use Rattle.pylock_run.specs.declared.report.fault.RunFault.TheVariants as fault;
ghost use Rattle.pylock_run.specs.declared.report.opening.OpenError.TheVariants as open_error;

use crate::diagnostics::audit::{advisories_diagnostic, policy_diagnostic, settings_diagnostic};
use crate::diagnostics::files::{clash_diagnostic, unnamed_diagnostic};
use crate::diagnostics::refusal::{
    environment_refusal, findings_diagnostic, installed_diagnostic, project_diagnostic,
};
use crate::diagnostics::{tell, tell_bytes};
use crate::file::{FileBytes, MachineInput};
use crate::host::Outputs;
use crate::opening::Unopened;
use crate::options::option_words;
use crate::text::advisories::push_advisories_refusal;
use crate::text::audit::push_findings;
use crate::text::installed::push_installed_refusal;
use crate::text::json::{push_clash_json, push_option_json, push_refusal_json, push_words};
use crate::text::placed::{push_policy_refusal, push_project_refusal, push_settings_refusal};
use pylock_advisories::AdvisoriesError;
use pylock_audit::{Findings, LockFinding, findings_document};
use pylock_check::ProjectError;
use pylock_command::{Form, PlanOption};
use pylock_core::{EnvError, LockError};
use pylock_documents::push_document;
use pylock_findings::PolicyError;
use pylock_installed::InstalledError;
use pylock_messages::{Diagnostic, lock_diagnostic};
use pylock_run::{
    OpenError, RunFault, Sink, lock_words, print, push_next_field, push_refusal, push_side_error,
};
use pylock_settings::SettingsError;
use pylock_union::{Clash, push_clash};
use std::alloc::{AllocError, Global};

/// The status where an option is refused.
const REFUSED_OPTION: u8 = 1;

/// The status where the lock or the environment is refused.
pub(crate) const REFUSED: u8 = 2;

/// One of two locks that are compared.
#[derive(Clone, Copy)]
pub(crate) enum Side {
    /// The first.
    Old,
    /// The second.
    New,
}

impl Side {
    fn word(self) -> &'static str
        ensures { result.now ≡ side_word self }
    {
        match self {
            Side::Old => "old",
            Side::New => "new",
        }
    }
}

/// Why there is no answer.
#[derive(Drop)]
pub(crate) enum Cause<'a> {
    /// There is no session: the lock or the environment is refused, or findings are.
    Unopened(Unopened),
    /// One of two locks is refused.
    Side(Side, LockError),
    /// The list of what is installed is refused.
    Installed(InstalledError),
    /// The project file is refused.
    Project(ProjectError),
    /// The settings of an audit are refused.
    Settings(SettingsError),
    /// The words that say which findings count are refused.
    Policy(PolicyError),
    /// The file of advisories of this number, from 1, is refused.
    Advisories(usize, AdvisoriesError),
    /// Of several locks two files of one name differ.
    Clash(Clash<'a>),
    /// An option is refused.
    Option(PlanOption<'a>),
}

impl Cause<'_> {
    fn is_memory(&self) -> bool
        ensures { result ≡ is_memory self.now }
    {
        match self {
            Cause::Unopened(Unopened::Refused(OpenError::Memory)) => true,
            _ => false,
        }
    }

    fn status(&self) -> u8
        ensures { result ≡ cause_status self.now }
    {
        match self {
            Cause::Option(_) => REFUSED_OPTION,
            _ => REFUSED,
        }
    }
}

/// Why there is no answer, and its diagnostic, unless memory was refused for that.
#[derive(Drop)]
pub(crate) struct Refusal<'a> {
    pub(crate) cause: Cause<'a>,
    pub(crate) diagnostic: Result<Option<Diagnostic>, AllocError>,
}

impl<'a> From<AllocError> for Refusal<'a> {
    ghost use Rattle.pylock_program.specs.Refusal.{out_of_memory};

    ghost from_gives = { λ _ refusal. refusal.cause ≡ out_of_memory };

    fn from(_refused: AllocError) -> Refusal<'a> {
        Refusal::of_memory()
    }
}

impl<'a> Refusal<'a> {
    /// Memory ran out, which is no refusal and is never printed.
    pub(crate) fn of_memory() -> Refusal<'a>
        ensures { result.cause ≡ out_of_memory }
    {
        let cause = Cause::Unopened(Unopened::Refused(OpenError::Memory));
        Refusal {
            cause,
            diagnostic: Ok(None),
        }
    }

    /// A lock that stands alone is refused.
    pub(crate) fn of_lock(alloc: Global, error: LockError, file: &FileBytes<'_>) -> Refusal<'a>
        ensures { result.cause ≡ cause.Unopened (unopened.Refused (open_error.Lock error)) }
    {
        let diagnostic = lock_diagnostic(alloc, file.path, &file.bytes, &error);
        let cause = Cause::Unopened(Unopened::Refused(OpenError::Lock(error)));
        Refusal { cause, diagnostic }
    }

    /// Findings stand in a lock that is taken strictly and stands alone.
    pub(crate) fn of_findings(alloc: Global, found: Findings, file: &FileBytes<'_>) -> Refusal<'a>
        ensures { result.cause ≡ cause.Unopened (unopened.Findings found) }
    {
        let diagnostic = findings_diagnostic(alloc, file);
        let cause = Cause::Unopened(Unopened::Findings(found));
        Refusal { cause, diagnostic }
    }

    /// An environment that stands alone is refused.
    pub(crate) fn of_environment(
        alloc: Global,
        error: EnvError,
        machine: &MachineInput<'_>,
    ) -> Refusal<'a>
        ensures { result.cause
            ≡ cause.Unopened (unopened.Refused (open_error.Environment error)) }
    {
        let diagnostic = environment_refusal(alloc, &error, machine);
        let cause = Cause::Unopened(Unopened::Refused(OpenError::Environment(error)));
        Refusal { cause, diagnostic }
    }

    /// A list of what is installed is refused.
    pub(crate) fn of_installed(
        alloc: Global,
        error: InstalledError,
        list: &FileBytes<'_>,
    ) -> Refusal<'a>
        ensures { result.cause ≡ cause.Installed error }
    {
        let diagnostic = installed_diagnostic(alloc, &error, list);
        let cause = Cause::Installed(error);
        Refusal { cause, diagnostic }
    }

    /// A project file is refused.
    pub(crate) fn of_project(
        alloc: Global,
        error: ProjectError,
        file: &FileBytes<'_>,
    ) -> Refusal<'a>
        ensures { result.cause ≡ cause.Project error }
    {
        let diagnostic = project_diagnostic(alloc, &error, file);
        let cause = Cause::Project(error);
        Refusal { cause, diagnostic }
    }

    /// The settings of an audit are refused, in the file at this path.
    pub(crate) fn of_settings(alloc: Global, error: SettingsError, path: &str) -> Refusal<'a>
        ensures { result.cause ≡ cause.Settings error }
    {
        let diagnostic = settings_diagnostic(alloc, &error, path);
        let cause = Cause::Settings(error);
        Refusal { cause, diagnostic }
    }

    /// The words that say which findings count are refused.
    pub(crate) fn of_policy(alloc: Global, error: PolicyError) -> Refusal<'a>
        ensures { result.cause ≡ cause.Policy error }
    {
        let diagnostic = policy_diagnostic(alloc, &error);
        let cause = Cause::Policy(error);
        Refusal { cause, diagnostic }
    }

    /// The file of advisories of this number is refused.
    pub(crate) fn of_advisories(
        alloc: Global,
        number: usize,
        error: AdvisoriesError,
        file: &FileBytes<'_>,
    ) -> Refusal<'a>
        ensures { result.cause ≡ cause.Advisories number error }
    {
        let diagnostic = advisories_diagnostic(alloc, &error, file);
        let cause = Cause::Advisories(number, error);
        Refusal { cause, diagnostic }
    }

    /// Of several locks two files of one name differ.
    pub(crate) fn of_clash(alloc: Global, clash: Clash<'a>) -> Refusal<'a>
        ensures { result.cause ≡ cause.Clash clash.entry }
    {
        let diagnostic = clash_diagnostic(alloc, &clash);
        let cause = Cause::Clash(clash);
        Refusal { cause, diagnostic }
    }

    /// An option names no entry of any lock.
    pub(crate) fn of_unnamed(alloc: Global, option: PlanOption<'a>) -> Refusal<'a>
        ensures { result.cause ≡ cause.Option option.entry }
    {
        let diagnostic = unnamed_diagnostic(alloc, option);
        let cause = Cause::Option(option);
        Refusal { cause, diagnostic }
    }

    /// One of two locks is refused.
    pub(crate) fn of_side(
        alloc: Global,
        side: Side,
        error: LockError,
        file: &FileBytes<'_>,
    ) -> Refusal<'a>
        ensures { result.cause ≡ cause.Side side error }
    {
        let diagnostic = lock_diagnostic(alloc, file.path, &file.bytes, &error);
        let cause = Cause::Side(side, error);
        Refusal { cause, diagnostic }
    }
}

/// Writes a refusal in a form, and answers its status; a person is told the line on it. Without a
/// form nothing is written, and a person is told the lines of it too.
#[tactic(auto, using(crate::proofs::OpeningLemmas::refusals))]
pub(crate) fn write_refusal<W: Sink, N: Sink>(
    alloc: Global,
    form: Option<Form>,
    refusal: Refusal<'_>,
    outputs: &mut Outputs<W, N>,
) -> Result<u8, RunFault>
    ensures printed { PrintsTelling
        (λ diagnostic. refusal_report form diagnostic refusal.entry.cause)
        (W.value outputs.old.writer) (W.value outputs.new.writer) result }
    ensures memory { is_memory refusal.entry.cause ≡ true → (result ≡ Err fault.Memory)
        × (W.value outputs.new.writer ≡ W.value outputs.old.writer) }
{
    let Refusal { cause, diagnostic } = refusal;
    if cause.is_memory() {
        return Err(RunFault::Memory);
    }
    match form {
        Some(form) => write_cause(alloc, form, &cause, diagnostic, outputs),
        None => tell_cause(alloc, &cause, diagnostic, outputs),
    }
}

/// Writes a refusal in its form.
fn write_cause<W: Sink, N: Sink>(
    alloc: Global,
    form: Form,
    cause: &Cause<'_>,
    diagnostic: Result<Option<Diagnostic>, AllocError>,
    outputs: &mut Outputs<W, N>,
) -> Result<u8, RunFault>
    ensures { PrintsTelling (λ diagnostic. cause_report form diagnostic cause.now)
        (W.value outputs.old.writer) (W.value outputs.new.writer) result }
{
    let diagnostic = diagnostic_in(form, diagnostic)?;
    let mut out = Vec::new(alloc);
    push_cause(alloc, &mut out, form, cause, diagnostic.as_ref())?;
    let end = print(&out, cause.status(), &mut outputs.writer);
    if let (Ok(_), Some(diagnostic)) = (end, diagnostic) {
        tell(alloc, &mut outputs.diagnostics, diagnostic.message());
    }
    end
}

/// The diagnostic in this form: lines are printed also where memory ran out for what a person would
/// be told beside them, while of a document it is a part.
fn diagnostic_in(
    form: Form,
    diagnostic: Result<Option<Diagnostic>, AllocError>,
) -> Result<Option<Diagnostic>, AllocError> {
    match (form, diagnostic) {
        (Form::Lines, Err(_)) => Ok(None),
        (_, diagnostic) => diagnostic,
    }
}

/// Tells the lines of a refusal, and writes nothing.
fn tell_cause<W: Sink, N: Sink>(
    alloc: Global,
    cause: &Cause<'_>,
    diagnostic: Result<Option<Diagnostic>, AllocError>,
    outputs: &mut Outputs<W, N>,
) -> Result<u8, RunFault>
    ensures { Prints (silence (cause_status cause.now))
        (W.value outputs.old.writer) (W.value outputs.new.writer) result }
{
    let mut lines = Vec::new(alloc);
    push_cause(alloc, &mut lines, Form::Lines, cause, None)?;
    tell_bytes(&mut outputs.diagnostics, &lines);
    if let Ok(Some(diagnostic)) = diagnostic {
        tell(alloc, &mut outputs.diagnostics, diagnostic.message());
    }
    print(&[], cause.status(), &mut outputs.writer)
}

/// Pushes what is printed of a refusal, in whose document the diagnostic is.
fn push_cause(
    alloc: Global,
    out: &mut Vec<u8>,
    form: Form,
    cause: &Cause<'_>,
    diagnostic: Option<&Diagnostic>,
) -> Result<(), AllocError>
    ensures { OnOk result (out.new.items
        ≡ out.old.items ++ cause_printed form (option_copied diagnostic.entry) cause.now) }
{
    match cause {
        Cause::Unopened(unopened) => push_unopened(alloc, out, form, unopened, diagnostic),
        Cause::Side(side, error) => push_side(alloc, out, (form, *side), error, diagnostic),
        Cause::Installed(error) => push_installed_refusal(alloc, out, form, error, diagnostic),
        Cause::Project(error) => push_project_refusal(alloc, out, form, error, diagnostic),
        Cause::Settings(error) => push_settings_refusal(alloc, out, form, error, diagnostic),
        Cause::Policy(error) => push_policy_refusal(alloc, out, form, error, diagnostic),
        Cause::Advisories(number, error) => {
            push_advisories_refusal(alloc, out, form, (*number, error), diagnostic)
        }
        Cause::Clash(clash) => push_clash_refusal(alloc, out, form, clash, diagnostic),
        Cause::Option(option) => push_option(alloc, out, form, *option, diagnostic),
    }
}

/// Pushes what is printed in place of an answer where there is no session: the findings as `audit`
/// prints them, or the refusal of the lock or the environment. `diagnostic` is what a document has
/// beside the words of a refusal. It takes memory for a document.
pub fn push_unopened(
    alloc: Global,
    out: &mut Vec<u8>,
    form: Form,
    unopened: &Unopened,
    diagnostic: Option<&Diagnostic>,
) -> Result<(), AllocError>
    ensures { OnOk result (out.new.items
        ≡ out.old.items ++ unopened_printed form (option_copied diagnostic.entry) unopened.now) }
{
    match unopened {
        Unopened::Findings(found) => push_found(alloc, out, form, found.as_slice()),
        Unopened::Refused(refusal) => push_open_error(alloc, out, form, refusal, diagnostic),
    }
}

/// Pushes findings: their number and a line for each, or a document.
pub(crate) fn push_found(
    alloc: Global,
    out: &mut Vec<u8>,
    form: Form,
    found: &[LockFinding],
) -> Result<(), AllocError>
    ensures { OnOk result (out.new.items ≡ out.old.items ++ findings_shown form found.now) }
{
    match form {
        Form::Lines => push_findings(out, found),
        Form::Json => push_document(alloc, out, findings_document(alloc, found)?),
    }
}

/// Pushes what is printed of a refused lock or environment: its line, or the JSON document of the
/// line's words and of the diagnostic beside them, each with an LF at its end. It takes memory for
/// the document.
pub fn push_open_error(
    alloc: Global,
    out: &mut Vec<u8>,
    form: Form,
    refusal: &OpenError,
    diagnostic: Option<&Diagnostic>,
) -> Result<(), AllocError>
    ensures { OnOk result (out.new.items
        ≡ out.old.items ++ refusal_printed form (option_copied diagnostic.entry) refusal.now) }
{
    match form {
        Form::Lines => push_refusal(out, refusal),
        Form::Json => push_refusal_json(alloc, out, refusal, diagnostic),
    }
}

/// Pushes a refused lock, behind the word for which of two it is.
fn push_side(
    alloc: Global,
    out: &mut Vec<u8>,
    shown: (Form, Side),
    error: &LockError,
    diagnostic: Option<&Diagnostic>,
) -> Result<(), AllocError>
    ensures { OnOk result (out.new.items ≡ out.old.items
        ++ side_printed shown.0 (option_copied diagnostic.entry) shown.1 error.now) }
{
    let (form, side) = shown;
    match form {
        Form::Lines => push_side_error(out, side.word(), error),
        Form::Json => push_words(
            alloc,
            out,
            &["lock", side.word()],
            lock_words(error),
            diagnostic,
        ),
    }
}

/// Pushes a refused option: its line, or the document of the line's words.
fn push_option(
    alloc: Global,
    out: &mut Vec<u8>,
    form: Form,
    option: PlanOption<'_>,
    diagnostic: Option<&Diagnostic>,
) -> Result<(), AllocError>
    ensures { OnOk result (out.new.items
        ≡ out.old.items ++ option_printed form (option_copied diagnostic.entry) option.entry) }
{
    if matches!(form, Form::Json) {
        return push_option_json(alloc, out, option, diagnostic);
    }
    let (word, text) = option_words(option);
    out.extend_from_slice(b"refused\t")?;
    out.extend_from_slice(word.as_bytes())?;
    push_next_field(out, text)?;
    out.push(b'\n')?;
    Ok(())
}

/// Pushes two files of one name that differ: their line, or the document of the line's words and
/// the diagnostic.
fn push_clash_refusal(
    alloc: Global,
    out: &mut Vec<u8>,
    form: Form,
    clash: &Clash<'_>,
    diagnostic: Option<&Diagnostic>,
) -> Result<(), AllocError>
    ensures { OnOk result (out.new.items
        ≡ out.old.items ++ clash_printed form (option_copied diagnostic.entry) clash.now) }
{
    match form {
        Form::Lines => push_clash(out, clash),
        Form::Json => push_clash_json(alloc, out, clash, diagnostic),
    }
}
