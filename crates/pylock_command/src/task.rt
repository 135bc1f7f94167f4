//! What the program is asked to do.

use crate::base::Base;
use crate::form::{BillFormat, FileFormat, Form, PlanFormat};
use crate::machine::{Machine, TargetWords};
use crate::option::PlanOption;

/// What is shown of a lock for a machine.
#[derive(Clone, Copy, Debug, PartialEq, Eq)]
pub enum View {
    /// The answer, as `plan` prints it.
    Plan,
    /// What becomes of the head and of each entry, as `explain` prints it.
    Explain,
}

/// How the answer of `plan` or `explain` is printed.
#[derive(Clone, Copy, Debug, PartialEq, Eq)]
pub enum Output<'a> {
    /// What is shown, in a form.
    View(View, Form),
    /// The plan in a form that another tool takes, with the URLs on the base that there may be.
    Tool(PlanFormat, Option<Base<'a>>),
    /// The plan's bill of materials.
    Bill(BillFormat<'a>),
}

/// How the sources of locks are printed.
#[derive(Clone, Copy, Debug, PartialEq, Eq)]
pub enum FilesOutput<'a> {
    /// Every source, in a form.
    Shown(Form),
    /// The files in a form that another tool takes, with the URLs on the base that there may be.
    Tool(FileFormat, Option<Base<'a>>),
}

/// What `files` is asked.
#[derive(Debug, Drop)]
pub struct FilesQuestion<'a> {
    /// The path of the first lock, of which `-` is standard input.
    pub lock: &'a str,
    /// The paths of the others, in the order of the words. Of all paths of a question one at most
    /// is `-`.
    pub others: Vec<&'a str>,
    /// What is left out: `Only`, `Except` and `NoProject`, in this order, and each with its texts
    /// in the order of the words.
    pub options: Vec<PlanOption<'a>>,
    /// How the sources are printed.
    pub output: FilesOutput<'a>,
}

/// How the answer of `audit` is printed.
#[derive(Clone, Copy, Debug, PartialEq, Eq)]
pub enum AuditOutput {
    /// The findings, in a form.
    Shown(Form),
    /// The findings as a SARIF document (SARIF 2.1.0), which code hosts take.
    Sarif,
}

/// How the answer of `matrix` is printed.
#[derive(Clone, Copy, Debug, PartialEq, Eq)]
pub enum MatrixOutput<'a> {
    /// A row for each target, in a form.
    Rows(Form),
    /// The files that the targets take, each once.
    Files(FilesOutput<'a>),
}

/// A lock for a machine: what a session is opened on.
#[derive(Clone, Copy, Debug)]
pub struct Opening<'a> {
    /// The path of the lock, of which `-` is standard input.
    pub lock: &'a str,
    /// The machine. Where it is that of a file, one of the two paths at most is `-`.
    pub machine: Machine<'a>,
    /// Whether the lock is taken only where nothing is found in it that a strict reading refuses.
    pub strict: bool,
}

/// What `plan` and `explain` are asked.
#[derive(Debug, Drop)]
pub struct Question<'a> {
    /// The lock and the machine.
    pub opening: Opening<'a>,
    /// The options.
    pub options: Vec<PlanOption<'a>>,
    /// How the answer is printed.
    pub output: Output<'a>,
}

/// For which machine two locks are compared, and with which options.
#[derive(Debug, Drop)]
pub struct Installation<'a> {
    /// The machine.
    pub machine: Machine<'a>,
    /// The options.
    pub options: Vec<PlanOption<'a>>,
}

/// What `diff` is asked.
#[derive(Debug, Drop)]
pub struct Comparison<'a> {
    /// The path of the old lock, of which `-` is standard input.
    pub old: &'a str,
    /// The path of the new lock. Of all paths of a comparison one at most is `-`.
    pub new: &'a str,
    /// Where the plans of the locks are compared, and not the locks: for which machine.
    pub installation: Option<Installation<'a>>,
    /// The form of the answer.
    pub form: Form,
}

/// What `audit` is asked.
#[derive(Debug, Drop)]
pub struct AuditQuestion<'a> {
    /// The path of the lock, of which `-` is standard input.
    pub lock: &'a str,
    /// Whether every environment that the lock is for is looked at too.
    pub environments: bool,
    /// The paths of files of advisories. Of all paths of a question one at most is `-`.
    pub advisories: Vec<&'a str>,
    /// The hosts that a source may name; any where there are none.
    pub hosts: Vec<&'a str>,
    /// The words of the findings that fail the audit, with `,` between two; without them all do.
    pub fail_on: Option<&'a str>,
    /// What is ignored: the word of a finding, and `:` and a name behind it for one package.
    pub ignored: Vec<&'a str>,
    /// The path of a project file whose settings count too.
    pub config: Option<&'a str>,
    /// How the answer is printed.
    pub output: AuditOutput,
}

/// What `matrix` is asked.
#[derive(Debug, Drop)]
pub struct MatrixQuestion<'a> {
    /// The path of the lock, of which `-` is standard input.
    pub lock: &'a str,
    /// The words of the Pythons, with `,` between two; none where the lock's are meant.
    pub pythons: Option<&'a str>,
    /// The words of the platforms, with `,` between two; none where the common ones are meant.
    pub platforms: Option<&'a str>,
    /// The options, which hold for each target.
    pub options: Vec<PlanOption<'a>>,
    /// Whether the lock is taken only where nothing is found in it that a strict reading refuses.
    pub strict: bool,
    /// Whether the status tells that something is built from source.
    pub no_build: bool,
    /// How the answer is printed.
    pub output: MatrixOutput<'a>,
}

/// What `status` is asked.
#[derive(Debug, Drop)]
pub struct StatusQuestion<'a> {
    /// The lock and the machine.
    pub opening: Opening<'a>,
    /// The options.
    pub options: Vec<PlanOption<'a>>,
    /// The path of the list of what is installed, of which `-` is standard input. Of all paths of a
    /// question one at most is `-`.
    pub installed: &'a str,
    /// Whether nothing else may be installed but what the plan names.
    pub exact: bool,
    /// The form of the answer.
    pub form: Form,
}

/// What `check` is asked.
#[derive(Debug, Drop)]
pub struct CheckQuestion<'a> {
    /// The lock and the machine.
    pub opening: Opening<'a>,
    /// The options.
    pub options: Vec<PlanOption<'a>>,
    /// The path of the project file, of which `-` is standard input. Of all paths of a question one
    /// at most is `-`.
    pub project: &'a str,
    /// The form of the answer.
    pub form: Form,
}

/// What `check --matrix` is asked.
#[derive(Debug, Drop)]
pub struct CheckMatrixQuestion<'a> {
    /// The path of the lock, of which `-` is standard input.
    pub lock: &'a str,
    /// The words of the Pythons, with `,` between two; none where the lock's are meant.
    pub pythons: Option<&'a str>,
    /// The words of the platforms, with `,` between two; none where the common ones are meant.
    pub platforms: Option<&'a str>,
    /// The options, which hold for each target.
    pub options: Vec<PlanOption<'a>>,
    /// Whether the lock is taken only where nothing is found in it that a strict reading refuses.
    pub strict: bool,
    /// The path of the project file, of which `-` is standard input. Of the two paths one at most
    /// is `-`.
    pub project: &'a str,
    /// The form of the answer.
    pub form: Form,
}

/// What is asked about a text by itself.
#[derive(Clone, Copy, Debug)]
pub enum TextQuestion<'a> {
    /// The normal form of a version (PEP 440).
    Version(&'a str),
    /// Whether a specifier set, which stands first, admits a version (PEP 440).
    Match(&'a str, &'a str),
    /// The normal form of a name (PEP 503).
    Name(&'a str),
    /// The parts of a requirement (PEP 508).
    Requirement(&'a str),
    /// The parts of a wheel's file name (PEP 427).
    Wheel(&'a str),
    /// The name and the version in an sdist's file name (PEP 625).
    Sdist(&'a str),
}

/// What the program is asked to do. Of a path `-` is standard input.
#[derive(Debug, Drop)]
pub enum Task<'a> {
    /// No subcommand.
    Bare,
    /// `plan` or `explain`, with what it is asked.
    Show(Question<'a>),
    /// `select`, with what the session is opened on, of which no path is `-`, and the form of each
    /// answer.
    Select(Opening<'a>, Form),
    /// `matrix`, with what it is asked.
    Matrix(MatrixQuestion<'a>),
    /// `status`, with what it is asked.
    Status(StatusQuestion<'a>),
    /// `check`, with what it is asked.
    Check(CheckQuestion<'a>),
    /// `check --matrix`, with what it is asked.
    CheckMatrix(CheckMatrixQuestion<'a>),
    /// `show`, with the path of the lock, and the form of the answer.
    Summary(&'a str, Form),
    /// `files`, with what it is asked.
    Files(FilesQuestion<'a>),
    /// `audit`, with what it is asked.
    Audit(AuditQuestion<'a>),
    /// `diff`, with what it is asked.
    Diff(Comparison<'a>),
    /// `environment`, with the words of the target.
    Environment(TargetWords<'a>),
    /// `marker`, with the text of a marker, the machine, and the form of the answer.
    Marker(&'a str, Machine<'a>, Form),
    /// `version`, `match`, `name`, `requirement`, `wheel` or `sdist`, with what is asked about a
    /// text, and the form of the answer.
    Text(TextQuestion<'a>, Form),
}
