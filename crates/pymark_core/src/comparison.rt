//! Comparisons of markers (PEP 508, "Environment Markers"). The order of code points is the byte
//! order of UTF-8, so texts are compared by bytes.

ghost use Rattle.std.specs.Prelude.{◌≡◌, IfOk, None, Result, Some, false, string_bytes, true};
ghost use Rattle.std.specs.Option.{option_copied};
ghost use Rattle.pytext.specs.Agreement.{Gives};
ghost use Rattle.pyver_core.specs.Name.{normal_name};
ghost use Rattle.pymark_core.specs.Marker.ComparisonView.{IsRead, ReadsAs, comparator_of};
ghost use Rattle.pymark_core.specs.Marker.ComparisonView.{left_operand, right_of, right_operand};
ghost use Rattle.pymark_core.specs.Marker.ComparisonView.{unboxed};
ghost use Rattle.pymark_core.specs.Marker.Asked.{extra_asked, group_asked, comparison_reads_extra};
ghost use Rattle.pymark_core.specs.Marker.Asked.{operand_variable, quoted_text};
ghost use Rattle.pymark_core.specs.Marker.Pieces.{operand_word};
ghost use Rattle.pymark_core.specs.Marker.Value as value;
ghost use Rattle.pyver_core.specs.Parsed.{parsed_operand};

use crate::compared_text::ComparedText;
use crate::environment::Environment;
use crate::fault::EvalFault;
use crate::operand::{Comparator, Operand};
use crate::substring::is_substring;
use crate::variable::Var;
use pytext::Text;
use pyver_core::{NormalForm, Operator, Specifier, SpecifierError, VersionError, is_same_name};
use std::alloc::{AllocError, Global};
use std::marker::Model;

/// Two operands with an operator between them. The quoted texts were read once, in the operator's
/// terms.
///
/// Contracts see the operands and the operator, since what the texts read as follows from them.
pub struct Comparison {
    left: Left,
    test: Test,
}

/// What stands left of an operator.
#[derive(Drop)]
enum Left {
    /// A quoted text, with the version that it spells. Few comparisons have one, so it has memory
    /// of its own.
    Text(Box<ComparedText>),
    Variable(Var),
    Extra,
    Extras,
    Groups,
}

/// An operator, and what stands right of it.
#[derive(Drop)]
enum Test {
    By(Operator, Right),
    In(Operand),
    NotIn(Operand),
}

/// What stands right of an operator of specifiers.
#[derive(Drop)]
enum Right {
    /// A quoted text, with what it reads as there. Few texts read as a specifier, so it has memory
    /// of its own.
    Text(Text, Result<Box<Specifier>, SpecifierError>),
    Variable(Var),
    Extra,
    Extras,
    Groups,
}

impl Model for Comparison {
    ghost use Rattle.pymark_core.specs.Marker.Comparison.{ComparisonValue};
    ghost use Rattle.pymark_core.specs.Marker.ComparisonView.{IsRead, comparator_of, left_operand};
    ghost use Rattle.pymark_core.specs.Marker.ComparisonView.{right_of};

    ghost Value = { ComparisonValue };

    ghost view = { λ a. record {
      left = left_operand a.left;
      comparator = comparator_of a.test;
      right = right_of a.test;
    } };

    ghost invariant = { λ a. IsRead a.test };
}

impl Comparison {
    /// The comparison of these operands.
    pub(crate) fn new(
        alloc: Global,
        left: Operand,
        comparator: Comparator,
        right: Operand,
    ) -> Result<Comparison, AllocError>
        ensures { IfOk result (λ c. c ≡ record {
          left = left;
          comparator = comparator;
          right = right;
        }) }
    {
        Ok(Comparison {
            left: read_left(alloc, left, &right)?,
            test: read_test(alloc, comparator, right)?,
        })
    }

    /// The operator. It takes no memory.
    pub fn comparator(&self) -> Comparator
        ensures { result ≡ self.now.comparator }
    {
        match &self.test {
            Test::By(operator, _) => Comparator::By(*operator),
            Test::In(_) => Comparator::In,
            Test::NotIn(_) => Comparator::NotIn,
        }
    }

    /// The variable that stands left of the operator, if one does. It takes no memory.
    pub fn left_variable(&self) -> Option<Var>
        ensures { result ≡ operand_variable self.now.left }
    {
        match &self.left {
            Left::Variable(variable) => Some(*variable),
            _ => None,
        }
    }

    /// The variable that stands right of the operator, if one does. It takes no memory.
    pub fn right_variable(&self) -> Option<Var>
        ensures { result ≡ operand_variable self.now.right }
    {
        match &self.test {
            Test::By(_, Right::Variable(variable))
            | Test::In(Operand::Variable(variable))
            | Test::NotIn(Operand::Variable(variable)) => Some(*variable),
            _ => None,
        }
    }

    /// The text that is quoted left of the operator, if one is. It takes no memory.
    pub fn left_text(&self) -> Option<&str>
        ensures { option_copied result ≡ quoted_text self.now.left }
    {
        self.left.quoted_text()
    }

    /// The text that is quoted right of the operator, if one is. It takes no memory.
    pub fn right_text(&self) -> Option<&str>
        ensures { option_copied result ≡ quoted_text self.now.right }
    {
        match &self.test {
            Test::By(_, Right::Text(text, _))
            | Test::In(Operand::Text(text))
            | Test::NotIn(Operand::Text(text)) => Some(text.as_str()),
            _ => None,
        }
    }

    /// The word that stands left of the operator, if no text is quoted there: the name of a
    /// variable, `extra`, `extras` or `dependency_groups`. It takes no memory.
    pub fn left_word(&self) -> Option<&'static str>
        ensures { option_copied result ≡ operand_word self.now.left }
    {
        self.left.word()
    }

    /// The word that stands right of the operator, if no text is quoted there, as
    /// [`Comparison::left_word`] has it. It takes no memory.
    pub fn right_word(&self) -> Option<&'static str>
        ensures { option_copied result ≡ operand_word self.now.right }
    {
        match &self.test {
            Test::By(_, right) => right.word(),
            Test::In(right) | Test::NotIn(right) => right.word(),
        }
    }

    /// Whether `extra` is one of the operands, which has no value in a lock. It takes no memory.
    pub fn has_extra(&self) -> bool
        ensures { result ≡ comparison_reads_extra self.now }
    {
        matches!(self.left, Left::Extra)
            || matches!(
                self.test,
                Test::By(_, Right::Extra) | Test::In(Operand::Extra) | Test::NotIn(Operand::Extra)
            )
    }

    /// The text that is asked for among the extras: a quoted one left of `in` or `not in`, with
    /// `extras` on the right. It takes no memory.
    pub fn extra_asked(&self) -> Option<&str>
        ensures { option_copied result ≡ extra_asked self.now }
    {
        match &self.test {
            Test::In(Operand::Extras) | Test::NotIn(Operand::Extras) => self.left.quoted_text(),
            _ => None,
        }
    }

    /// The text that is asked for among the groups: a quoted one left of `in` or `not in`, with
    /// `dependency_groups` on the right. It takes no memory.
    pub fn group_asked(&self) -> Option<&str>
        ensures { option_copied result ≡ group_asked self.now }
    {
        match &self.test {
            Test::In(Operand::Groups) | Test::NotIn(Operand::Groups) => self.left.quoted_text(),
            _ => None,
        }
    }

    /// The value in the environment, where `extra` has this text or none.
    pub(crate) fn evaluate(
        &self,
        alloc: Global,
        environment: &Environment,
        extra: Option<&str>,
    ) -> Result<bool, EvalFault>
        ensures { Gives EvalFault.Memory (λ b. b) result
            (value.comparison_value (option_copied extra.entry) environment.now self.now) }
    {
        match extra {
            Some(extra) if self.has_extra() => self.value_of_names(alloc, environment, extra),
            _ => self.value_of_texts(alloc, environment),
        }
    }

    /// The value where `extra` has no text. A variable against a quoted text is judged without
    /// memory, and no text is read; so is a quoted text in a set.
    fn value_of_texts(&self, alloc: Global, environment: &Environment) -> Result<bool, EvalFault>
        ensures { Gives EvalFault.Memory (λ b. b) result
            (value.comparison_value None environment.now self.now) }
    {
        let left = compared_text_left(&self.left, environment)?;
        match &self.test {
            Test::By(operator, right) => value_by(alloc, environment, left, *operator, right),
            Test::In(right) => has_in(alloc, environment, left, right),
            Test::NotIn(right) => Ok(!has_in(alloc, environment, left, right)?),
        }
    }

    /// The value where `extra` is one of the operands and has this text: the two are names.
    fn value_of_names(
        &self,
        alloc: Global,
        environment: &Environment,
        extra: &str,
    ) -> Result<bool, EvalFault>
        requires { comparison_reads_extra self.now ≡ true }
        ensures { Gives EvalFault.Memory (λ b. b) result
            (value.comparison_value (Some extra.now) environment.now self.now) }
    {
        let left = self.left.text(environment, extra)?;
        match &self.test {
            Test::By(operator, right) => {
                compare_names(*operator, left, right.text(environment, extra)?)
            }
            Test::In(right) => has_name_in(alloc, environment, extra, left, right),
            Test::NotIn(right) => Ok(!has_name_in(alloc, environment, extra, left, right)?),
        }
    }
}

impl Drop for Comparison {
    fn drop(self) {
        let Comparison { left: _, test: _ } = self;
    }
}

impl Left {
    /// The text that is quoted.
    fn quoted_text(&self) -> Option<&str>
        ensures { option_copied result ≡ quoted_text (left_operand self.now) }
    {
        match self {
            Left::Text(compared) => Some(compared.text()),
            _ => None,
        }
    }

    /// The word that it is, if it is no quoted text.
    fn word(&self) -> Option<&'static str>
        ensures { option_copied result ≡ operand_word (left_operand self.now) }
    {
        match self {
            Left::Text(_) => None,
            Left::Variable(variable) => Some(variable.name()),
            Left::Extra => Some("extra"),
            Left::Extras => Some("extras"),
            Left::Groups => Some("dependency_groups"),
        }
    }

    /// The text that stands there, where `extra` has this one.
    fn text<'a>(
        &'a self,
        environment: &'a Environment,
        extra: &'a str,
    ) -> Result<&'a str, EvalFault>
        ensures { Gives EvalFault.Memory (λ text. text.now) result
            (value.operand_text (Some extra.now) environment.now (left_operand self.now)) }
    {
        match self {
            Left::Text(compared) => Ok(compared.text()),
            Left::Variable(variable) => variable_text(environment, *variable),
            Left::Extra => Ok(extra),
            Left::Extras | Left::Groups => Err(EvalFault::Undefined),
        }
    }
}

impl Right {
    /// The word that it is, if it is no quoted text.
    fn word(&self) -> Option<&'static str>
        ensures { option_copied result ≡ operand_word (right_operand self.now) }
    {
        match self {
            Right::Text(_, _) => None,
            Right::Variable(variable) => Some(variable.name()),
            Right::Extra => Some("extra"),
            Right::Extras => Some("extras"),
            Right::Groups => Some("dependency_groups"),
        }
    }

    /// The text that stands there, where `extra` has this one.
    fn text<'a>(
        &'a self,
        environment: &'a Environment,
        extra: &'a str,
    ) -> Result<&'a str, EvalFault>
        ensures { Gives EvalFault.Memory (λ text. text.now) result
            (value.operand_text (Some extra.now) environment.now (right_operand self.now)) }
    {
        match self {
            Right::Text(text, _) => Ok(text.as_str()),
            Right::Variable(variable) => variable_text(environment, *variable),
            Right::Extra => Ok(extra),
            Right::Extras | Right::Groups => Err(EvalFault::Undefined),
        }
    }
}

/// The operand, left of this one, with what it reads as if it is a quoted text.
fn read_left(alloc: Global, operand: Operand, right: &Operand) -> Result<Left, AllocError>
    ensures { IfOk result (λ left. left_operand left ≡ operand) }
{
    Ok(match operand {
        Operand::Text(text) => {
            let compared = read_text(alloc, text.into_string(), right)?;
            Left::Text(Box::new(alloc, compared)?)
        }
        Operand::Variable(variable) => Left::Variable(variable),
        Operand::Extra => Left::Extra,
        Operand::Extras => Left::Extras,
        Operand::Groups => Left::Groups,
    })
}

/// The text, left of this operand, with what it reads as there.
fn read_text(alloc: Global, text: String, right: &Operand) -> Result<ComparedText, AllocError>
    ensures { IfOk result (λ compared. compared ≡ string_bytes text) }
{
    match right {
        Operand::Extras | Operand::Groups => ComparedText::with_name(alloc, text),
        Operand::Text(_) | Operand::Variable(_) | Operand::Extra => ComparedText::new(alloc, text),
    }
}

/// The operator with the operand right of it.
fn read_test(alloc: Global, comparator: Comparator, right: Operand) -> Result<Test, AllocError>
    ensures comparator { IfOk result (λ test. comparator_of test ≡ comparator) }
    ensures right { IfOk result (λ test. right_of test ≡ right) }
    ensures read { IfOk result (λ test. IsRead test) }
{
    Ok(match comparator {
        Comparator::By(operator) => Test::By(operator, read_right(alloc, operator, right)?),
        Comparator::In => Test::In(right),
        Comparator::NotIn => Test::NotIn(right),
    })
}

/// The operand as this operator reads it.
fn read_right(alloc: Global, operator: Operator, operand: Operand) -> Result<Right, AllocError>
    ensures operand { IfOk result (λ right. right_operand right ≡ operand) }
    ensures read { IfOk result (λ right. ReadsAs operator right) }
{
    Ok(match operand {
        Operand::Text(text) => {
            let specifier = read_operand(alloc, operator, text.as_str())?;
            Right::Text(text, specifier)
        }
        Operand::Variable(variable) => Right::Variable(variable),
        Operand::Extra => Right::Extra,
        Operand::Extras => Right::Extras,
        Operand::Groups => Right::Groups,
    })
}

/// What the text reads as right of the operator.
fn read_operand(
    alloc: Global,
    operator: Operator,
    text: &str,
) -> Result<Result<Box<Specifier>, SpecifierError>, AllocError>
    ensures { IfOk result (λ read. parsed_operand operator text.now ≡ unboxed read) }
{
    match Specifier::new(alloc, operator, text) {
        Ok(specifier) => Ok(Ok(Box::new(alloc, specifier)?)),
        Err(SpecifierError::Memory) => Err(AllocError),
        Err(refused) => Ok(Err(refused)),
    }
}

/// The text of a variable, with the version that it spells.
fn compared_text_of(environment: &Environment, variable: Var) -> Result<&ComparedText, EvalFault>
    ensures { Gives EvalFault.Memory (λ compared. compared.now) result
        (value.operand_text None environment.now (Operand.Variable variable)) }
{
    environment
        .compared_text(variable)
        .ok_or(EvalFault::Unset(variable))
}

/// The text of a variable.
fn variable_text(environment: &Environment, variable: Var) -> Result<&str, EvalFault>
    ensures { Gives EvalFault.Memory (λ text. text.now) result
        (value.operand_text None environment.now (Operand.Variable variable)) }
{
    Ok(compared_text_of(environment, variable)?.text())
}

/// The text left of an operator, with the version that it spells.
fn compared_text_left<'a>(
    left: &'a Left,
    environment: &'a Environment,
) -> Result<&'a ComparedText, EvalFault>
    ensures { Gives EvalFault.Memory (λ compared. compared.now) result
        (value.operand_text None environment.now (left_operand left.now)) }
{
    match left {
        Left::Text(compared) => Ok(compared),
        Left::Variable(variable) => compared_text_of(environment, *variable),
        Left::Extra => Err(EvalFault::Extra),
        Left::Extras | Left::Groups => Err(EvalFault::Undefined),
    }
}

/// Whether the text is in the operand.
fn has_in(
    alloc: Global,
    environment: &Environment,
    left: &ComparedText,
    right: &Operand,
) -> Result<bool, EvalFault>
    ensures { Gives EvalFault.Memory (λ b. b) result
        (value.is_in None environment.now false left.now right.now) }
{
    match right {
        Operand::Text(whole) => Ok(is_substring(left.text(), whole.as_str())),
        Operand::Variable(variable) => {
            Ok(is_substring(left.text(), variable_text(environment, *variable)?))
        }
        Operand::Extra => Err(EvalFault::Extra),
        Operand::Extras => Ok(left.is_among(alloc, environment.extra_names())?),
        Operand::Groups => Ok(left.is_among(alloc, environment.group_names())?),
    }
}

/// Whether the name is in the operand, where `extra` has this text.
fn has_name_in(
    alloc: Global,
    environment: &Environment,
    extra: &str,
    left: &str,
    right: &Operand,
) -> Result<bool, EvalFault>
    ensures { Gives EvalFault.Memory (λ b. b) result
        (value.is_in (Some extra.now) environment.now true left.now right.now) }
{
    let left = NormalForm::of(alloc, left)?;
    match right {
        Operand::Text(whole) => Ok(is_part(alloc, &left, whole.as_str())?),
        Operand::Variable(variable) => {
            Ok(is_part(alloc, &left, variable_text(environment, *variable)?)?)
        }
        Operand::Extra => Ok(is_part(alloc, &left, extra)?),
        Operand::Extras => Ok(environment.has_extra(left.as_str())),
        Operand::Groups => Ok(environment.has_group(left.as_str())),
    }
}

/// Whether the name stands somewhere in the normal form of the text.
fn is_part(alloc: Global, name: &NormalForm, whole: &str) -> Result<bool, AllocError>
    ensures { IfOk result (λ b. b ≡ value.is_substring name.now (normal_name whole.now)) }
{
    let whole = NormalForm::of(alloc, whole)?;
    Ok(is_substring(name.as_str(), whole.as_str()))
}

/// The text on the left against the operand on the right, by an operator of specifiers.
fn value_by(
    alloc: Global,
    environment: &Environment,
    left: &ComparedText,
    operator: Operator,
    right: &Right,
) -> Result<bool, EvalFault>
    requires { ReadsAs operator right.now }
    ensures { Gives EvalFault.Memory (λ b. b) result
        (value.value_against None environment.now false left.now (Comparator.By operator)
        (right_operand right.now)) }
{
    match right {
        Right::Text(text, specifier) => judge(left, operator, text.as_str(), specifier),
        Right::Variable(variable) => {
            value_by_variable(alloc, environment, left, operator, *variable)
        }
        Right::Extra => Err(EvalFault::Extra),
        Right::Extras | Right::Groups => Err(EvalFault::Undefined),
    }
}

/// The same of a variable on the right, whose text is read here. It stands alone, so that other
/// comparisons don't allocate a specifier.
#[inline(never)]
fn value_by_variable(
    alloc: Global,
    environment: &Environment,
    left: &ComparedText,
    operator: Operator,
    right: Var,
) -> Result<bool, EvalFault>
    ensures { Gives EvalFault.Memory (λ b. b) result
        (value.value_against None environment.now false left.now (Comparator.By operator)
        (Operand.Variable right)) }
{
    let text = compared_text_of(environment, right)?.text();
    let specifier = read_operand(alloc, operator, text)?;
    judge(left, operator, text, &specifier)
}

/// The left text against the right one, which reads as this specifier.
fn judge(
    left: &ComparedText,
    operator: Operator,
    right: &str,
    specifier: &Result<Box<Specifier>, SpecifierError>,
) -> Result<bool, EvalFault>
    requires { parsed_operand operator right.now ≡ unboxed specifier.now }
    ensures { result ≡ value.operator_value operator left.now right.now }
{
    match (left.version(), specifier) {
        (Ok(version), Ok(specifier)) => Ok(specifier.admits(version)),
        (Err(VersionError::Syntax), _) | (_, Err(SpecifierError::Syntax)) => {
            compare_texts(operator, left.text(), right)
        }
        _ => Err(EvalFault::NumberTooLarge),
    }
}

/// The texts by their code points.
fn compare_texts(operator: Operator, left: &str, right: &str) -> Result<bool, EvalFault>
    ensures { result ≡ value.texts_value operator left.now right.now }
{
    match operator {
        Operator::Equal => Ok(left == right),
        Operator::NotEqual => Ok(left != right),
        Operator::AtMost => Ok(left <= right),
        Operator::AtLeast => Ok(left >= right),
        Operator::Before => Ok(left < right),
        Operator::After => Ok(left > right),
        Operator::Compatible | Operator::Arbitrary => Err(EvalFault::Undefined),
    }
}

/// The two names by their normal forms.
fn compare_names(operator: Operator, left: &str, right: &str) -> Result<bool, EvalFault>
    ensures { result ≡ value.names_value operator left.now right.now }
{
    match operator {
        Operator::Equal => Ok(is_same_name(left, right)),
        Operator::NotEqual => Ok(!is_same_name(left, right)),
        _ => Err(EvalFault::Undefined),
    }
}
