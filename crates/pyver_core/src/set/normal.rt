//! The normal form of a specifier set, written from its specifiers.

ghost use Rattle.std.specs.Prelude.{◌≡◌, ◌++◌, IfOk, OnOk, Some, string_bytes};
ghost use Rattle.std.specs.Fmt.{WritesOnOk, padded};
ghost use Rattle.std.specs.List.{flat_map};
ghost use Rattle.pyver_core.specs.Version.Normal.{decimal_text, dotted_number, epoch_text};
ghost use Rattle.pyver_core.specs.Version.Normal.{release_text};
ghost use Rattle.pyver_core.specs.Set.Normal.{operand_text, operator_text, prefix_text, set_text};
ghost use Rattle.pyver_core.specs.Set.Normal.{specifier_text};

use crate::set::{Operand, Operator, ReleasePrefix, Specifier, SpecifierSet};
use crate::version::{push_epoch, push_release};
use std::alloc::{AllocError, Global};
use std::fmt;

/// The room that a normal form begins with, which nearly each keeps to.
const USUAL_LENGTH: usize = 24;

/// The normal form of a set of these specifiers.
pub(crate) fn set_text(alloc: Global, specifiers: &[Specifier]) -> Result<String, AllocError>
    ensures { IfOk result (λ text. string_bytes text ≡ set_text specifiers.now) }
{
    let Some((first, rest)) = specifiers.split_first() else {
        return Ok(String::new(alloc));
    };
    let mut text = String::with_capacity(alloc, USUAL_LENGTH)?;
    push_specifier(&mut text, first)?;
    for specifier in rest {
        text.push(',')?;
        push_specifier(&mut text, specifier)?;
    }
    Ok(text)
}

fn push_specifier(text: &mut String, specifier: &Specifier) -> Result<(), AllocError>
    ensures { OnOk result (string_bytes text.new
        ≡ string_bytes text.old ++ specifier_text specifier.now) }
{
    text.push_str(specifier.operator().as_str())?;
    push_operand(text, specifier)
}

fn push_operand(text: &mut String, specifier: &Specifier) -> Result<(), AllocError>
    ensures { OnOk result (string_bytes text.new
        ≡ string_bytes text.old ++ operand_text specifier.now) }
{
    match specifier.operand() {
        Operand::Text(operand) => text.push_str(operand),
        Operand::Prefix(prefix) => push_prefix(text, prefix),
    }
}

fn push_prefix(text: &mut String, prefix: &ReleasePrefix) -> Result<(), AllocError>
    ensures { OnOk result (string_bytes text.new
        ≡ string_bytes text.old ++ prefix_text prefix.now) }
{
    push_epoch(text, prefix.epoch())?;
    push_release(text, prefix.release())?;
    text.push_str(".*")
}

/// The operator as it is written.
impl fmt::Display for Operator {
    ghost output = { λ operator. Some (operator_text operator) };

    ghost styled_output = { λ operator spec. Some (padded spec (operator_text operator)) };

    fn fmt<W: fmt::Write>(&self, f: &mut fmt::Formatter<W>) -> fmt::Result {
        f.pad(self.as_str())
    }
}

/// The normal form in quotes.
impl fmt::Debug for SpecifierSet {
    fn fmt<W: fmt::Write>(&self, f: &mut fmt::Formatter<W>) -> fmt::Result {
        fmt::Debug::fmt(self.text(), f)
    }
}

/// The normal form: the specifiers in order, joined by commas.
impl fmt::Display for SpecifierSet {
    ghost output = { λ set. Some (set_text set) };

    ghost styled_output = { λ set spec. Some (padded spec (set_text set)) };

    fn fmt<W: fmt::Write>(&self, f: &mut fmt::Formatter<W>) -> fmt::Result {
        f.pad(self.text())
    }
}

/// Writes a number in base ten.
#[tactic(auto, using(crate::proofs::Lemmas::Version::Normal::Decimal::decimal_is_text))]
fn write_number<W: fmt::Write>(f: &mut fmt::Formatter<W>, number: u128) -> fmt::Result
    ensures { WritesOnOk W.write_str_gives f.old result (decimal_text number) f.new }
{
    write!(f, "{number}")
}

/// Writes the epoch where it isn't 0.
fn write_epoch<W: fmt::Write>(f: &mut fmt::Formatter<W>, epoch: u128) -> fmt::Result
    ensures { WritesOnOk W.write_str_gives f.old result (epoch_text epoch) f.new }
{
    if epoch == 0 {
        return Ok(());
    }
    write_number(f, epoch)?;
    f.write_str("!")
}

/// Writes numbers with a dot before each.
fn write_dotted_numbers<W: fmt::Write>(f: &mut fmt::Formatter<W>, numbers: &[u128]) -> fmt::Result
    ensures { WritesOnOk W.write_str_gives f.old result
        (flat_map dotted_number numbers.now) f.new }
{
    for number in numbers {
        f.write_str(".")?;
        write_number(f, *number)?;
    }
    Ok(())
}

/// Writes the numbers of a release.
fn write_release<W: fmt::Write>(f: &mut fmt::Formatter<W>, release: &[u128]) -> fmt::Result
    ensures { WritesOnOk W.write_str_gives f.old result (release_text release.now) f.new }
{
    let Some((first, rest)) = release.split_first() else {
        return Ok(());
    };
    write_number(f, *first)?;
    write_dotted_numbers(f, rest)
}

/// `R.*` in the normal form of its numbers.
impl fmt::Display for ReleasePrefix {
    ghost output = { λ prefix. Some (prefix_text prefix) };

    fn fmt<W: fmt::Write>(&self, f: &mut fmt::Formatter<W>) -> fmt::Result {
        write_epoch(f, self.epoch())?;
        write_release(f, self.release())?;
        f.write_str(".*")
    }
}

/// As it is displayed.
impl fmt::Debug for ReleasePrefix {
    fn fmt<W: fmt::Write>(&self, f: &mut fmt::Formatter<W>) -> fmt::Result {
        fmt::Display::fmt(self, f)
    }
}

/// As it is displayed.
impl fmt::Debug for Specifier {
    fn fmt<W: fmt::Write>(&self, f: &mut fmt::Formatter<W>) -> fmt::Result {
        fmt::Display::fmt(self, f)
    }
}

/// The operator, and the normal form of the operand.
impl fmt::Display for Specifier {
    ghost output = { λ specifier. Some (specifier_text specifier) };

    fn fmt<W: fmt::Write>(&self, f: &mut fmt::Formatter<W>) -> fmt::Result {
        f.write_str(self.operator().as_str())?;
        match self.operand() {
            Operand::Text(operand) => f.write_str(operand),
            Operand::Prefix(prefix) => write!(f, "{prefix}"),
        }
    }
}
