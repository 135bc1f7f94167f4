//! The environment that markers are judged in (PEP 508, "Environment Markers"; PEP 751,
//! "Installation"). Texts and sets are shared with copies, so a copy is thirteen counts and reads
//! nothing again.

ghost use Rattle.std.specs.Prelude.{◌≡◌, not, option_map, replicate, IfOk, IsTrue, None, OnErr};
ghost use Rattle.std.specs.Prelude.{OnOk, Some, string_bytes};
ghost use Rattle.std.specs.FinSet as set;
ghost use Rattle.pyver_core.specs.Name.{normal_name};
ghost use Rattle.pyver_core.specs.Parsed.{parsed_version};
ghost use Rattle.pymark_core.specs.Change.{changed};
ghost use Rattle.pymark_core.specs.Environment.{AreNamesOf, empty_environment, has_extra};
ghost use Rattle.pymark_core.specs.Environment.{has_group, variable_in, with_extra, with_group};
ghost use Rattle.pymark_core.specs.Environment.{with_variable, without_extra, without_group};
ghost use Rattle.pymark_core.specs.Environment.{without_variable};

use crate::change::Change;
use crate::compared_text::{ComparedText, SharedText};
use crate::names::{Names, SharedNames};
use crate::variable::Var;
use pyver_core::{NormalName, Version, VersionError};
use std::alloc::{AllocError, Global};
use std::marker::Model;

/// The environment that markers are judged in (PEP 508, "Environment Markers"): a text for each
/// variable that has one, and the sets of the extras and of the dependency groups that are asked
/// for, in normal form (PEP 503).
///
/// Contracts see the texts and the sets.
pub struct Environment {
    alloc: Global,
    variables: [Option<SharedText>; 11],
    extras: SharedNames,
    groups: SharedNames,
}

impl Model for Environment {
    ghost use Rattle.pymark_core.specs.Environment.{EnvironmentValue, environment_code};

    ghost Value = { EnvironmentValue };

    ghost coded = { environment_code };

    ghost view = { λ e. record { variables = e.variables; extras = e.extras; groups = e.groups } };
}

impl Drop for Environment {
    fn drop(self) {
        let Environment {
            alloc: _,
            variables: _,
            extras: _,
            groups: _,
        } = self;
    }
}

impl Environment {
    /// Nothing set and nothing asked for. It takes no memory.
    pub fn new(alloc: Global) -> Environment
        ensures { result ≡ empty_environment }
    {
        Environment {
            alloc,
            variables: no_variables(),
            extras: SharedNames::new(),
            groups: SharedNames::new(),
        }
    }

    /// The text of the variable. It takes no memory.
    pub fn get(&self, variable: Var) -> Option<&str>
        ensures { option_map (λ text. text.now) result ≡ variable_in variable self.now }
    {
        Some(self.compared_text(variable)?.text())
    }

    /// The text of the variable, with what it reads as.
    pub(crate) fn compared_text(&self, variable: Var) -> Option<&ComparedText>
        ensures { option_map (λ compared. compared.now) result ≡ variable_in variable self.now }
    {
        let shared = self.variables[variable.number()].as_ref()?;
        Some(shared.compared_text())
    }

    /// The version that the text of the variable spells, or why it spells none; nothing where the
    /// variable has no text. It was read when the variable was set, so it takes no memory, and the
    /// reason is never [`VersionError::Memory`].
    pub fn version(&self, variable: Var) -> Option<&Result<Version, VersionError>>
        ensures { option_map (λ read. read.now) result
            ≡ option_map parsed_version (variable_in variable self.now) }
    {
        Some(self.compared_text(variable)?.version())
    }

    /// Gives the variable the text, which is read as a version here and never again. It keeps a
    /// copy of the text and the version that it spells, where it spells one, and nothing else;
    /// copies of the environment share them. Where there is no memory for it, the variable keeps
    /// what it had.
    pub fn set(&mut self, variable: Var, text: &str) -> Result<(), AllocError>
        ensures ok { OnOk result (self.new ≡ with_variable variable text.now self.old) }
        ensures given { OnOk result (variable_in variable self.new ≡ Some text.now) }
        ensures err { OnErr result (self.new ≡ self.old) }
    {
        self.set_text(variable, String::from_str(self.alloc, text)?)
    }

    /// The same of a text that it takes over.
    fn set_text(&mut self, variable: Var, text: String) -> Result<(), AllocError>
        ensures ok { OnOk result (self.new ≡ with_variable variable (string_bytes text) self.old) }
        ensures given { OnOk result (variable_in variable self.new ≡ Some (string_bytes text)) }
        ensures err { OnErr result (self.new ≡ self.old) }
    {
        let shared = SharedText::new(self.alloc, text)?;
        self.variables[variable.number()] = Some(shared);
        Ok(())
    }

    /// Leaves the variable without a text. It takes no memory.
    pub fn unset(&mut self, variable: Var)
        ensures others { self.new ≡ without_variable variable self.old }
        ensures unset { variable_in variable self.new ≡ None }
    {
        self.variables[variable.number()] = None;
    }

    /// Asks for no extra and no group. It takes no memory.
    pub fn ask_nothing(&mut self)
        ensures { self.new ≡ record self.old { extras = set.empty; groups = set.empty } }
    {
        self.extras = SharedNames::new();
        self.groups = SharedNames::new();
    }

    /// Asks for the extra of this name, and answers whether it wasn't asked for. Where there is no
    /// memory for it, the extras stay.
    pub fn add_extra(&mut self, name: &str) -> Result<bool, AllocError>
        ensures ok { OnOk result (self.new ≡ with_extra name.now self.old) }
        ensures added { IfOk result
            (λ added. added ≡ not (set.contains self.old.extras (normal_name name.now))) }
        ensures err { OnErr result (self.new ≡ self.old) }
    {
        self.extras
            .insert(self.alloc, NormalName::new(self.alloc, name)?)
    }

    /// Asks for the extra of this name no more, and answers whether it was asked for. It takes the
    /// memory of the normal name; where there is none, the extras stay.
    pub fn drop_extra(&mut self, name: &str) -> Result<bool, AllocError>
        ensures ok { OnOk result (self.new ≡ without_extra name.now self.old) }
        ensures dropped { IfOk result
            (λ dropped. dropped ≡ set.contains self.old.extras (normal_name name.now)) }
        ensures err { OnErr result (self.new ≡ self.old) }
    {
        self.extras.remove(&NormalName::new(self.alloc, name)?)
    }

    /// Asks for the group of this name, and answers whether it wasn't asked for. Where there is no
    /// memory for it, the groups stay.
    pub fn add_group(&mut self, name: &str) -> Result<bool, AllocError>
        ensures ok { OnOk result (self.new ≡ with_group name.now self.old) }
        ensures added { IfOk result
            (λ added. added ≡ not (set.contains self.old.groups (normal_name name.now))) }
        ensures err { OnErr result (self.new ≡ self.old) }
    {
        self.groups
            .insert(self.alloc, NormalName::new(self.alloc, name)?)
    }

    /// Asks for the group of this name no more, and answers whether it was asked for. It takes the
    /// memory of the normal name; where there is none, the groups stay.
    pub fn drop_group(&mut self, name: &str) -> Result<bool, AllocError>
        ensures ok { OnOk result (self.new ≡ without_group name.now self.old) }
        ensures dropped { IfOk result
            (λ dropped. dropped ≡ set.contains self.old.groups (normal_name name.now)) }
        ensures err { OnErr result (self.new ≡ self.old) }
    {
        self.groups.remove(&NormalName::new(self.alloc, name)?)
    }

    /// Makes the change. It takes the memory of a set that is shared, of a name that comes in, and
    /// of what a variable's text reads as; where there is none, all stays.
    pub fn apply(&mut self, change: Change) -> Result<(), AllocError>
        ensures ok { OnOk result (self.new ≡ changed change self.old) }
        ensures err { OnErr result (self.new ≡ self.old) }
    {
        match change {
            Change::Set(variable, text) => self.set_text(variable, text.into_string())?,
            Change::Unset(variable) => self.unset(variable),
            Change::AddExtra(name) => {
                self.extras.insert(self.alloc, name)?;
            }
            Change::DropExtra(name) => {
                self.extras.remove(&name)?;
            }
            Change::AddGroup(name) => {
                self.groups.insert(self.alloc, name)?;
            }
            Change::DropGroup(name) => {
                self.groups.remove(&name)?;
            }
        }
        Ok(())
    }

    /// Whether this very text is among the extras, which are in normal form. It takes no memory.
    pub fn has_extra(&self, name: &str) -> bool
        ensures has { result ≡ has_extra name.now self.now }
        ensures normal { IsTrue result → normal_name name.now ≡ name.now }
    {
        self.extras.has(name)
    }

    /// Whether this very text is among the groups, which are in normal form. It takes no memory.
    pub fn has_group(&self, name: &str) -> bool
        ensures has { result ≡ has_group name.now self.now }
        ensures normal { IsTrue result → normal_name name.now ≡ name.now }
    {
        self.groups.has(name)
    }

    /// The set of the extras that are asked for.
    pub(crate) fn extra_names(&self) -> &SharedNames
        ensures { result.now ≡ self.now.extras }
    {
        &self.extras
    }

    /// The set of the groups that are asked for.
    pub(crate) fn group_names(&self) -> &SharedNames
        ensures { result.now ≡ self.now.groups }
    {
        &self.groups
    }

    /// The extras that are asked for, in normal form and in the order of their bytes. It takes no
    /// memory.
    pub fn extras(&self) -> Names<'_>
        ensures { AreNamesOf self.now.extras result }
    {
        self.extras.iter()
    }

    /// The groups that are asked for, in normal form and in the order of their bytes. It takes no
    /// memory.
    pub fn groups(&self) -> Names<'_>
        ensures { AreNamesOf self.now.groups result }
    {
        self.groups.iter()
    }

    /// An environment with the same variables and sets. The two share the texts of the variables
    /// with what they read as, and the sets, and a change of one moves no other. It takes no
    /// memory; it is refused only where 2^63 copies stand.
    pub fn copy(&self) -> Result<Environment, AllocError>
        ensures { IfOk result (λ copy. copy ≡ self.now) }
    {
        Ok(Environment {
            alloc: self.alloc,
            variables: copy_variables(&self.variables)?,
            extras: self.extras.clone()?,
            groups: self.groups.clone()?,
        })
    }
}

/// A copy, as [`Environment::copy`] makes it.
impl Clone for Environment {
    ghost is_clone = { λ environment copy. copy ≡ environment };

    fn clone(&self) -> Result<Environment, AllocError> {
        self.copy()
    }
}

/// No variable has a text.
fn no_variables() -> [Option<SharedText>; 11]
    ensures { result ≡ replicate 11 None }
{
    [
        None, None, None, None, None, None, None, None, None, None, None,
    ]
}

/// The same texts for the same variables.
fn copy_variables(
    variables: &[Option<SharedText>; 11],
) -> Result<[Option<SharedText>; 11], AllocError>
    ensures { IfOk result (λ copy. copy ≡ variables.now) }
{
    let mut copy = no_variables();
    for (number, variable) in variables.iter().enumerate() {
        copy[number] = variable.clone()?;
    }
    Ok(copy)
}
