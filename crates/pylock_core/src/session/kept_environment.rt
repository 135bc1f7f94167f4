//! The environment of a session, and how edits change it: on one beside it, whose sets of names are
//! its own, so that a name comes in or goes out and the others aren't copied.

ghost use Rattle.std.specs.Prelude.{◌≡◌, ◌++◌, ◌∷◌, [], IfOk, IfSome, OnOk, Some, option_map};
ghost use Rattle.pymark_core.specs.Change.{changed};
ghost use Rattle.pymark_core.specs.Environment.{EnvironmentValue};
ghost use Rattle.pylock_core.specs.Inner.KeptEnvironment.{LeadsFrom, changed_by};

use pymark_core::{Change, Environment, Key};
use pytext::Text;
use std::alloc::{AllocError, Global};
use std::marker::Model;
use std::mem;

/// The environment that a session judges in, and after an edit of names a twin of it.
///
/// An edit that is refused leaves all as it was, so it is made on the twin first. Where it stands,
/// the two change places and the other is changed as well. Where there is no twin, an edit is made
/// on a copy, which shares all that doesn't change, and a set of names that changes is copied once.
///
/// Contracts see the environment.
pub(crate) struct KeptEnvironment {
    current: Environment,
    twin: Option<Environment>,
}

impl Model for KeptEnvironment {
    ghost use Rattle.std.specs.Prelude.{◌≡◌, IfSome};
    ghost use Rattle.pymark_core.specs.Environment.{EnvironmentValue, environment_code};

    ghost Value = { EnvironmentValue };

    ghost coded = { environment_code };

    ghost view = { λ k. k.current };

    ghost invariant = { λ k. IfSome k.twin (λ twin. twin ≡ k.current) };
}

impl Drop for KeptEnvironment {
    fn drop(self) {
        let KeptEnvironment {
            current: _,
            twin: _,
        } = self;
    }
}

impl KeptEnvironment {
    /// This environment, without a twin. It takes no memory.
    pub(crate) fn new(environment: Environment) -> KeptEnvironment
        ensures { result ≡ environment }
    {
        KeptEnvironment {
            current: environment,
            twin: None,
        }
    }

    /// The environment.
    pub(crate) fn current(&self) -> &Environment
        ensures { result.now ≡ self.now }
    {
        &self.current
    }

    /// Begins an edit at the key, on the twin or a copy. What isn't put back is let go.
    pub(crate) fn begin(&mut self, alloc: Global, key: Key) -> Result<EditedEnvironment, AllocError>
        ensures same { IfOk result (λ edited. edited.environment ≡ self.old) }
        ensures leads { IfOk result (λ edited. LeadsFrom self.old edited) }
        ensures kept { self.new ≡ self.old }
    {
        let (environment, changes) = match self.twin.take() {
            Some(twin) => (twin, Some(Vec::new(alloc))),
            None => (self.current.copy()?, changes_at(alloc, key)),
        };
        Ok(EditedEnvironment {
            environment,
            changes,
        })
    }

    /// Puts the edited environment in place of this one, which becomes the twin by the same
    /// changes, where they were kept and there is memory for them.
    pub(crate) fn put(&mut self, edited: EditedEnvironment)
        requires { LeadsFrom self.old edited }
        ensures { self.new ≡ edited.environment }
    {
        let EditedEnvironment {
            environment,
            changes,
        } = edited;
        let before = mem::replace(&mut self.current, environment);
        self.twin = twin_by(before, changes);
    }
}

/// An environment that is being edited, and the changes made so far, where they are kept to make
/// a twin.
#[derive(Drop)]
pub(crate) struct EditedEnvironment {
    pub(crate) environment: Environment,
    pub(crate) changes: Option<Vec<Change>>,
}

impl EditedEnvironment {
    /// Makes a change. Where there is no memory for it, the edit is to be let go.
    pub(crate) fn apply(&mut self, alloc: Global, change: Change) -> Result<(), AllocError>
        ensures ok { OnOk result
            (self.new.environment ≡ changed change self.old.environment) }
        ensures leads { OnOk result ((before : EnvironmentValue) → LeadsFrom before self.old
            → LeadsFrom before self.new) }
    {
        keep_change(alloc, &mut self.changes, &change)?;
        self.environment.apply(change)?;
        Ok(())
    }
}

/// The list of the changes of an edit at the key: an edit of names makes a twin, and one of a
/// variable copies no set.
fn changes_at(alloc: Global, key: Key) -> Option<Vec<Change>>
    ensures { IfSome result (λ changes. changes.items ≡ []) }
{
    match key {
        Key::Of(_) => None,
        Key::Extras | Key::Groups => Some(Vec::new(alloc)),
    }
}

/// Keeps a copy of the change behind the others, where they are kept.
fn keep_change(
    alloc: Global,
    changes: &mut Option<Vec<Change>>,
    change: &Change,
) -> Result<(), AllocError>
    ensures { OnOk result (option_map (λ kept. kept.items) changes.new
        ≡ option_map (λ kept. kept.items ++ change.now ∷ []) changes.old) }
{
    if let Some(kept) = changes {
        kept.push(copy_of(alloc, change)?)?;
    }
    Ok(())
}

/// The same change.
fn copy_of(alloc: Global, change: &Change) -> Result<Change, AllocError>
    ensures { IfOk result (λ copy. copy ≡ change.now) }
{
    Ok(match change {
        Change::Set(variable, text) => Change::Set(*variable, Text::copy_of(alloc, text.as_str())?),
        Change::Unset(variable) => Change::Unset(*variable),
        Change::AddExtra(name) => Change::AddExtra(name.clone()?),
        Change::DropExtra(name) => Change::DropExtra(name.clone()?),
        Change::AddGroup(name) => Change::AddGroup(name.clone()?),
        Change::DropGroup(name) => Change::DropGroup(name.clone()?),
    })
}

/// The environment after the changes, where they were kept and there is memory for them.
fn twin_by(environment: Environment, changes: Option<Vec<Change>>) -> Option<Environment>
    ensures { IfSome result (λ twin. Some twin
        ≡ option_map (λ changes. changed_by changes.items environment) changes) }
{
    after_changes(environment, changes?).ok()
}

/// The environment after these changes.
fn after_changes(
    mut environment: Environment,
    changes: Vec<Change>,
) -> Result<Environment, AllocError>
    ensures { IfOk result (λ after. after ≡ changed_by changes.items environment) }
{
    for change in changes {
        environment.apply(change)?;
    }
    Ok(environment)
}
