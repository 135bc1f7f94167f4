//! Changes of an environment.

ghost use Rattle.std.specs.Prelude.{◌≡◌};
ghost use Rattle.pymark_core.specs.Change.{changed_key};

use crate::marker::Key;
use crate::variable::Var;
use pytext::Text;
use pyver_core::NormalName;

/// A change of an environment, at one key.
#[derive(Drop)]
pub enum Change {
    /// Gives the variable the text.
    Set(Var, Text),
    /// Leaves the variable without a text.
    Unset(Var),
    /// Asks for the extra.
    AddExtra(NormalName),
    /// Asks for the extra no more.
    DropExtra(NormalName),
    /// Asks for the dependency group.
    AddGroup(NormalName),
    /// Asks for the dependency group no more.
    DropGroup(NormalName),
}

impl Change {
    /// The key at which the environment changes, if it does: no other has another value then.
    pub fn key(&self) -> Key
        ensures { result ≡ changed_key self.now }
    {
        match self {
            Change::Set(variable, _) | Change::Unset(variable) => Key::Of(*variable),
            Change::AddExtra(_) | Change::DropExtra(_) => Key::Extras,
            Change::AddGroup(_) | Change::DropGroup(_) => Key::Groups,
        }
    }
}
