//! What of an environment a marker reads.

ghost use Rattle.std.specs.Prelude.{◌≡◌, ◌<◌, ◌||◌, List, Bool, false};
ghost use Rattle.pymark_core.specs.Marker.Keys.{has_key, is_flagged, is_key, key_number};
ghost use Rattle.pymark_core.specs.Marker.Keys.{operand_keys};
ghost use Rattle.pymark_core.specs.declared.marker.keys.Key.{Key};

use crate::operand::Operand;
use crate::variable::Var;
use std::marker::Model;

/// What of an environment a marker may read (PEP 508, "Environment Markers").
#[derive(Clone, Copy, PartialEq, Eq, Hash, Debug)]
pub enum Key {
    /// A variable.
    Of(Var),
    /// The set of extras.
    Extras,
    /// The set of groups.
    Groups,
}

/// How many keys there are.
const KEYS: usize = 13;

impl Key {
    /// The number of the key: a variable's is its own, from 0, and the two sets come after. It
    /// takes no memory.
    pub fn number(self) -> usize
        ensures value { result ≡ key_number self }
        ensures bound { result < 13 }
    {
        match self {
            Key::Of(variable) => variable.number(),
            Key::Extras => 11,
            Key::Groups => 12,
        }
    }
}

/// The keys that a marker reads (PEP 508, "Environment Markers").
#[derive(Clone, Copy, PartialEq, Eq, Debug)]
pub struct Reads {
    flags: [bool; KEYS],
}

impl Model for Reads {
    ghost Value = { List Bool };

    ghost view = { λ reads. reads.flags };

    ghost inverse = { λ flags. record { flags = flags } };
}

impl Reads {
    /// No key.
    pub(super) fn none() -> Reads
        ensures { (key : Key) → is_flagged result key ≡ false }
    {
        Reads {
            flags: [false; KEYS],
        }
    }

    /// Whether the key is among them. It takes no memory.
    pub fn has(&self, key: Key) -> bool
        ensures { result ≡ is_flagged self.now key }
    {
        self.flags[key.number()]
    }

    /// Adds the key that the operand is, if it is one.
    pub(super) fn insert_operand(&mut self, operand: &Operand)
        ensures { (key : Key) → is_flagged self.new key
            ≡ (is_flagged self.old key || has_key key (operand_keys operand.now)) }
    {
        match operand {
            Operand::Variable(variable) => self.insert(Key::Of(*variable)),
            Operand::Extras => self.insert(Key::Extras),
            Operand::Groups => self.insert(Key::Groups),
            Operand::Text(_) | Operand::Extra => {}
        }
    }

    /// Adds a key.
    fn insert(&mut self, added: Key)
        ensures { (key : Key) → is_flagged self.new key
            ≡ (is_flagged self.old key || is_key key added) }
    {
        self.flags[added.number()] = true;
    }
}
