//! What a slot keeps.

ghost use Rattle.std.specs.Prelude.{◌≡◌};

use crate::kept_run::KeptRun;
use crate::kept_session::KeptSession;
use pymark_core::{Environment, Marker};
use pyver_core::SpecifierSet;
use std::marker::Model;

/// An object that is kept for C.
#[derive(Drop)]
pub enum Object {
    /// A text.
    Text(Bytes),
    /// A specifier set.
    Set(SpecifierSet),
    /// A marker.
    Marker(Marker),
    /// What markers are judged in.
    Environment(Environment),
    /// A lock in an environment, edited and answered again.
    Session(KeptSession),
    /// A run of `select`, of which more input may come.
    Run(KeptRun),
}

/// The bytes of a text. Contracts see their list.
pub struct Bytes {
    bytes: Vec<u8>,
}

impl Model for Bytes {
    ghost use Rattle.std.specs.Prelude.{ℕ, List};

    ghost Value = { List ℕ };

    ghost view = { λ text. text.bytes.items };
}

impl Drop for Bytes {
    fn drop(self) {
        let Bytes { bytes: _ } = self;
    }
}

impl Bytes {
    /// These bytes. It takes no memory.
    pub fn new(bytes: Vec<u8>) -> Bytes
        ensures { result ≡ bytes.items }
    {
        Bytes { bytes }
    }

    /// The bytes.
    pub fn as_slice(&self) -> &[u8]
        ensures { result.now ≡ self.now }
    {
        self.bytes.as_slice()
    }
}
