//! Equal versions hash alike.

ghost use Rattle.pyver_core.specs.Inner.HashLaws.{alike};
ghost use Rattle.pyver_core.specs.Version.Hashing.{version_input};

use super::order::without_trailing_zeros;
use crate::version::Version;
use std::hash::{Hash, Hasher};

/// Hashes the parts, the release without the zeros at its end. It takes no memory.
impl Hash for Version {
    ghost hash_input = { version_input };

    ghost respects_eq = { alike };

    fn hash<H: Hasher>(&self, state: &mut H) {
        self.epoch().hash(state);
        without_trailing_zeros(self.release()).hash(state);
        self.pre().hash(state);
        self.post().hash(state);
        self.dev().hash(state);
        self.local().hash(state);
    }
}
