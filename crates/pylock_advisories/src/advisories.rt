//! The advisories that were read, and those that affect a package.
ghost use Rattle.std.specs.Prelude.{◌≡◌, ◌++◌, [], IfOk, OnErr, map};
ghost use Rattle.pytext.specs.Agreement.{Gives};
ghost use Rattle.pylock_advisories.specs.declared.error.AdvisoriesError.TheVariants as file;
ghost use Rattle.pylock_advisories.specs.File.{advisories_of, read_more};

use crate::advisory::Advisory;
use crate::error::AdvisoriesError;
use crate::index::AdvisoryIndex;
use crate::reading::read_file;
use std::alloc::{AllocError, Global};
use std::marker::Model;

/// The advisories that were read, in order. Contracts see their list.
pub struct Advisories {
    advisories: Vec<Advisory>,
}

impl Model for Advisories {
    ghost use Rattle.std.specs.Prelude.{List};
    ghost use Rattle.pylock_advisories.specs.Advisory.{AdvisoryValue};

    ghost Value = { List AdvisoryValue };

    ghost view = { λ a. a.advisories.items };
}

impl Drop for Advisories {
    fn drop(self) {
        let Advisories { advisories: _ } = self;
    }
}

impl Advisories {
    /// No advisory yet. It takes no memory.
    pub fn new(alloc: Global) -> Advisories
        ensures { result ≡ [] }
    {
        Advisories {
            advisories: Vec::new(alloc),
        }
    }

    /// Reads the advisories of a file: one JSON object, an array of objects, or an object on each
    /// line, of which blank ones are skipped. A file whose first line is not JSON is so refused at
    /// its first advisory.
    ///
    /// They are added behind those that were read before; a refusal leaves all as it was. Takes
    /// memory for the file's JSON values, which it frees, and for the advisories.
    pub fn read(&mut self, alloc: Global, bytes: &[u8]) -> Result<(), AdvisoriesError>
        ensures read { Gives file.Memory (λ _. self.new) result
            (read_more self.old (advisories_of bytes.now)) }
        ensures kept { OnErr result (self.new ≡ self.old) }
    {
        let mut read = read_file(alloc, bytes)?;
        self.advisories.append(&mut read)?;
        Ok(())
    }

    /// The advisories, in the order in which they were read. It takes no memory.
    pub fn as_slice(&self) -> &[Advisory]
        ensures { result.now ≡ self.now }
    {
        &self.advisories
    }

    /// The advisories by the names of the packages that they affect. Takes memory linear in the
    /// elements of `affected`.
    pub fn index(&self, alloc: Global) -> Result<AdvisoryIndex<'_>, AllocError>
        ensures { IfOk result (λ index. index ≡ self.now) }
    {
        AdvisoryIndex::new(alloc, &self.advisories)
    }
}
