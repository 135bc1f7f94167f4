//! What differs between a project and a lock.

ghost use Rattle.std.specs.Prelude.{◌≡◌, IfOk};
ghost use Rattle.std.specs.Option.{option_copied};
ghost use Rattle.pylock_check.specs.Written.{kind_word};

use pytext::Text;
use std::alloc::{AllocError, Global};

/// The kind of a difference.
#[derive(Clone, Copy, Debug, PartialEq, Eq)]
pub enum DifferenceKind {
    /// The plan has no entry of the name that is asked for.
    Missing,
    /// The plan has another version than one that is asked for.
    Version,
    /// The lock isn't for each version of Python that the project is for.
    Python,
    /// The extra is one of the project or of the lock alone.
    Extra,
    /// The dependency group is one of the project or of the lock alone.
    Group,
    /// It can't be told.
    Unknown,
}

impl DifferenceKind {
    /// Its word: `missing`, `version`, `python`, `extra`, `group` or `unknown`. It takes no memory.
    pub fn word(self) -> &'static str
        ensures { result.now ≡ kind_word self }
    {
        match self {
            DifferenceKind::Missing => "missing",
            DifferenceKind::Version => "version",
            DifferenceKind::Python => "python",
            DifferenceKind::Extra => "extra",
            DifferenceKind::Group => "group",
            DifferenceKind::Unknown => "unknown",
        }
    }
}

/// A difference between a project and a lock. Its texts are names, places, versions and words.
#[derive(Drop)]
pub struct Difference {
    /// What differs.
    pub kind: DifferenceKind,
    /// Where in the project file it is asked for: a key, and of an element of a list its number
    /// from 1.
    pub place: Text,
    /// The name that is asked for, or that of the extra or the group, in normal form (PEP 503).
    pub name: Option<Text>,
    /// Of `Version` the version of the plan's entry; of `Python` a version that the project alone
    /// is for; of `Extra` and `Group` which one has it, `project` or `lock`; of `Unknown` what
    /// can't be told: `marker`, `url`, `version`, `undecided`, or the key that is dynamic.
    pub detail: Option<Text>,
}

impl Difference {
    /// The difference of these texts, which are copied.
    pub(crate) fn new(
        alloc: Global,
        kind: DifferenceKind,
        place: &str,
        name: Option<&str>,
        detail: Option<&str>,
    ) -> Result<Difference, AllocError>
        ensures { IfOk result (λ found. found ≡ record {
          kind = kind;
          place = place.now;
          name = option_copied name.entry;
          detail = option_copied detail.entry;
        }) }
    {
        Ok(Difference {
            kind,
            place: Text::copy_of(alloc, place)?,
            name: copy_of(alloc, name)?,
            detail: copy_of(alloc, detail)?,
        })
    }
}

/// A copy of a text, where there is one.
fn copy_of(alloc: Global, text: Option<&str>) -> Result<Option<Text>, AllocError>
    ensures { IfOk result (λ copy. copy ≡ option_copied text.entry) }
{
    match text {
        Some(text) => Ok(Some(Text::copy_of(alloc, text)?)),
        None => Ok(None),
    }
}

/// A text that may be there, lent.
pub(crate) fn lent(text: &Option<Text>) -> Option<&str>
    ensures { option_copied result ≡ text.now }
{
    Some(text.as_ref()?.as_str())
}
