//! A change, and what it says.

ghost use Rattle.std.specs.Prelude.{◌≡◌, ◌++◌, ◌∷◌, [], OnOk, option_map, string_bytes};
ghost use Rattle.std.specs.Option.{option_copied};
ghost use Rattle.pylock_diff.specs.Change.{change_of, change_word};

use pylock_shared::{LabelledText, SharedText, plain_text};
use std::alloc::AllocError;
use std::marker::Model;

/// The kind of a change, in the order in which those of one name are told.
#[derive(Clone, Copy, Debug, PartialEq, Eq)]
pub enum ChangeKind {
    /// A key of the head is another: its name stands in the place of a package's.
    Head,
    /// OLD has no entry of the name.
    Added,
    /// NEW has no entry of the name.
    Removed,
    /// The lists of versions differ.
    Version,
    /// A file that stands in both has other hashes.
    Hash,
    /// A source stands in one lock alone.
    File,
    /// A file that stands in both lies elsewhere.
    Place,
    /// The lists of markers, or of the sets of Pythons, differ.
    Condition,
    /// Another key differs, or one of which no line before it tells.
    Key,
    /// One of the two has a fault in place of a plan.
    Fault,
}

impl ChangeKind {
    /// The word of the kind, as it is printed.
    pub fn word(self) -> &'static str
        ensures { result.now ≡ change_word self }
    {
        match self {
            ChangeKind::Head => "head",
            ChangeKind::Added => "added",
            ChangeKind::Removed => "removed",
            ChangeKind::Version => "version",
            ChangeKind::Hash => "hash",
            ChangeKind::File => "file",
            ChangeKind::Place => "place",
            ChangeKind::Condition => "condition",
            ChangeKind::Key => "key",
            ChangeKind::Fault => "fault",
        }
    }
}

/// A change: its kind, and texts that may be absent, each as a person is shown it: `***` stands for
/// what in a text of a lock may open a URL. The changes of a name share it, and those of the hashes
/// of a file share what the file is called.
pub struct Change {
    pub(crate) kind: ChangeKind,
    pub(crate) name: Option<SharedText>,
    pub(crate) from: Option<LabelledText>,
    pub(crate) to: Option<LabelledText>,
}

impl Model for Change {
    ghost use Rattle.pylock_diff.specs.Change.{ChangeValue};

    ghost Value = { ChangeValue };

    ghost view = { λ c. record {
      kind = c.kind;
      name = c.name;
      from = c.from;
      to = c.to;
    } };
}

impl Drop for Change {
    fn drop(self) {
        let Change {
            kind: _,
            name: _,
            from: _,
            to: _,
        } = self;
    }
}

impl Change {
    /// The kind.
    pub fn kind(&self) -> ChangeKind
        ensures { result ≡ self.now.kind }
    {
        self.kind
    }

    /// The name of the package, or the key of the head; a fault has none.
    pub fn name(&self) -> Option<&str>
        ensures { option_copied result ≡ self.now.name }
    {
        Some(self.name.as_ref()?.as_str())
    }

    /// What OLD has.
    pub fn from(&self) -> Option<&LabelledText>
        ensures { option_copied result ≡ self.now.from }
    {
        self.from.as_ref()
    }

    /// What NEW has.
    pub fn to(&self) -> Option<&LabelledText>
        ensures { option_copied result ≡ self.now.to }
    {
        self.to.as_ref()
    }
}

/// Adds a change of what stands under a name, which is given as it is shown.
pub(crate) fn push_change(
    changes: &mut Vec<Change>,
    kind: ChangeKind,
    name: &SharedText,
    from: Option<String>,
    to: Option<String>,
) -> Result<(), AllocError>
    ensures { OnOk result (changes.new.items ≡ changes.old.items ++ change_of kind name.now
        (option_map string_bytes from) (option_map string_bytes to) ∷ []) }
{
    push_labelled(changes, kind, name, plain_text(from), plain_text(to))
}

/// The same of texts that may share their labels.
pub(crate) fn push_labelled(
    changes: &mut Vec<Change>,
    kind: ChangeKind,
    name: &SharedText,
    from: Option<LabelledText>,
    to: Option<LabelledText>,
) -> Result<(), AllocError>
    ensures { OnOk result (changes.new.items
        ≡ changes.old.items ++ change_of kind name.now from to ∷ []) }
{
    let name = Some(name.clone()?);
    changes.push(Change {
        kind,
        name,
        from,
        to,
    })?;
    Ok(())
}
