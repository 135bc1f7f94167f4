//! The words of what becomes of an entry, and of what stands in its way.

ghost use Rattle.std.specs.Prelude.{◌≡◌, Some};
ghost use Rattle.pylock_core.specs.Words.{kind_word, policy_word, verdict_word, directory_word};
ghost use Rattle.pylock_core.specs.Words.{fault_word};

use crate::answer::{FaultCode, PickSource};
use crate::edit::Policy;
use crate::fate::Fate;
use pylock_readers::{Directory, Entry};

/// The word of a fault.
pub fn fault_word(code: FaultCode) -> &'static str
    ensures { result.now ≡ fault_word code }
{
    match code {
        FaultCode::PythonUnknown => "python-unknown",
        FaultCode::PythonNotMet => "python-not-met",
        FaultCode::MarkerUnset => "marker-unset",
        FaultCode::MarkerExtra => "marker-extra",
        FaultCode::MarkerUndefined => "marker-undefined",
        FaultCode::MarkerNumber => "marker-number",
        FaultCode::NoEnvironment => "no-environment",
        FaultCode::Ambiguous => "ambiguous",
        FaultCode::Sources => "sources",
        FaultCode::NoFile => "no-file",
    }
}

/// Whether a directory is installed in place.
pub fn directory_word(directory: &Directory) -> &'static str
    ensures { result.now ≡ directory_word directory.now }
{
    if directory.editable() {
        "editable"
    } else {
        "directory"
    }
}

/// The word of a policy.
pub fn policy_word(policy: Policy) -> &'static str
    ensures { result.now ≡ policy_word policy }
{
    match policy {
        Policy::Any => "any",
        Policy::Wheel => "wheel",
        Policy::Source => "source",
    }
}

/// The word of a fate.
pub fn verdict_word(entry: &Entry, fate: Fate) -> &'static str
    ensures { result.now ≡ verdict_word entry.now fate }
{
    match fate {
        Fate::Skipped => "skipped",
        Fate::Faulty(code) => fault_word(code),
        Fate::Ambiguous(_) => fault_word(FaultCode::Ambiguous),
        Fate::Sources => fault_word(FaultCode::Sources),
        Fate::NoFile(_) => fault_word(FaultCode::NoFile),
        Fate::Picked(source) => kind_word(entry, source),
    }
}

fn kind_word(entry: &Entry, source: PickSource) -> &'static str
    ensures { result.now ≡ kind_word entry.now source }
{
    match source {
        PickSource::Vcs => "vcs",
        PickSource::Directory => match entry.directory() {
            Some(directory) => directory_word(directory),
            None => "",
        },
        PickSource::Archive => "archive",
        PickSource::Wheel(_) => "wheel",
        PickSource::Sdist => "sdist",
    }
}
