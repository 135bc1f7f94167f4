//! Why a call is refused, and the code that C sees of it.

ghost use Rattle.std.specs.Prelude.{◌≡◌};
ghost use Rattle.pylock_slots.specs.Refusal.{evaluation_refusal, marker_refusal};
ghost use Rattle.pylock_slots.specs.Refusal.{requirement_refusal, sdist_refusal, set_refusal};
ghost use Rattle.pylock_slots.specs.Refusal.{target_refusal};
ghost use Rattle.pylock_slots.specs.Refusal.{edit_number, line_refusal, number, version_refusal};
ghost use Rattle.pylock_slots.specs.Refusal.{wheel_refusal};
ghost use Rattle.pylock_slots.specs.declared.refusal.Refusal.TheVariants.{Memory};

use pylock_run::LineRefusal;
use pymark_core::{EvalFault, MarkerError, RequirementError};
use pyver_core::{SpecifierError, VersionError};
use pywheel_core::{SdistError, TargetError, WheelError};
use std::alloc::{AllocError, AllocFailed};

/// Why a call is refused: a code of `pylock.h` each.
#[derive(Clone, Copy, Drop)]
pub enum Refusal {
    /// A memory request was refused.
    Memory,
    /// A text is not UTF-8.
    NotUtf8,
    /// A slot has no object of the kind.
    Empty,
    /// The lengths of joined texts don't add up to their bytes.
    Parts,
    /// The input of a run passes a limit.
    Input,
    /// The text is no version.
    VersionSyntax,
    /// The version has a number past the limit.
    VersionNumber,
    /// The text is no specifier set.
    SetSyntax,
    /// The specifier set has a number past the limit.
    SetNumber,
    /// Too many parentheses are open in the marker.
    MarkerTooDeep,
    /// The text is no marker.
    MarkerSyntax,
    /// A set stands in the marker where none may.
    MarkerSetMisuse,
    /// The marker reads a variable that isn't set.
    ValueUnset,
    /// The marker reads `extra`.
    ValueExtra,
    /// The marker compares by an operator that has no meaning for its operands.
    ValueUndefined,
    /// The marker compares a version with a number past the limit.
    ValueNumber,
    /// The requirement doesn't begin with a name.
    RequirementName,
    /// The extras of the requirement are wrong.
    RequirementExtras,
    /// The specifier set of the requirement is wrong.
    RequirementSpecifier,
    /// The requirement has an empty URL.
    RequirementUrl,
    /// The marker of the requirement is wrong.
    RequirementMarker,
    /// Something stands behind the URL of the requirement.
    RequirementTrailing,
    /// The name doesn't end in `.whl`.
    WheelExtension,
    /// The name isn't of five or six parts.
    WheelParts,
    /// The wheel's name is wrong.
    WheelName,
    /// The wheel's version is wrong.
    WheelVersion,
    /// The wheel's build tag is wrong.
    WheelBuild,
    /// The wheel's tags are wrong.
    WheelTags,
    /// The name doesn't end in `.tar.gz` or `.zip`.
    SdistExtension,
    /// The name has no `-` before its extension.
    SdistParts,
    /// The sdist's name is wrong.
    SdistName,
    /// The sdist's version is wrong.
    SdistVersion,
    /// The lock is refused.
    Lock,
    /// The environment is refused.
    Environment,
    /// The lock is valid, and a strict reading refuses what is found in it.
    Findings,
    /// The Python of a target is none.
    TargetPython,
    /// The platform of a target is none.
    TargetPlatform,
    /// The text hasn't the three parts of tags.
    TagParts,
    /// An edit is refused.
    Edit(LineRefusal),
}

impl Refusal {
    /// The code of `pylock.h`.
    pub fn number(self) -> i32
        ensures { result ≡ number self }
    {
        match self {
            Refusal::Memory => 1,
            Refusal::NotUtf8 => 2,
            Refusal::Empty => 3,
            Refusal::Parts => 5,
            Refusal::Input => 6,
            Refusal::VersionSyntax => 10,
            Refusal::VersionNumber => 11,
            Refusal::SetSyntax => 20,
            Refusal::SetNumber => 21,
            Refusal::MarkerTooDeep => 30,
            Refusal::MarkerSyntax => 31,
            Refusal::MarkerSetMisuse => 32,
            Refusal::ValueUnset => 40,
            Refusal::ValueExtra => 41,
            Refusal::ValueUndefined => 42,
            Refusal::ValueNumber => 43,
            Refusal::RequirementName => 50,
            Refusal::RequirementExtras => 51,
            Refusal::RequirementSpecifier => 52,
            Refusal::RequirementUrl => 53,
            Refusal::RequirementMarker => 54,
            Refusal::RequirementTrailing => 55,
            Refusal::WheelExtension => 60,
            Refusal::WheelParts => 61,
            Refusal::WheelName => 62,
            Refusal::WheelVersion => 63,
            Refusal::WheelBuild => 64,
            Refusal::WheelTags => 65,
            Refusal::SdistExtension => 66,
            Refusal::SdistParts => 67,
            Refusal::SdistName => 68,
            Refusal::SdistVersion => 69,
            Refusal::Lock => 70,
            Refusal::Environment => 71,
            Refusal::Findings => 72,
            Refusal::TargetPython => 73,
            Refusal::TargetPlatform => 74,
            Refusal::TagParts => 75,
            Refusal::Edit(refusal) => edit_number(refusal),
        }
    }
}

/// The code of an edit that is refused.
fn edit_number(refusal: LineRefusal) -> i32
    ensures { result ≡ edit_number refusal }
{
    match refusal {
        LineRefusal::Memory => 1,
        LineRefusal::Text => 2,
        LineRefusal::Long => 80,
        LineRefusal::Command => 81,
        LineRefusal::Argument => 82,
        LineRefusal::Variable => 83,
        LineRefusal::Extra => 84,
        LineRefusal::Group => 85,
        LineRefusal::Tag => 86,
        LineRefusal::Toml => 87,
        LineRefusal::Entry => 88,
        LineRefusal::TooMany => 89,
        LineRefusal::NoEntry => 90,
        LineRefusal::Name => 91,
    }
}

impl From<AllocError> for Refusal {
    ghost from_gives = { λ _ refusal. refusal ≡ Memory };

    fn from(_refused: AllocError) -> Refusal {
        Refusal::Memory
    }
}

impl<T: Drop> From<AllocFailed<T>> for Refusal {
    ghost from_gives = { λ _ refusal. refusal ≡ Memory };

    fn from(_refused: AllocFailed<T>) -> Refusal {
        Refusal::Memory
    }
}

impl From<VersionError> for Refusal {
    ghost from_gives = { λ error refusal. refusal ≡ version_refusal error };

    fn from(error: VersionError) -> Refusal {
        match error {
            VersionError::Syntax => Refusal::VersionSyntax,
            VersionError::NumberTooLarge => Refusal::VersionNumber,
            VersionError::Memory => Refusal::Memory,
        }
    }
}

impl From<SpecifierError> for Refusal {
    ghost from_gives = { λ error refusal. refusal ≡ set_refusal error };

    fn from(error: SpecifierError) -> Refusal {
        match error {
            SpecifierError::Syntax => Refusal::SetSyntax,
            SpecifierError::NumberTooLarge => Refusal::SetNumber,
            SpecifierError::Memory => Refusal::Memory,
        }
    }
}

impl From<MarkerError> for Refusal {
    ghost from_gives = { λ error refusal. refusal ≡ marker_refusal error };

    fn from(error: MarkerError) -> Refusal {
        match error {
            MarkerError::TooDeep => Refusal::MarkerTooDeep,
            MarkerError::Syntax => Refusal::MarkerSyntax,
            MarkerError::SetMisuse => Refusal::MarkerSetMisuse,
            MarkerError::Memory => Refusal::Memory,
        }
    }
}

impl From<EvalFault> for Refusal {
    ghost from_gives = { λ fault refusal. refusal ≡ evaluation_refusal fault };

    fn from(fault: EvalFault) -> Refusal {
        match fault {
            EvalFault::Unset(_) => Refusal::ValueUnset,
            EvalFault::Extra => Refusal::ValueExtra,
            EvalFault::Undefined => Refusal::ValueUndefined,
            EvalFault::NumberTooLarge => Refusal::ValueNumber,
            EvalFault::Memory => Refusal::Memory,
        }
    }
}

impl From<RequirementError> for Refusal {
    ghost from_gives = { λ error refusal. refusal ≡ requirement_refusal error };

    fn from(error: RequirementError) -> Refusal {
        match error {
            RequirementError::Name => Refusal::RequirementName,
            RequirementError::Extras => Refusal::RequirementExtras,
            RequirementError::Specifier => Refusal::RequirementSpecifier,
            RequirementError::Url => Refusal::RequirementUrl,
            RequirementError::Marker => Refusal::RequirementMarker,
            RequirementError::Trailing => Refusal::RequirementTrailing,
            RequirementError::Memory => Refusal::Memory,
        }
    }
}

impl From<WheelError> for Refusal {
    ghost from_gives = { λ error refusal. refusal ≡ wheel_refusal error };

    fn from(error: WheelError) -> Refusal {
        match error {
            WheelError::Extension => Refusal::WheelExtension,
            WheelError::Parts => Refusal::WheelParts,
            WheelError::Name => Refusal::WheelName,
            WheelError::Version => Refusal::WheelVersion,
            WheelError::Build => Refusal::WheelBuild,
            WheelError::Tags => Refusal::WheelTags,
            WheelError::Memory => Refusal::Memory,
        }
    }
}

impl From<SdistError> for Refusal {
    ghost from_gives = { λ error refusal. refusal ≡ sdist_refusal error };

    fn from(error: SdistError) -> Refusal {
        match error {
            SdistError::Extension => Refusal::SdistExtension,
            SdistError::Parts => Refusal::SdistParts,
            SdistError::Name => Refusal::SdistName,
            SdistError::Version => Refusal::SdistVersion,
            SdistError::Memory => Refusal::Memory,
        }
    }
}

impl From<TargetError> for Refusal {
    ghost from_gives = { λ error refusal. refusal ≡ target_refusal error };

    fn from(error: TargetError) -> Refusal {
        match error {
            TargetError::Python => Refusal::TargetPython,
            TargetError::Platform => Refusal::TargetPlatform,
        }
    }
}

impl From<LineRefusal> for Refusal {
    ghost from_gives = { λ error refusal. refusal ≡ line_refusal error };

    fn from(error: LineRefusal) -> Refusal {
        match error {
            LineRefusal::Memory => Refusal::Memory,
            LineRefusal::Text => Refusal::NotUtf8,
            refused => Refusal::Edit(refused),
        }
    }
}
