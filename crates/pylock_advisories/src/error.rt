//! Why advisories are refused.
ghost use Rattle.std.specs.Prelude.{◌≡◌};
ghost use Rattle.pylock_advisories.specs.Members.{member_name};
ghost use Rattle.pylock_advisories.specs.declared.error.AdvisoriesError.TheVariants as file;
ghost use Rattle.pylock_advisories.specs.declared.error.AdvisoryError.TheVariants as error;

use std::alloc::AllocError;

/// The members of an advisory that count (the OSV schema), besides `withdrawn`, which may have any
/// type.
#[derive(Clone, Copy, PartialEq, Eq, Debug)]
pub enum Member {
    /// `id`, a text.
    Id,
    /// `aliases`, a list of texts.
    Aliases,
    /// `affected`, a list of objects.
    Affected,
    /// `package` of an element of `affected`, an object.
    Package,
    /// `ecosystem` of a package, a text.
    Ecosystem,
    /// `name` of a package, a text.
    Name,
    /// `versions` of an element of `affected`, a list of texts.
    Versions,
    /// `ranges` of an element of `affected`, a list of objects.
    Ranges,
    /// `type` of a range, a text.
    Type,
    /// `events` of a range, a list of objects.
    Events,
    /// `introduced` of an event, a text.
    Introduced,
    /// `fixed` of an event, a text.
    Fixed,
    /// `last_affected` of an event, a text.
    LastAffected,
    /// `limit` of an event, a text.
    Limit,
}

impl Member {
    /// The member's name. It takes no memory.
    pub fn as_str(self) -> &'static str
        ensures { result.now ≡ member_name self }
    {
        match self {
            Member::Id => "id",
            Member::Aliases => "aliases",
            Member::Affected => "affected",
            Member::Package => "package",
            Member::Ecosystem => "ecosystem",
            Member::Name => "name",
            Member::Versions => "versions",
            Member::Ranges => "ranges",
            Member::Type => "type",
            Member::Events => "events",
            Member::Introduced => "introduced",
            Member::Fixed => "fixed",
            Member::LastAffected => "last_affected",
            Member::Limit => "limit",
        }
    }
}

/// Why an advisory is refused. Of several reasons it is the first in the order of [`Member`], that
/// of an element of `affected` before those of the elements behind it.
#[derive(Debug, Drop)]
pub enum AdvisoryError {
    /// The text is no JSON value.
    Json,
    /// The value is no object.
    Object,
    /// A member has another type, or it is `id` and isn't there.
    Member(Member),
    /// Memory was refused.
    Memory,
}

/// Why a file's advisories are refused.
#[derive(Debug, Drop)]
pub enum AdvisoriesError {
    /// The advisory at this place of the file, counted from 1, is refused: the first of them.
    Advisory(usize, AdvisoryError),
    /// Memory was refused.
    Memory,
}

impl<E: Into<AllocError> + Drop> From<E> for AdvisoryError {
    ghost from_gives = { λ _ e. e ≡ error.Memory };

    fn from(_refused: E) -> AdvisoryError {
        AdvisoryError::Memory
    }
}

impl<E: Into<AllocError> + Drop> From<E> for AdvisoriesError {
    ghost from_gives = { λ _ e. e ≡ file.Memory };

    fn from(_refused: E) -> AdvisoriesError {
        AdvisoriesError::Memory
    }
}
