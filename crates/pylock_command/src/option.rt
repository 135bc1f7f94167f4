//! What `plan` and `explain` are asked beside the lock's defaults.

/// An option of `plan` and `explain`: what is asked beside the lock's defaults.
#[derive(Clone, Copy, Debug)]
pub enum PlanOption<'a> {
    /// `--all-extras`: each extra of the lock.
    AllExtras,
    /// `--extra`, with the text of a name.
    Extra(&'a str),
    /// `--no-default-groups`: none of the lock's default groups.
    NoDefaultGroups,
    /// `--all-groups`: each dependency group and default group of the lock.
    AllGroups,
    /// `--group`, with the text of a name.
    Group(&'a str),
    /// `--no-group`, with the text of a name.
    NoGroup(&'a str),
    /// `--only-binary`, with the text of a name, or `:all:`.
    OnlyBinary(&'a str),
    /// `--no-binary`, with the text of a name, or `:all:`.
    NoBinary(&'a str),
    /// `--set`, with the text `VARIABLE=VALUE`.
    Set(&'a str),
    /// `--only`, with the text of a name: of the plan this package, and others that are so named.
    Only(&'a str),
    /// `--except`, with the text of a name: of the plan not this package.
    Except(&'a str),
    /// `--no-project`: of the plan no directory that is editable or the lock's own.
    NoProject,
}
