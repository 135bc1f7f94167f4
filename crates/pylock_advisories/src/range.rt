//! Ranges of versions, and which versions they include (the OSV schema, "Evaluation").
ghost use Rattle.std.specs.Prelude.{◌≡◌, ◌||◌, IfOk, map, option_copied};
ghost use Rattle.std.specs.List.{list_any};
ghost use Rattle.pylock_advisories.specs.Evaluation.{fixes, has_reached, is_before_limits};
ghost use Rattle.pylock_advisories.specs.Evaluation.{is_included, is_last, is_open_from};
ghost use Rattle.pylock_advisories.specs.Evaluation.{is_open_from_start};
ghost use Rattle.pyver_core.specs.Version.Order.{is_before};
ghost use Rattle.pylock_advisories.specs.Latest.{is_open_from_latest, later, latest};
ghost use Rattle.pylock_advisories.specs.Reading.{range_of};

use crate::versions::{has_text, is_before, versions_in, without_text};
use pyver_core::Version;
use std::alloc::{AllocError, Global};
use std::marker::Model;

/// A range of versions, by its events.
pub struct Range {
    /// Whether an event is `introduced` `0`.
    is_from_start: bool,
    introduced: Vec<Version>,
    fixed: Vec<Version>,
    last_affected: Vec<Version>,
    /// Whether an event is `limit` `*`.
    is_unlimited: bool,
    limits: Vec<Version>,
}

impl Model for Range {
    ghost use Rattle.pylock_advisories.specs.Advisory.{RangeValue};

    ghost Value = { RangeValue };

    ghost view = { λ r. record {
      is_from_start = r.is_from_start;
      introduced = r.introduced.items;
      fixed = r.fixed.items;
      last_affected = r.last_affected.items;
      is_unlimited = r.is_unlimited;
      limits = r.limits.items;
    } };
}

impl Drop for Range {
    fn drop(self) {
        let Range {
            is_from_start: _,
            introduced: _,
            fixed: _,
            last_affected: _,
            is_unlimited: _,
            limits: _,
        } = self;
    }
}

impl Range {
    /// The range with the events of these texts.
    pub(crate) fn new(
        alloc: Global,
        introduced: &[&str],
        fixed: &[&str],
        last_affected: &[&str],
        limits: &[&str],
    ) -> Result<Range, AllocError>
        ensures { IfOk result (λ range. range ≡ range_of (map (λ text. text.now) introduced.now)
            (map (λ text. text.now) fixed.now) (map (λ text. text.now) last_affected.now)
            (map (λ text. text.now) limits.now)) }
    {
        let is_from_start = has_text(introduced, "0");
        let introduced = without_text(alloc, introduced, "0")?;
        let is_unlimited = has_text(limits, "*");
        Ok(Range {
            is_from_start,
            introduced: versions_in(alloc, &introduced)?,
            fixed: versions_in(alloc, fixed)?,
            last_affected: versions_in(alloc, last_affected)?,
            is_unlimited,
            limits: versions_in(alloc, limits)?,
        })
    }

    /// The versions at which the range is fixed.
    pub(crate) fn fixed(&self) -> &[Version]
        ensures { result.now ≡ self.now.fixed }
    {
        &self.fixed
    }

    /// Whether the range includes the version. It takes time linear in the events, and no memory.
    #[tactic(auto, unfolding(crate::specs::Evaluation::is_included))]
    pub(crate) fn includes(&self, version: &Version) -> bool
        ensures { result ≡ is_included version.now self.now }
    {
        self.is_before_limits(version)
            && (self.is_open_from_start(version) || self.is_open_from_one(version))
    }

    fn is_before_limits(&self, version: &Version) -> bool
        ensures { result ≡ is_before_limits version.now self.now }
    {
        self.is_unlimited || self.limits.is_empty() || is_before_one(version, &self.limits)
    }

    /// Whether nothing ends what was introduced below every version.
    fn is_open_from_start(&self, version: &Version) -> bool
        ensures { result ≡ is_open_from_start version.now self.now }
    {
        self.is_from_start
            && !has_reached_one(version, &self.fixed)
            && !has_passed_one(version, &self.last_affected)
    }

    /// Whether nothing ends what was introduced at one of the versions at or below this one.
    fn is_open_from_one(&self, version: &Version) -> bool
        ensures { result ≡ list_any (is_open_from version.now self.now) self.now.introduced }
    {
        self.is_open_from_latest(version)
    }

    /// Whether nothing ends what was introduced last at or below the version. Where something does,
    /// it also ends what was introduced before.
    fn is_open_from_latest(&self, version: &Version) -> bool
        ensures { result ≡ is_open_from_latest version.now self.now }
    {
        match latest(&self.introduced, version) {
            Some(start) => !self.ends(start, version),
            None => false,
        }
    }

    /// Whether an event ends for the version what was introduced at the start.
    fn ends(&self, start: &Version, version: &Version) -> bool
        ensures { result ≡ (list_any (fixes start.now version.now) self.now.fixed
            || list_any (is_last start.now version.now) self.now.last_affected) }
    {
        is_fixed(start, version, &self.fixed) || is_behind_last(start, version, &self.last_affected)
    }
}

/// Whether the version stands before one of the limits.
fn is_before_one(version: &Version, limits: &[Version]) -> bool
    ensures { result ≡ list_any (is_before version.now) limits.now }
{
    limits.iter().any(|limit| is_before(version, limit))
}

/// Whether the version stands at or behind one of those that are fixed.
fn has_reached_one(version: &Version, fixed: &[Version]) -> bool
    ensures { result ≡ list_any (λ f. has_reached f version.now) fixed.now }
{
    fixed.iter().any(|fixed| !is_before(version, fixed))
}

/// Whether the version stands behind one of those that are affected last.
fn has_passed_one(version: &Version, last_affected: &[Version]) -> bool
    ensures { result ≡ list_any (λ l. is_before l version.now) last_affected.now }
{
    last_affected.iter().any(|last| is_before(last, version))
}

/// Whether one of these ends for the version what was introduced at the start.
fn is_fixed(start: &Version, version: &Version, fixed: &[Version]) -> bool
    ensures { result ≡ list_any (fixes start.now version.now) fixed.now }
{
    fixed.iter().any(|fixed| is_before(start, fixed) && !is_before(version, fixed))
}

/// Whether the version stands behind one of those that are affected last, of what was introduced at
/// the start.
fn is_behind_last(start: &Version, version: &Version, last_affected: &[Version]) -> bool
    ensures { result ≡ list_any (is_last start.now version.now) last_affected.now }
{
    last_affected
        .iter()
        .any(|last| !is_before(last, start) && is_before(last, version))
}

/// The last of the versions that stands at or before this one.
fn latest<'a>(versions: &'a [Version], version: &Version) -> Option<&'a Version>
    ensures { option_copied result ≡ latest version.now versions.now }
{
    let mut latest = None;
    for start in versions {
        latest = later(version, latest, start);
    }
    latest
}

/// The later of the two, of those that stand at or before the version.
fn later<'a>(
    version: &Version,
    latest: Option<&'a Version>,
    start: &'a Version,
) -> Option<&'a Version>
    ensures { option_copied result ≡ later version.now (option_copied latest.entry) start.now }
{
    match latest {
        None if is_before(version, start) => None,
        None => Some(start),
        Some(latest) if is_before(version, start) || !is_before(latest, start) => Some(latest),
        Some(_) => Some(start),
    }
}
