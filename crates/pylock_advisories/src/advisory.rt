//! Advisories, and what is told of one that affects a package.
ghost use Rattle.std.specs.Prelude.{◌≡◌, ◌++◌, IfOk, OnOk, flat_map, filter, map, option_copied};
ghost use Rattle.std.specs.Prelude.{option_map};
ghost use Rattle.std.specs.List.{list_any};
ghost use Rattle.std.specs.Str.{bytes_eq};
ghost use Rattle.pylock_advisories.specs.Evaluation.{affects, affects_version, elements_of};
ghost use Rattle.pylock_advisories.specs.Evaluation.{fixes_of, is_way_out, least, lesser, told};
ghost use Rattle.pylock_advisories.specs.Evaluation.{way_out};
ghost use Rattle.pylock_advisories.specs.Lent.{lent, told_as};
ghost use Rattle.pylock_advisories.specs.Reading.{advisory_of};

use crate::package::AffectedPackage;
use crate::range::Range;
use crate::versions::is_before;
use pytext::Text;
use pyver_core::Version;
use std::alloc::{AllocError, Global};
use std::marker::Model;

/// An advisory in OSV's format, as far as it counts for packages of PyPI.
pub struct Advisory {
    id: Text,
    aliases: Vec<Text>,
    is_withdrawn: bool,
    affected: Vec<AffectedPackage>,
}

impl Model for Advisory {
    ghost use Rattle.pylock_advisories.specs.Advisory.{AdvisoryValue};

    ghost Value = { AdvisoryValue };

    ghost view = { λ a. record {
      id = a.id;
      aliases = a.aliases.items;
      is_withdrawn = a.is_withdrawn;
      affected = a.affected.items;
    } };
}

impl Drop for Advisory {
    fn drop(self) {
        let Advisory {
            id: _,
            aliases: _,
            is_withdrawn: _,
            affected: _,
        } = self;
    }
}

/// An advisory that affects a package at a version.
#[derive(Clone, Copy)]
pub struct Affecting<'a> {
    /// The advisory.
    pub advisory: &'a Advisory,
    /// The version to go to: the least at which the package is fixed, above its version, that the
    /// advisory doesn't affect itself.
    pub fixed: Option<&'a Version>,
}

impl Advisory {
    pub(crate) fn new(
        id: Text,
        aliases: Vec<Text>,
        is_withdrawn: bool,
        affected: Vec<AffectedPackage>,
    ) -> Advisory
        ensures { result ≡ advisory_of is_withdrawn id aliases.items affected.items }
    {
        Advisory {
            id,
            aliases,
            is_withdrawn,
            affected,
        }
    }

    /// The advisory's id, such as `PYSEC-2021-19`. It takes no memory.
    pub fn id(&self) -> &str
        ensures { result.now ≡ self.now.id }
    {
        self.id.as_str()
    }

    /// The ids of the same in other databases, in order. It takes no memory.
    pub fn aliases(&self) -> &[Text]
        ensures { result.now ≡ self.now.aliases }
    {
        &self.aliases
    }

    /// Whether the advisory is withdrawn: then it affects nothing.
    pub fn is_withdrawn(&self) -> bool
        ensures { result ≡ self.now.is_withdrawn }
    {
        self.is_withdrawn
    }

    /// The elements of `affected` that are of packages of PyPI.
    pub(crate) fn affected(&self) -> &[AffectedPackage]
        ensures { result.now ≡ self.now.affected }
    {
        &self.affected
    }

    /// What is told of the advisory where it affects the package of this name, in normal form, at
    /// the version of this text.
    pub(crate) fn told(
        &self,
        alloc: Global,
        name: &str,
        text: &str,
        version: Option<&Version>,
    ) -> Result<Option<Affecting<'_>>, AllocError>
        ensures { IfOk result (λ affecting. option_map told_as affecting
            ≡ told text.now (option_copied version.entry) (elements_of name.now self.now)
            self.now) }
    {
        if self.is_withdrawn {
            return Ok(None);
        }
        let elements = elements(alloc, &self.affected, name)?;
        if !affects(&elements, text, version) {
            return Ok(None);
        }
        let fixed = way_out(alloc, &elements, version)?;
        Ok(Some(Affecting {
            advisory: self,
            fixed,
        }))
    }
}

/// The elements that are of the package.
fn elements<'a>(
    alloc: Global,
    affected: &'a [AffectedPackage],
    name: &str,
) -> Result<Vec<&'a AffectedPackage>, AllocError>
    ensures { IfOk result (λ elements. lent elements.items
        ≡ filter (λ e. bytes_eq name.now e.name) affected.now) }
{
    let mut elements = Vec::new(alloc);
    for element in affected {
        if name == element.name() {
            elements.push(element)?;
        }
    }
    Ok(elements)
}

/// Whether one of the elements affects the package at the version of this text.
fn affects(elements: &[&AffectedPackage], text: &str, version: Option<&Version>) -> bool
    ensures { result ≡ list_any (affects text.now (option_copied version.entry))
        (lent elements.now) }
{
    for element in elements {
        if element.affects(text, version) {
            return true;
        }
    }
    false
}

/// The version to go to.
fn way_out<'a>(
    alloc: Global,
    elements: &[&'a AffectedPackage],
    version: Option<&Version>,
) -> Result<Option<&'a Version>, AllocError>
    ensures { IfOk result (λ fixed. option_copied fixed
        ≡ way_out (option_copied version.entry) (lent elements.now)) }
{
    match version {
        None => Ok(None),
        Some(version) => {
            let fixes = fixes(alloc, elements)?;
            Ok(least_way_out(&fixes, elements, version))
        }
    }
}

/// The versions at which the ranges of these elements are fixed.
fn fixes<'a>(
    alloc: Global,
    elements: &[&'a AffectedPackage],
) -> Result<Vec<&'a Version>, AllocError>
    ensures { IfOk result (λ fixes. lent fixes.items ≡ fixes_of (lent elements.now)) }
{
    let mut fixes = Vec::new(alloc);
    for element in elements {
        push_fixes(&mut fixes, element.ranges())?;
    }
    Ok(fixes)
}

/// Adds the versions at which these ranges are fixed.
fn push_fixes<'a>(fixes: &mut Vec<&'a Version>, ranges: &'a [Range]) -> Result<(), AllocError>
    ensures { OnOk result (lent fixes.new.items
        ≡ lent fixes.old.items ++ flat_map (λ r. r.fixed) ranges.now) }
{
    for range in ranges {
        push_lent(fixes, range.fixed())?;
    }
    Ok(())
}

fn push_lent<'a>(fixes: &mut Vec<&'a Version>, versions: &'a [Version]) -> Result<(), AllocError>
    ensures { OnOk result (lent fixes.new.items ≡ lent fixes.old.items ++ versions.now) }
{
    for version in versions {
        fixes.push(version)?;
    }
    Ok(())
}

/// The least of these versions that is above this one, and that no element affects.
fn least_way_out<'a>(
    fixes: &[&'a Version],
    elements: &[&AffectedPackage],
    version: &Version,
) -> Option<&'a Version>
    ensures { option_copied result
        ≡ least (filter (is_way_out version.now (lent elements.now)) (lent fixes.now)) }
{
    let mut least = None;
    for fix in fixes {
        if is_way_out(fix, elements, version) {
            least = Some(lesser(least, fix));
        }
    }
    least
}

fn is_way_out(fix: &Version, elements: &[&AffectedPackage], version: &Version) -> bool
    ensures { result ≡ is_way_out version.now (lent elements.now) fix.now }
{
    is_before(version, fix) && !is_affected(fix, elements)
}

/// Whether one of the elements affects the version.
fn is_affected(version: &Version, elements: &[&AffectedPackage]) -> bool
    ensures { result ≡ list_any (affects_version version.now) (lent elements.now) }
{
    for element in elements {
        if element.affects_version(version) {
            return true;
        }
    }
    false
}

/// The lesser of the two, the first of equal ones.
fn lesser<'a>(least: Option<&'a Version>, fix: &'a Version) -> &'a Version
    ensures { Some result.now ≡ lesser (option_copied least.entry) fix.now }
{
    match least {
        Some(least) if !is_before(fix, least) => least,
        _ => fix,
    }
}
