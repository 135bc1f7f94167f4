//! The names of source distributions.

use crate::told::tell;
use pywheel_core::SdistName;
use std::alloc::Global;
use toml::Table;

/// What the name `sdist` says: the name and the version, and how it prints for a developer; or why
/// it is refused.
pub(crate) fn answer_case(alloc: Global, case: &Table) -> anyhow::Result<String> {
    tell(alloc, case, "sdist", SdistName::parse, |alloc, sdist| {
        Ok(format!(in alloc; "{}, {}, {sdist:?}", sdist.name(), sdist.version())?)
    })
}

/// The lengths of the name and of the version that the long name `sdist` says; or why it is
/// refused.
pub(crate) fn measure(alloc: Global, case: &Table) -> anyhow::Result<String> {
    tell(alloc, case, "sdist", SdistName::parse, |alloc, sdist| {
        let (name, version) = (sdist.name().len(), sdist.version().text().len());
        Ok(format!(in alloc; "name {name} bytes, version {version} bytes")?)
    })
}
