//! The two halves of the name of a wheel. Many wheels have one of them in common, so they are
//! shared: a lock with thousands of wheels has a few hundred ends (build tag and tag set).

ghost use Rattle.pytext.specs.Agreement.{Gives};
ghost use Rattle.pywheel_core.specs.Wheel.Halves.{end_in, end_value};

use crate::build::BuildTag;
use crate::cut::{end_parts, stem};
use crate::error::WheelError;
use crate::tag::Tag;
use crate::tag_set::read_tag_set;
use crate::wheel::read_build;
use pyver_core::Version;
use std::alloc::Global;
use std::rc::RcStr;

/// The name and the version of a wheel, which the other wheels of a release have too.
pub(crate) struct NameHead {
    pub(crate) name: String,
    pub(crate) version: Version,
}

impl Drop for NameHead {
    fn drop(self) {
        let NameHead {
            name: _,
            version: _,
        } = self;
    }
}

/// The build tag and the tags of a wheel, which wheels of other releases have too.
pub(crate) struct NameEnd {
    pub(crate) build: Option<BuildTag>,
    pub(crate) tag_set: RcStr,
    pub(crate) tags: Vec<Tag>,
}

impl Drop for NameEnd {
    fn drop(self) {
        let NameEnd {
            build: _,
            tag_set: _,
            tags: _,
        } = self;
    }
}

/// What the text says as what stands behind the version in the name of a wheel.
#[tactic(auto, unfolding(crate::specs::Wheel::Halves::end_in))]
pub(crate) fn read_end(alloc: Global, text: &str) -> Result<NameEnd, WheelError>
    ensures { Gives WheelError.Memory end_value result (end_in text.now) }
{
    let stem = stem(text).ok_or(WheelError::Extension)?;
    let (build, tag_set, set) = end_parts(stem).ok_or(WheelError::Parts)?;
    let build = read_build(alloc, build)?;
    let (tag_set, tags) = read_tag_set(alloc, tag_set, &set)?;
    Ok(NameEnd {
        build,
        tag_set,
        tags,
    })
}
