//! How tags and the names of wheels print.

ghost use Rattle.std.specs.Prelude.{◌≡◌, IfOk, Some, codes, string_bytes};
ghost use Rattle.std.specs.List.{join_by};
ghost use Rattle.pywheel_core.specs.Tag.{tag_text};
ghost use Rattle.pywheel_core.specs.Wheel.Value.{wheel_text};

use crate::sdist::SdistName;
use crate::tag::Tag;
use crate::wheel::WheelName;
use std::alloc::{AllocError, Global};
use std::fmt::{self, Write};

/// The three parts, with `-` between them. Printing takes no memory; a width that is asked for
/// isn't filled up to, since the three parts are no one text.
impl fmt::Display for Tag {
    ghost output = { λ t. Some (tag_text t) };

    fn fmt<W: fmt::Write>(&self, f: &mut fmt::Formatter<W>) -> fmt::Result {
        write!(f, "{}-{}-{}", self.python(), self.abi(), self.platform())
    }
}

/// The texts of the tags, with a space between two.
pub fn tags_text(alloc: Global, tags: &[Tag]) -> Result<String, AllocError>
    ensures { IfOk result (λ text. string_bytes text ≡ join_by tag_text (codes " ") tags.now) }
{
    let mut text = String::new(alloc);
    if let Some((first, rest)) = tags.split_first() {
        write!(text, "{first}")?;
        for tag in rest {
            write!(text, " {tag}")?;
        }
    }
    Ok(text)
}

impl fmt::Debug for Tag {
    fn fmt<W: fmt::Write>(&self, f: &mut fmt::Formatter<W>) -> fmt::Result {
        write!(f, "Tag({self})")
    }
}

impl fmt::Debug for SdistName {
    fn fmt<W: fmt::Write>(&self, f: &mut fmt::Formatter<W>) -> fmt::Result {
        write!(f, "SdistName({} {})", self.name(), self.version())
    }
}

/// As it is displayed.
impl fmt::Debug for WheelName {
    fn fmt<W: fmt::Write>(&self, f: &mut fmt::Formatter<W>) -> fmt::Result {
        fmt::Display::fmt(self, f)
    }
}

/// The file name: the name and the build tag as written, the version in its normal form, the tags
/// in lower case. Printing takes no memory; a width that is asked for isn't filled up to, since the
/// parts are no one text.
impl fmt::Display for WheelName {
    ghost output = { λ w. Some (wheel_text w) };

    #[tactic(auto, unfolding(crate::specs::Wheel::Value::wheel_text))]
    fn fmt<W: fmt::Write>(&self, f: &mut fmt::Formatter<W>) -> fmt::Result {
        let (name, version, set) = (self.name(), self.version(), self.tag_set());
        match self.build_text() {
            Some(build) => write!(f, "{name}-{version}-{build}-{set}.whl"),
            None => write!(f, "{name}-{version}-{set}.whl"),
        }
    }
}
