//! Tags (PEP 425).

ghost use Rattle.std.specs.Prelude.{◌≡◌, IfOk, IsErrOf};
ghost use Rattle.std.specs.Cmp.{partial_equiv_from_equiv};
ghost use Rattle.std.specs.Rc.{rc_str_bytes};
ghost use Rattle.pytext.specs.Agreement.{Gives};
ghost use Rattle.pywheel_core.specs.Spans.{IsAsciiText, IsWithin, tag_at};
ghost use Rattle.pywheel_core.specs.Tag.{TagText, TagValue, tag_eq, tag_of};
ghost use Rattle.pywheel_core.specs.TagLaws.{alike, fed_tag, tag_equiv};

use crate::cut::{lower_text, three_parts};
use crate::error::TagError;
use crate::span::Span;
use std::alloc::{AllocError, Global};
use std::hash::{Hash, Hasher};
use std::marker::Model;
use std::rc::RcStr;

/// A tag of a wheel: a Python, an ABI and a platform, in lower case (PEP 425).
///
/// The tags of one wheel share their text, so that a tag takes seven words besides it.
pub struct Tag {
    text: RcStr,
    python: Span,
    abi: Span,
    platform: Span,
}

impl Model for Tag {
    ghost use Rattle.std.specs.Rc.{rc_str_bytes};
    ghost use Rattle.pywheel_core.specs.Spans.{IsAsciiText, IsWithin, tag_at};
    ghost use Rattle.pywheel_core.specs.Tag.{TagValue};

    ghost Value = { TagValue };

    ghost view = { λ t. tag_at (rc_str_bytes t.text) t.python t.abi t.platform };

    ghost invariant = { λ t. IsAsciiText (rc_str_bytes t.text)
        × IsWithin (rc_str_bytes t.text) t.python
        × IsWithin (rc_str_bytes t.text) t.abi × IsWithin (rc_str_bytes t.text) t.platform };
}

impl Drop for Tag {
    fn drop(self) {
        let Tag {
            text: _,
            python: _,
            abi: _,
            platform: _,
        } = self;
    }
}

impl Tag {
    /// The tag whose parts stand at these spans of the text.
    pub(crate) fn new(text: RcStr, python: Span, abi: Span, platform: Span) -> Tag
        requires ascii { IsAsciiText (rc_str_bytes text) }
        requires python { IsWithin (rc_str_bytes text) python }
        requires abi { IsWithin (rc_str_bytes text) abi }
        requires platform { IsWithin (rc_str_bytes text) platform }
        ensures { result ≡ tag_at (rc_str_bytes text) python abi platform }
    {
        Tag {
            text,
            python,
            abi,
            platform,
        }
    }

    /// The tag that the text is, in any case: three parts joined by `-`, each one or more ASCII
    /// letters, digits and `_` (PEP 425, "Details"). It takes the memory of one text as long as the
    /// given one, and none where the shape is refused.
    #[tactic(auto, using(crate::proofs::Lemmas::Tag::Listing::given_text))]
    pub fn parse(alloc: Global, text: &str) -> Result<Tag, TagError>
        ensures ok { IfOk result (λ t. TagText text.now t) }
        ensures shape { IsErrOf result TagError.Shape → (t : TagValue) → TagText text.now t → ⊥ }

        // The same, over the one answer of the definition.
        ensures exact { Gives TagError.Memory (λ t. t) result (tag_of text.now) }
    {
        read_tag(alloc, text)
    }

    /// The Python implementation and version, as `cp312` or `py3` (PEP 425, "Python Tag"). It
    /// takes no memory.
    pub fn python(&self) -> &str
        ensures { result.now ≡ self.now.python }
    {
        self.python.of(self.text.as_str())
    }

    /// The binary interface, as `abi3` or `none` (PEP 425, "ABI Tag"). It takes no memory.
    pub fn abi(&self) -> &str
        ensures { result.now ≡ self.now.abi }
    {
        self.abi.of(self.text.as_str())
    }

    /// The platform, as `win_amd64` or `any` (PEP 425, "Platform Tag"). It takes no memory.
    pub fn platform(&self) -> &str
        ensures { result.now ≡ self.now.platform }
    {
        self.platform.of(self.text.as_str())
    }
}

fn read_tag(alloc: Global, text: &str) -> Result<Tag, TagError>
    ensures { Gives TagError.Memory (λ t. t) result (tag_of text.now) }
{
    let Some(parts) = three_parts(text) else {
        return Err(TagError::Shape);
    };
    if !parts.is_tag() {
        return Err(TagError::Shape);
    }
    let (python, abi, platform) = parts.spans(text.len());
    let lower = lower_text(alloc, text)?;
    Ok(Tag::new(lower, python, abi, platform))
}

/// Two tags are equal where their parts are. It takes no memory.
impl PartialEq for Tag {
    ghost eq = { tag_eq };

    ghost laws = { partial_equiv_from_equiv tag_equiv };

    fn eq(&self, other: &Tag) -> bool {
        self.python() == other.python()
            && self.abi() == other.abi()
            && self.platform() == other.platform()
    }
}

impl Eq for Tag {
    ghost laws = { tag_equiv };
}

/// Hashes the parts. It takes no memory.
impl Hash for Tag {
    ghost hash_input = { fed_tag };

    ghost respects_eq = { alike };

    fn hash<H: Hasher>(&self, state: &mut H) {
        self.python().hash(state);
        self.abi().hash(state);
        self.platform().hash(state);
    }
}

/// A copy that shares the text. It takes no memory but for the count of those that share.
impl Clone for Tag {
    ghost is_clone = { λ tag copy. copy ≡ tag };

    fn clone(&self) -> Result<Tag, AllocError> {
        Ok(Tag::new(self.text.clone()?, self.python, self.abi, self.platform))
    }
}
