//! Lists of tags in the order of preference (PEP 425, "Use").

ghost use Rattle.std.specs.Prelude.{◌≡◌, ◌==◌, List, [], IfOk, IsOk, OnOk, fold, length, map};
ghost use Rattle.std.specs.Rc.{rc_str_bytes};
ghost use Rattle.pytext.specs.Agreement.{Gives};
ghost use Rattle.pywheel_core.specs.Marks.{AreAllMarked};
ghost use Rattle.pywheel_core.specs.Inner.TargetWords.{AreTagParts, parts_tags};
ghost use Rattle.pywheel_core.specs.Tag.{TagValue, at_position, rank_of, tag_of, tags_of, with_tag};
ghost use Rattle.pywheel_core.specs.Target.Tags.{target_tags};

use crate::error::{TagError, TagListError};
use crate::marks::Marks;
use crate::tag::Tag;
use crate::target::Target;
use crate::target::tags::TargetSpans;
use crate::target::words::Words;
use indexmap::IndexSet;
use std::alloc::{AllocError, Global};
use std::fmt;
use std::marker::Model;
use std::rc::RcStr;

/// Distinct tags, the most preferred first (PEP 425, "Use"). A tag's rank is its position.
pub struct TagList {
    tags: IndexSet<Tag>,
    /// Those of the tags; none where the list was made with room for no tag.
    marks: Option<Marks>,
}

impl Model for TagList {
    ghost use Rattle.std.specs.Prelude.{List};
    ghost use Rattle.pywheel_core.specs.Marks.{AreAllMarked};
    ghost use Rattle.pywheel_core.specs.Tag.{TagValue};

    ghost Value = { List TagValue };

    ghost view = { λ l. l.tags.keys };

    ghost invariant = { λ l. AreAllMarked l.marks l.tags.keys };
}

impl Drop for TagList {
    fn drop(self) {
        let TagList { tags: _, marks: _ } = self;
    }
}

impl TagList {
    /// The tags of the texts in order, each at its first position. `Tag` gives the position, from
    /// 1, of the first text that is no tag. It takes the memory of the tags and of a table of them,
    /// and 768 bytes for a list that isn't empty.
    #[tactic(auto, unfolding(crate::specs::Tag::tags_of))]
    pub fn parse(alloc: Global, texts: &[&str]) -> Result<TagList, TagListError>
        ensures { Gives TagListError.Memory (λ l. l) result (tags_of (map (λ t. t.now) texts.now)) }
    {
        let mut list = TagList::with_capacity(alloc, texts.len())?;
        for (i, text) in texts.iter().enumerate() {
            list.add(parse_at(alloc, i + 1, text)?)?;
        }
        Ok(list)
    }

    /// The tags that the target takes, best first (PEP 425, PEP 600, PEP 656, PEP 384, PEP 703,
    /// PEP 803). It takes the memory of their words, which they share, of a table of them, and 768
    /// bytes.
    pub fn of_target(alloc: Global, target: &Target) -> Result<TagList, AllocError>
        ensures { IfOk result (λ list. list ≡ target_tags target.now) }
    {
        let (text, spans) = Words::of_target(alloc, target)?.into_parts()?;
        let parts = TargetSpans::new(&spans, usize::from(target.python().minor));
        TagList::of_parts(alloc, &text, &parts)
    }

    /// The tags that these parts of a text make.
    fn of_parts(alloc: Global, text: &RcStr, parts: &TargetSpans<'_>) -> Result<TagList, AllocError>
        requires { AreTagParts (rc_str_bytes text.now) parts.now }
        ensures { IfOk result (λ list.
            list ≡ fold with_tag [] (parts_tags (rc_str_bytes text.now) parts.now)) }
    {
        let (_, others) = parts.abis.split_at(1);
        let (stable, none) = others.split_at(1);
        let (cpython, pythons) = parts.pythons.split_at(1);
        let mut list = TagList::with_capacity(alloc, parts.count())?;
        list.add_triples(text, cpython, parts.abis, parts.platforms)?;
        list.add_triples(text, parts.older, stable, parts.platforms)?;
        list.add_triples(text, pythons, none, parts.platforms)?;
        list.add_triples(text, parts.pythons, none, parts.any)?;
        Ok(list)
    }

    /// An empty list with capacity for so many tags. For none it takes no memory.
    fn with_capacity(alloc: Global, capacity: usize) -> Result<TagList, AllocError>
        ensures empty { IfOk result (λ list. list ≡ []) }
        ensures succeeds { capacity ≡ 0 → IsOk result }
    {
        let tags = IndexSet::with_capacity(alloc, capacity)?;
        let marks = if capacity == 0 {
            None
        } else {
            Some(Marks::none(alloc)?)
        };
        Ok(TagList { tags, marks })
    }

    /// Puts the tag behind the others, where it isn't among them.
    pub(crate) fn add(&mut self, tag: Tag) -> Result<(), AllocError>
        ensures { OnOk result (self.new ≡ with_tag self.old tag) }
    {
        add_marks(&mut self.marks, &tag);
        self.tags.insert_full(tag)?;
        Ok(())
    }

    /// The position of the tag, from 0, among the distinct tags. It takes no memory.
    pub fn rank(&self, tag: &Tag) -> Option<usize>
        ensures { result ≡ rank_of tag.now self.now }
    {
        if let Some(marks) = &self.marks {
            if !marks.may_have(tag) {
                return None;
            }
        }
        self.tags.get_index_of(tag)
    }

    /// How many distinct tags there are. It takes no memory.
    pub fn len(&self) -> usize
        ensures { result ≡ length self.now }
    {
        self.tags.len()
    }

    /// Whether there is no tag. It takes no memory.
    pub fn is_empty(&self) -> bool
        ensures { result ≡ (length self.now == 0) }
    {
        self.tags.is_empty()
    }

    /// The distinct tags in order. It takes no memory.
    pub fn tags(&self) -> &[Tag]
        ensures { result.now ≡ self.now }
    {
        self.tags.as_slice()
    }
}

/// A copy takes memory for the table, and 768 bytes for a list that isn't empty; its tags share
/// their texts.
impl Clone for TagList {
    ghost is_clone = { λ tags copy. copy ≡ tags };

    fn clone(&self) -> Result<TagList, AllocError> {
        Ok(TagList {
            tags: self.tags.clone()?,
            marks: copy_marks(&self.marks)?,
        })
    }
}

impl fmt::Debug for TagList {
    fn fmt<W: fmt::Write>(&self, f: &mut fmt::Formatter<W>) -> fmt::Result {
        f.debug_struct("TagList").field("tags", &self.tags).finish()
    }
}

/// Adds the marks of the tag, where there are marks.
#[tactic(auto, using(crate::proofs::MarksLemmas::marks_kept))]
fn add_marks(marks: &mut Option<Marks>, tag: &Tag)
    ensures kept { (tags : List TagValue) → AreAllMarked marks.old tags
        → AreAllMarked marks.new tags }
    ensures marked { (tags : List TagValue) → AreAllMarked marks.old tags
        → AreAllMarked marks.new (with_tag tags tag.now) }
{
    if let Some(marks) = marks {
        marks.add(tag);
    }
}

/// The same marks, where there are marks.
fn copy_marks(marks: &Option<Marks>) -> Result<Option<Marks>, AllocError>
    ensures { IfOk result (λ copy. copy ≡ marks.now) }
{
    match marks {
        Some(marks) => Ok(Some(marks.clone()?)),
        None => Ok(None),
    }
}

/// The tag that the text at this position is.
fn parse_at(alloc: Global, position: usize, text: &str) -> Result<Tag, TagListError>
    ensures { Gives TagListError.Memory (λ t. t) result (at_position position (tag_of text.now)) }
{
    match Tag::parse(alloc, text) {
        Ok(tag) => Ok(tag),
        Err(TagError::Shape) => Err(TagListError::Tag(position)),
        Err(TagError::Memory) => Err(TagListError::Memory),
    }
}
