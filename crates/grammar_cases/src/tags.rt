//! Tags and lists of them.

use crate::told::printed_text;
use case_files::{text, texts};
use pywheel_core::{Tag, TagError, TagList, TagListError};
use std::alloc::{AllocError, Global};
use toml::Table;

/// The text of `tag` and its parts, or why it is refused.
pub(crate) fn answer_case(alloc: Global, case: &Table) -> anyhow::Result<String> {
    let text = text(alloc, case, "tag")?;
    match Tag::parse(alloc, text.as_str()) {
        Ok(tag) => parts(alloc, &tag),
        Err(TagError::Memory) => Err(anyhow::anyhow!("memory")),
        Err(refusal) => Ok(format!(in alloc; "{refusal:?}")?),
    }
}

fn parts(alloc: Global, tag: &Tag) -> anyhow::Result<String> {
    let text = printed_text(alloc, tag)?;
    let (python, abi, platform) = (tag.python(), tag.abi(), tag.platform());
    Ok(format!(in alloc; "{text}: {python}, {abi}, {platform}")?)
}

/// How many tags the list of `tags` has, or why it is refused; and the rank of each of `ranks`, or
/// the tags of a copy where none is asked for.
pub(crate) fn tell_list(alloc: Global, case: &Table) -> anyhow::Result<String> {
    let text = text(alloc, case, "tags")?;
    let ranks = texts(alloc, case, "ranks")?;
    match TagList::parse(alloc, &tag_texts(alloc, text.as_str())?) {
        Ok(tags) => ranks_text(alloc, &tags, &ranks),
        Err(TagListError::Memory) => Err(anyhow::anyhow!("memory")),
        Err(refusal) => Ok(format!(in alloc; "{refusal:?}")?),
    }
}

/// The list of the tags between the spaces of a text.
pub(crate) fn tag_list(alloc: Global, text: &str) -> anyhow::Result<TagList> {
    match TagList::parse(alloc, &tag_texts(alloc, text)?) {
        Ok(tags) => Ok(tags),
        Err(refusal) => Err(anyhow::anyhow!("the tags are refused: {refusal:?}")),
    }
}

/// The texts between the spaces of a text; none where it is empty.
fn tag_texts(alloc: Global, text: &str) -> Result<Vec<&str>, AllocError> {
    if text.is_empty() {
        return Ok(Vec::new(alloc));
    }
    text.split(' ').collect(alloc)
}

fn ranks_text(alloc: Global, tags: &TagList, ranks: &[&str]) -> anyhow::Result<String> {
    let mut told = format!(in alloc; "{} tags, empty {}\n", tags.len(), tags.is_empty())?;
    if ranks.is_empty() {
        push_tags(&mut told, tags.clone()?.tags())?;
    }
    push_ranks(&mut told, alloc, tags, ranks)?;
    Ok(told)
}

fn push_tags(told: &mut String, tags: &[Tag]) -> Result<(), AllocError> {
    for tag in tags {
        writeln!(told, "{tag}")?;
    }
    Ok(())
}

/// The rank of each tag in the list, with that of its copy in a copy of the list where it is
/// another.
pub(crate) fn push_ranks(
    told: &mut String,
    alloc: Global,
    tags: &TagList,
    texts: &[&str],
) -> anyhow::Result<()> {
    for text in texts {
        match Tag::parse(alloc, text) {
            Ok(tag) => push_rank(told, tags, &tag)?,
            Err(refusal) => return Err(anyhow::anyhow!("the tag is refused: {refusal:?}")),
        }
    }
    Ok(())
}

fn push_rank(told: &mut String, tags: &TagList, tag: &Tag) -> Result<(), AllocError> {
    let rank = tags.rank(tag);
    writeln!(told, "{tag} {rank:?}")?;
    let copied = tags.clone()?.rank(&tag.clone()?);
    if copied != rank {
        writeln!(told, "{copied:?} in the copy")?;
    }
    Ok(())
}
