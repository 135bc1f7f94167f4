//! Tags one by one (PEP 425, "Compressed Tag Sets").

ghost use Rattle.std.specs.Prelude.{◌≡◌, ◌++◌, IfOk, OnOk, option_map};
ghost use Rattle.std.specs.List.{flat_map};
ghost use Rattle.pywheel_core.specs.Tag.{pieces};
ghost use Rattle.pywheel_core.specs.Texts.{cut_at, three_parts};
ghost use Rattle.pylock_values.specs.Tags.{abi_fields, platform_field, python_fields, tag_field};
ghost use Rattle.pylock_values.specs.Tags.{tags_record};

use crate::record::without_first;
use pylock_run::push_next_field;
use pywheel_core::Tag;
use std::alloc::{AllocError, Global};

/// The record of the tags that a text stands for: three parts with `-` between, each of which may
/// be several pieces with `.` between; none where it hasn't three parts.
///
/// The tags stand as they are written. The platform runs fastest, then the ABI. It takes memory for
/// the record.
pub fn tags_record(alloc: Global, text: &str) -> Result<Option<Vec<u8>>, AllocError>
    ensures { IfOk result (λ made. option_map (λ made. made.items) made ≡ tags_record text.now) }
{
    let Some((pythons, abis, platforms)) = three_parts(text) else {
        return Ok(None);
    };
    let mut fields = Vec::new(alloc);
    push_pythons(alloc, &mut fields, pythons, abis, platforms)?;
    Ok(Some(without_first(alloc, &fields)?))
}

/// The three parts of a text with two `-`.
#[tactic(auto, unfolding(pywheel_core::specs::Texts::three_parts))]
fn three_parts(text: &str) -> Option<(&str, &str, &str)>
    ensures { option_map (λ p. (p.0.now, p.1.now, p.2.now)) result ≡ three_parts 45 text.now }
{
    let (python, rest) = cut(text)?;
    let (abi, platform) = cut(rest)?;
    if cut(platform).is_some() {
        return None;
    }
    Some((python, abi, platform))
}

/// What stands before the first `-`, and what stands after it.
fn cut(text: &str) -> Option<(&str, &str)>
    ensures { option_map (λ x. (x.0.now, x.1.now)) result ≡ cut_at 45 text.now }
{
    text.split_once('-')
}

fn push_pythons(
    alloc: Global,
    out: &mut Vec<u8>,
    pythons: &str,
    abis: &str,
    platforms: &str,
) -> Result<(), AllocError>
    ensures { OnOk result (out.new.items ≡ out.old.items
        ++ flat_map (python_fields (pieces abis.now) (pieces platforms.now)) (pieces pythons.now)) }
{
    for python in pythons.split('.') {
        push_abis(alloc, out, python, abis, platforms)?;
    }
    Ok(())
}

fn push_abis(
    alloc: Global,
    out: &mut Vec<u8>,
    python: &str,
    abis: &str,
    platforms: &str,
) -> Result<(), AllocError>
    ensures { OnOk result (out.new.items ≡ out.old.items
        ++ python_fields (pieces abis.now) (pieces platforms.now) python.now) }
{
    for abi in abis.split('.') {
        push_platforms(alloc, out, python, abi, platforms)?;
    }
    Ok(())
}

fn push_platforms(
    alloc: Global,
    out: &mut Vec<u8>,
    python: &str,
    abi: &str,
    platforms: &str,
) -> Result<(), AllocError>
    ensures { OnOk result (out.new.items ≡ out.old.items
        ++ abi_fields python.now (pieces platforms.now) abi.now) }
{
    for platform in platforms.split('.') {
        push_parts(alloc, out, python, abi, platform)?;
    }
    Ok(())
}

/// Pushes a TAB and the field of a tag of these parts.
fn push_parts(
    alloc: Global,
    out: &mut Vec<u8>,
    python: &str,
    abi: &str,
    platform: &str,
) -> Result<(), AllocError>
    ensures { OnOk result (out.new.items
        ≡ out.old.items ++ platform_field python.now abi.now platform.now) }
{
    let tag = format!(in alloc; "{python}-{abi}-{platform}")?;
    push_next_field(out, Some(tag.as_str()))
}

/// Pushes the fields of tags, each behind a TAB.
pub(crate) fn push_tags(alloc: Global, out: &mut Vec<u8>, tags: &[Tag]) -> Result<(), AllocError>
    ensures { OnOk result (out.new.items ≡ out.old.items ++ flat_map tag_field tags.now) }
{
    for tag in tags {
        push_parts(alloc, out, tag.python(), tag.abi(), tag.platform())?;
    }
    Ok(())
}
