//! What the name of a wheel says, part by part (PEP 427, "File name convention").

ghost use Rattle.std.specs.Prelude.{◌≡◌, ◌++◌, IfOk, OnOk, string_bytes};
ghost use Rattle.std.specs.List.{flat_map};
ghost use Rattle.pyver_core.specs.Version.Normal.{decimal_text};
ghost use Rattle.pylock_values.specs.Record.{next_field};
ghost use Rattle.pylock_values.specs.WheelParts.{build_parts, wheel_parts_record};

use crate::tags::push_tags;
use pylock_run::{push_field, push_next_field};
use pyver_core::normal_name;
use pywheel_core::WheelName;
use std::alloc::{AllocError, Global};

/// The record of a wheel's name: the normal forms of the name and the version; the number of the
/// build tag and what stands behind its digits, both absent where there is none; and each tag as a
/// field of its own. It takes memory for the record.
pub fn wheel_parts_record(alloc: Global, wheel: &WheelName) -> Result<Vec<u8>, AllocError>
    ensures { IfOk result (λ made. made.items ≡ wheel_parts_record wheel.now) }
{
    let name = normal_name(alloc, wheel.name())?;
    let mut out = Vec::new(alloc);
    push_field(&mut out, Some(name.as_str()))?;
    push_next_field(&mut out, Some(wheel.version().text()))?;
    push_build(alloc, &mut out, wheel)?;
    push_tags(alloc, &mut out, wheel.tags())?;
    Ok(out)
}

/// Pushes the two fields of the build tag, each behind a TAB.
fn push_build(alloc: Global, out: &mut Vec<u8>, wheel: &WheelName) -> Result<(), AllocError>
    ensures { OnOk result (out.new.items ≡ out.old.items
        ++ flat_map next_field (build_parts wheel.now.build)) }
{
    let Some((number, rest)) = wheel.build() else {
        push_next_field(out, None)?;
        return push_next_field(out, None);
    };
    let number = number_text(alloc, number)?;
    push_next_field(out, Some(number.as_str()))?;
    push_next_field(out, Some(rest))
}

#[tactic(auto, using(pyver_core::proofs::Lemmas::Version::Normal::Decimal::decimal_is_text))]
fn number_text(alloc: Global, number: u128) -> Result<String, AllocError>
    ensures { IfOk result (λ text. string_bytes text ≡ decimal_text number) }
{
    format!(in alloc; "{number}")
}
