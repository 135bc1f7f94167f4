//! The order key of a version (PEP 440, "Summary of permitted suffixes and relative ordering").
//! Each code keeps its order whatever stands behind it, so the law is proved part by part.

ghost use Rattle.std.specs.Prelude.{◌≡◌, ◌∷◌, ◌++◌, IfOk, OnOk};
ghost use Rattle.pyver_core.specs.Inner.PartsRef.{parts_of};
ghost use Rattle.pyver_core.specs.Inner.Phase.{number_of, rank_of};
ghost use Rattle.pyver_core.specs.Version.OrderKey.{list_key, number_key, optional_key, order_key};
ghost use Rattle.pyver_core.specs.Version.OrderKey.{segment_key};

use super::order::{Phase, phase_of, without_trailing_zeros};
use crate::version::{LocalPart, PartsRef, PreKind, Version};
use std::alloc::{AllocError, Global};

/// The room that a key begins with, which nearly each keeps to.
const USUAL_LENGTH: usize = 24;

/// A number below this is one byte.
const SHORT_END: u128 = 253;

/// Stands before a greater number, once for each byte at its end.
const LONG: u8 = 254;

/// Less than what a number or a segment begins with.
const LEAST: u8 = 0;

/// Greater than what a number begins with.
const GREATEST: u8 = 255;

impl Version {
    /// The order key: bytes that stand, compared one by one and a proper prefix first, as the
    /// versions do (PEP 440, "Summary of permitted suffixes and relative ordering"). So whatever
    /// compares bytes can sort versions and look them up. Equal versions have one key, `1.0` and
    /// `1.0.0` too, and no key is a proper prefix of another, so that other bytes may follow it.
    /// It takes memory for the key.
    pub fn order_key(&self, alloc: Global) -> Result<Vec<u8>, AllocError>
        ensures { IfOk result (λ key. key.items ≡ order_key self.now) }
    {
        key_of(alloc, &self.parts())
    }
}

#[tactic(auto, using(crate::proofs::Lemmas::Version::Order::Phases::phases))]
pub(super) fn key_of(alloc: Global, parts: &PartsRef<'_>) -> Result<Vec<u8>, AllocError>
    ensures { IfOk result (λ key. key.items ≡ order_key (parts_of parts.now)) }
{
    let mut key = Vec::with_capacity(alloc, USUAL_LENGTH)?;
    push_number(&mut key, parts.epoch)?;
    push_numbers(&mut key, without_trailing_zeros(parts.release))?;
    push_phase(&mut key, phase_of(parts))?;
    push_optional(&mut key, parts.post, LEAST)?;
    push_optional(&mut key, parts.dev, GREATEST)?;
    push_local(&mut key, parts.local)?;
    Ok(key)
}

#[tactic(auto, using(crate::proofs::Lemmas::Version::OrderKey::pushed_alone))]
#[inline(always)]
fn push_number(key: &mut Vec<u8>, number: u128) -> Result<(), AllocError>
    ensures { OnOk result (key.new.items ≡ key.old.items ++ number_key number) }
{
    // Nearly each number is one byte.
    if number < SHORT_END {
        Ok(key.push(number as u8 + 1)?)
    } else {
        push_long(key, number)
    }
}

/// Writes a number of any size.
#[tactic(auto, using(crate::proofs::Lemmas::Version::OrderKey::pushed_short))]
fn push_long(key: &mut Vec<u8>, number: u128) -> Result<(), AllocError>
    ensures { OnOk result (key.new.items ≡ key.old.items ++ number_key number) }
{
    // The bytes that are taken off the end of the number stand in `low` from `start` on.
    let mut low = [0u8; 16];
    let mut start = low.len();
    let mut high = number;
    while high >= SHORT_END {
        key.push(LONG)?;
        start -= 1;
        low[start] = (high % 256) as u8;
        high /= 256;
    }
    key.push(high as u8 + 1)?;
    key.extend_from_slice(low.split_at(start).1)
}

fn push_numbers(key: &mut Vec<u8>, numbers: &[u128]) -> Result<(), AllocError>
    ensures { OnOk result (key.new.items ≡ key.old.items ++ list_key number_key numbers.now) }
{
    for number in numbers {
        push_number(key, *number)?;
    }
    Ok(key.push(LEAST)?)
}

fn push_phase(key: &mut Vec<u8>, phase: Phase) -> Result<(), AllocError>
    ensures { OnOk result (key.new.items
        ≡ key.old.items ++ (rank_of phase ∷ number_key (number_of phase))) }
{
    let (rank, number) = match phase {
        Phase::Developmental => (0, 0),
        Phase::Pre(PreKind::A, number) => (1, number),
        Phase::Pre(PreKind::B, number) => (2, number),
        Phase::Pre(PreKind::Rc, number) => (3, number),
        Phase::Final => (4, 0),
    };
    key.push(rank)?;
    push_number(key, number)
}

/// A number, or the byte that stands for none.
fn push_optional(key: &mut Vec<u8>, number: Option<u128>, absent: u8) -> Result<(), AllocError>
    ensures { OnOk result (key.new.items ≡ key.old.items ++ optional_key absent number) }
{
    match number {
        Some(number) => push_number(key, number),
        None => Ok(key.push(absent)?),
    }
}

fn push_local(key: &mut Vec<u8>, local: &[LocalPart]) -> Result<(), AllocError>
    ensures { OnOk result (key.new.items ≡ key.old.items ++ list_key segment_key local.now) }
{
    for segment in local {
        push_segment(key, segment)?;
    }
    Ok(key.push(LEAST)?)
}

fn push_segment(key: &mut Vec<u8>, segment: &LocalPart) -> Result<(), AllocError>
    ensures { OnOk result (key.new.items ≡ key.old.items ++ segment_key segment.now) }
{
    match segment {
        LocalPart::Text(label) => {
            key.push(1)?;
            push_text(key, label.as_str().as_bytes())
        }
        LocalPart::Number(number) => {
            key.push(2)?;
            push_number(key, *number)
        }
    }
}

fn push_text(key: &mut Vec<u8>, text: &[u8]) -> Result<(), AllocError>
    ensures { OnOk result (key.new.items ≡ key.old.items ++ list_key number_key text.now) }
{
    for byte in text {
        push_number(key, u128::from(*byte))?;
    }
    Ok(key.push(LEAST)?)
}
