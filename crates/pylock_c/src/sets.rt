//! Versions, specifier sets and names (PEP 440, PEP 503).

ghost use Rattle.std.specs.Prelude.{◌≡◌, ℕ, IfNone, IfSome, None, Some, pos};
ghost use Rattle.pytext.specs.Agreement.{Gives};
ghost use Rattle.pylock_slots.specs.Answer.{Tells, Writes};
ghost use Rattle.pylock_c.specs.Sets.{admits_in, admits_of, is_name_of, name_of, parsed, set_in};
ghost use Rattle.pylock_c.specs.Sets.{set_of, set_text_in, spans_of, version_of};
ghost use Rattle.pylock_slots.specs.Slot.{kept_object, object};
ghost use Rattle.pylock_slots.specs.declared.refusal.Refusal.TheVariants.{Memory};

use pylock_slots::{OK, Object, Refusal, Slot, keep_object, tell_value, text, write, write_made};
use pylock_values::set_spans;
use pyver_core::{SpecifierSet, Version, is_name, normal_name, write_normal_name};
use std::alloc::Global;

pub(crate) fn version(alloc: Global, bytes: &[u8]) -> Result<Version, Refusal>
    ensures { Gives Memory (λ version. version) result (version_of bytes.now) }
{
    Ok(Version::parse(alloc, text(bytes)?)?)
}

fn set(alloc: Global, bytes: &[u8]) -> Result<SpecifierSet, Refusal>
    ensures { Gives Memory (λ set. set) result (set_of bytes.now) }
{
    Ok(SpecifierSet::parse(alloc, text(bytes)?)?)
}

fn spans(alloc: Global, bytes: &[u8]) -> Result<Vec<usize>, Refusal>
    ensures { Gives Memory (λ spans. spans.items) result (spans_of bytes.now) }
{
    Ok(set_spans(alloc, text(bytes)?)?)
}

/// Where the specifiers of a set stand in its text.
#[unsafe(no_mangle)]
pub extern "C" fn pylock_set_spans(
    alloc: Global,
    text: &[u8],
    out: &mut [usize],
    needed: &mut usize,
) -> i32
    ensures { Writes (spans_of text.now) out.old out.new needed.old needed.new result }
{
    write_made(spans(alloc, text), out, needed)
}

fn admits(alloc: Global, specifiers: &[u8], bytes: &[u8]) -> Result<bool, Refusal>
    ensures { Gives Memory (λ admits. admits) result (admits_of specifiers.now bytes.now) }
{
    let set = set(alloc, specifiers)?;
    let version = version(alloc, bytes)?;
    Ok(set.admits(&version))
}

/// Whether a set admits a version; the set's text is judged first.
#[unsafe(no_mangle)]
pub extern "C" fn pylock_admits(alloc: Global, set: &[u8], version: &[u8], admits: &mut bool) -> i32
    ensures { Tells (admits_of set.now version.now) admits.old admits.new result }
{
    tell_value(self::admits(alloc, set, version), admits)
}

fn name(alloc: Global, bytes: &[u8]) -> Result<Vec<u8>, Refusal>
    ensures { Gives Memory (λ name. name.items) result (name_of bytes.now) }
{
    Ok(normal_name(alloc, text(bytes)?)?.into_bytes())
}

/// Writes the normal form of a name at the front of the buffer, where that has room for the text,
/// and answers how long it is. It takes no memory.
fn write_name(bytes: &[u8], out: &mut [u8]) -> Option<usize>
    ensures written { IfSome result (λ count. (needed : ℕ)
        → Writes (name_of bytes.now) out.old out.new needed count (pos 0)) }
    ensures kept { IfNone result (out.new ≡ out.old) }
{
    write_normal_name(text(bytes).ok()?, out)
}

fn is_name_text(bytes: &[u8]) -> Result<bool, Refusal>
    ensures { Gives Memory (λ is. is) result (is_name_of bytes.now) }
{
    Ok(is_name(text(bytes)?))
}

/// Whether the text is a name.
#[unsafe(no_mangle)]
pub extern "C" fn pylock_is_name(text: &[u8], is_name: &mut bool) -> i32
    ensures { Tells (is_name_of text.now) is_name.old is_name.new result }
{
    tell_value(is_name_text(text), is_name)
}

/// The normal form of the text as a name.
#[tactic(auto, using(pylock_slots::proofs::AnswerLemmas::writes_later))]
#[unsafe(no_mangle)]
pub extern "C" fn pylock_name(alloc: Global, text: &[u8], out: &mut [u8], needed: &mut usize) -> i32
    ensures { Writes (name_of text.now) out.old out.new needed.old needed.new result }
{
    match write_name(text, out) {
        Some(count) => {
            *needed = count;
            OK
        }
        None => write_made(name(alloc, text), out, needed),
    }
}

fn parsed(alloc: Global, bytes: &[u8]) -> Result<Object, Refusal>
    ensures { Gives Memory (λ kept. Some kept) result (parsed bytes.now) }
{
    Ok(Object::Set(set(alloc, bytes)?))
}

/// Reads a set into its slot.
#[unsafe(no_mangle)]
pub extern "C" fn pylock_set_parse(alloc: Global, set: &mut Slot, text: &[u8]) -> i32
    ensures { Tells (parsed text.now) (object set.old) (object set.new) result }
{
    keep_object(alloc, parsed(alloc, text), set)
}

pub(crate) fn set_in(kept: &Option<Box<Object>>) -> Result<&SpecifierSet, Refusal>
    ensures { Gives Memory (λ set. set.now) result (set_in (kept_object kept.now)) }
{
    match kept.as_deref() {
        Some(Object::Set(set)) => Ok(set),
        _ => Err(Refusal::Empty),
    }
}

fn set_text_in(kept: &Option<Box<Object>>) -> Result<&[u8], Refusal>
    ensures { Gives Memory (λ text. text.now) result (set_text_in (kept_object kept.now)) }
{
    Ok(set_in(kept)?.text().as_bytes())
}

/// The normal form of a set.
#[unsafe(no_mangle)]
pub extern "C" fn pylock_set_text(
    alloc: Global,
    set: &mut Slot,
    out: &mut [u8],
    needed: &mut usize,
) -> i32
    ensures kept { object set.new ≡ object set.old }
    ensures told { Writes (set_text_in (object set.old)) out.old out.new needed.old needed.new
        result }
{
    let kept = set.take(alloc);
    let code = write(set_text_in(&kept), out, needed);
    set.put(alloc, kept);
    code
}

fn admits_in(alloc: Global, kept: &Option<Box<Object>>, bytes: &[u8]) -> Result<bool, Refusal>
    ensures { Gives Memory (λ admits. admits) result (admits_in (kept_object kept.now) bytes.now) }
{
    let set = set_in(kept)?;
    let version = version(alloc, bytes)?;
    Ok(set.admits(&version))
}

/// Whether a kept set admits a version.
#[unsafe(no_mangle)]
pub extern "C" fn pylock_set_admits(
    alloc: Global,
    set: &mut Slot,
    version: &[u8],
    admits: &mut bool,
) -> i32
    ensures kept { object set.new ≡ object set.old }
    ensures told { Tells (admits_in (object set.old) version.now) admits.old admits.new result }
{
    let kept = set.take(alloc);
    let code = tell_value(admits_in(alloc, &kept, version), admits);
    set.put(alloc, kept);
    code
}

/// Empties the slot.
#[unsafe(no_mangle)]
pub extern "C" fn pylock_set_free(alloc: Global, set: &mut Slot)
    ensures { object set.new ≡ None }
{
    let _kept = set.take(alloc);
}
