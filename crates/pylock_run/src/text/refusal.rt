//! Refusals of lines, of locks and of environments.

ghost use Rattle.std.specs.Prelude.{◌≡◌, ◌++◌, ◌∷◌, [], OnOk, codes};
ghost use Rattle.pylock_run.specs.Text.Field.{fields_text};
ghost use Rattle.pylock_run.specs.Text.Refusal.{head_word, key_word, entry_word, lock_words};
ghost use Rattle.pylock_run.specs.Text.Refusal.{lock_text, environment_words, environment_text};
ghost use Rattle.pylock_run.specs.Text.Refusal.{line_refusal_text, line_word, refusal_text};
ghost use Rattle.pylock_run.specs.Text.Refusal.{refusal_words, side_text};

use crate::line::refusal::LineRefusal;
use crate::report::opening::OpenError;
use crate::text::field::{push_decimal, push_last_word, push_word};
use pylock_core::{EntryError, EntryKey, EnvError, HeadKey, LockError};
use std::alloc::AllocError;

/// Pushes the refusal of a line, whose number counts from 1.
pub fn push_line_refusal(
    out: &mut Vec<u8>,
    number: u64,
    refusal: LineRefusal,
) -> Result<(), AllocError>
    ensures { OnOk result (out.new.items ≡ out.old.items ++ line_refusal_text number refusal) }
{
    out.extend_from_slice(b"refused ")?;
    push_decimal(out, number)?;
    push_last_word(out, line_word(refusal).as_bytes())
}

/// The word of a line's refusal.
pub fn line_word(refusal: LineRefusal) -> &'static str
    ensures { result.now ≡ line_word refusal }
{
    match refusal {
        LineRefusal::Long => "long",
        LineRefusal::Text => "text",
        LineRefusal::Command => "command",
        LineRefusal::Argument => "argument",
        LineRefusal::Variable => "variable",
        LineRefusal::Extra => "extra",
        LineRefusal::Group => "group",
        LineRefusal::Tag => "tag",
        LineRefusal::Toml => "toml",
        LineRefusal::Entry => "entry",
        LineRefusal::TooMany => "too-many",
        LineRefusal::NoEntry => "no-entry",
        LineRefusal::Name => "name",
        LineRefusal::Memory => "memory",
    }
}

/// Pushes the line of a refused lock or environment. Out of memory prints nothing.
pub fn push_refusal(out: &mut Vec<u8>, error: &OpenError) -> Result<(), AllocError>
    ensures { OnOk result (out.new.items ≡ out.old.items ++ refusal_text error.now) }
{
    match error {
        OpenError::Lock(error) => push_lock_error(out, error),
        OpenError::Environment(error) => push_environment_error(out, error),
        OpenError::Memory => Ok(()),
    }
}

/// Pushes the line of a refused lock.
pub fn push_lock_error(out: &mut Vec<u8>, error: &LockError) -> Result<(), AllocError>
    ensures { OnOk result (out.new.items ≡ out.old.items ++ lock_text error.now) }
{
    out.extend_from_slice(b"lock")?;
    push_words(out, lock_words(error))
}

/// Pushes the line of a refused lock that is one of two: `side` tells which it is.
pub fn push_side_error(out: &mut Vec<u8>, side: &str, error: &LockError) -> Result<(), AllocError>
    ensures { OnOk result (out.new.items ≡ out.old.items ++ side_text side.now error.now) }
{
    out.extend_from_slice(b"lock")?;
    push_word(out, side.as_bytes())?;
    push_words(out, lock_words(error))
}

/// Pushes the line of a refused environment.
pub fn push_environment_error(out: &mut Vec<u8>, error: &EnvError) -> Result<(), AllocError>
    ensures { OnOk result (out.new.items ≡ out.old.items ++ environment_text error.now) }
{
    out.extend_from_slice(b"environment")?;
    push_words(out, environment_words(error))
}

/// The words of a refusal of a lock or an environment: what is wrong, the number of the entry or
/// the tag, which counts from 1, and what is wrong with that entry, or which key of the head is
/// wrong.
#[derive(Clone, Copy)]
pub struct RefusalWords {
    /// What is wrong.
    pub word: &'static str,
    /// Of which entry or tag.
    pub number: Option<u64>,
    /// What is wrong there.
    pub detail: Option<&'static str>,
}

impl RefusalWords {
    /// One word alone.
    fn one(word: &'static str) -> RefusalWords
        ensures { refusal_words result ≡ word.now ∷ [] }
    {
        RefusalWords {
            word,
            number: None,
            detail: None,
        }
    }
}

/// The words of a refused lock. It takes no memory.
pub fn lock_words(error: &LockError) -> RefusalWords
    ensures { refusal_words result ≡ lock_words error.now }
{
    match error {
        LockError::NotText => RefusalWords::one("not-text"),
        LockError::Toml => RefusalWords::one("toml"),
        LockError::LockVersion => RefusalWords::one("lock-version"),
        LockError::CreatedBy => RefusalWords::one("created-by"),
        LockError::Head(key) => RefusalWords {
            word: "head",
            number: None,
            detail: Some(head_word(key)),
        },
        LockError::Packages => RefusalWords::one("packages"),
        LockError::TooMany => RefusalWords::one("too-many"),
        LockError::Entry(position, error) => RefusalWords {
            word: "entry",
            number: Some(*position as u64),
            detail: Some(entry_word(error)),
        },
        LockError::Memory => RefusalWords::one("memory"),
    }
}

/// The words of a refused environment. It takes no memory.
pub fn environment_words(error: &EnvError) -> RefusalWords
    ensures { refusal_words result ≡ environment_words error.now }
{
    match error {
        EnvError::Json => RefusalWords::one("json"),
        EnvError::Shape => RefusalWords::one("shape"),
        EnvError::Tag(position) => RefusalWords {
            word: "tag",
            number: Some(*position as u64),
            detail: None,
        },
        EnvError::Python => RefusalWords::one("python"),
        EnvError::Platform => RefusalWords::one("platform"),
        EnvError::Memory => RefusalWords::one("memory"),
    }
}

/// Pushes the words as fields, and LF.
fn push_words(out: &mut Vec<u8>, words: RefusalWords) -> Result<(), AllocError>
    ensures { OnOk result (out.new.items
        ≡ out.old.items ++ fields_text (refusal_words words) ++ codes "\n") }
{
    push_word(out, words.word.as_bytes())?;
    if let Some(number) = words.number {
        out.push(b'\t')?;
        push_decimal(out, number)?;
    }
    if let Some(detail) = words.detail {
        push_word(out, detail.as_bytes())?;
    }
    out.push(b'\n')?;
    Ok(())
}

/// The word of a key of the head.
fn head_word(key: &HeadKey) -> &'static str
    ensures { result.now ≡ head_word key.now }
{
    match key {
        HeadKey::Environments => "environments",
        HeadKey::RequiresPython => "requires-python",
        HeadKey::Extras => "extras",
        HeadKey::DependencyGroups => "dependency-groups",
        HeadKey::DefaultGroups => "default-groups",
    }
}

/// The word of an entry's refusal.
pub(crate) fn entry_word(error: &EntryError) -> &'static str
    ensures { result.now ≡ entry_word error.now }
{
    match error {
        EntryError::Toml => "toml",
        EntryError::NotTable => "not-table",
        EntryError::Name => "name",
        EntryError::Key(key) => key_word(key),
        EntryError::Marker => "marker",
        EntryError::RequiresPython => "requires-python",
        EntryError::Memory => "memory",
    }
}

fn key_word(key: &EntryKey) -> &'static str
    ensures { result.now ≡ key_word key.now }
{
    match key {
        EntryKey::Version => "version",
        EntryKey::Vcs => "vcs",
        EntryKey::Directory => "directory",
        EntryKey::Archive => "archive",
        EntryKey::Sdist => "sdist",
        EntryKey::Wheels => "wheels",
    }
}
