//! Laws of the definitions alone: each function's contract is a law, and its body is empty.

ghost use Rattle.std.specs.Prelude.{◌≡◌, ℕ, List, Err};
ghost use Rattle.pylock_readers.specs.Entry.Reading.{entry_of};
ghost use Rattle.pylock_readers.specs.Environment.{env_of};
ghost use Rattle.pylock_readers.specs.Lock.Reading.{lock_of};

use crate::{EntryError, EnvError, LockError};

/// The reading of a lock, of an entry or of an environment is never out of memory, nor is that of
/// an entry of a lock: only a call may answer it.
pub fn answers_are_never_out_of_memory()
    ensures lock { (bytes : List ℕ) → lock_of bytes ≡ Err LockError.Memory → ⊥ }
    ensures entry_of_lock { (bytes : List ℕ) (place : ℕ)
        → lock_of bytes ≡ Err (LockError.Entry place EntryError.Memory) → ⊥ }
    ensures entry { (text : List ℕ) → entry_of text ≡ Err EntryError.Memory → ⊥ }
    ensures environment { (bytes : List ℕ) → env_of bytes ≡ Err EnvError.Memory → ⊥ }
{}
