//! The head of a lock (PEP 751).

ghost use Rattle.pytext.specs.Agreement.{Gives};
ghost use Rattle.pylock_run.specs.declared.report.opening.OpenError.TheVariants as unopened;
ghost use Rattle.pylock_slots.specs.Head.{head_of};

use crate::object::{Bytes, Object};
use pylock_core::{Lock, LockError};
use pylock_documents::{document, head_document};
use pylock_run::OpenError;
use std::alloc::Global;

#[tactic(auto, unfolding(crate::specs::Head::head_of))]
/// The head of a lock, as a JSON document, or its refusal. It takes memory for the lock and the
/// document.
pub fn lock_head(alloc: Global, bytes: &[u8]) -> Result<Object, OpenError>
    ensures { Gives unopened.Memory (λ kept. kept) result (head_of bytes.now) }
{
    match Lock::read(alloc, bytes) {
        Ok(lock) => {
            let head = document(alloc, head_document(alloc, lock.head())?)?;
            Ok(Object::Text(Bytes::new(head.into_bytes())))
        }
        Err(LockError::Memory) => Err(OpenError::Memory),
        Err(error) => Err(OpenError::Lock(error)),
    }
}
