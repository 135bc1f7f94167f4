//! The namespace of an SPDX document (SPDX 2.3, section 6.5).

ghost use Rattle.std.specs.Prelude.{◌≡◌, IfOk, string_bytes};
ghost use Rattle.pylock_bill.specs.Namespace.{namespace_of};

use sha2::{Digest, Sha256};
use std::alloc::{AllocError, Global};

/// What a namespace begins with.
const PREFIX: &str = "https://spdx.org/spdxdocs/pylock-";

/// The namespace of the document that is made at this time of this plan, as it is printed, and of
/// this lock: it ends with the SHA-256 of the three. So the same three give the same namespace, and
/// a document that differs has another. It takes memory for the text, twice while it is made.
pub fn namespace_of(
    alloc: Global,
    created: &str,
    plan: &[u8],
    lock: &[u8],
) -> Result<String, AllocError>
    ensures { IfOk result (λ text. string_bytes text ≡ namespace_of created.now plan.now lock.now) }
{
    let mut hasher = Sha256::new();
    hasher.update(created.as_bytes());
    hasher.update(plan);
    hasher.update(lock);
    let digest = hasher.finalize();
    let digits = hex::encode(alloc, digest)?;
    let mut text = String::from_str(alloc, PREFIX)?;
    text.push_str(digits.as_str())?;
    Ok(text)
}
