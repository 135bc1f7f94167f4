//! What may go from thread to thread.

use crate::object::Bytes;
use pymark_core::{Environment, Marker};
use pyver_core::SpecifierSet;

/// Fits the types whose values may go to another thread.
fn may_cross<T: Send>() {}

/// The objects whose slots may go to another thread, as `pylock.h` says. It does nothing, and where
/// one of them isn't `Send`, the crate is refused.
fn kept_objects_may_cross() {
    may_cross::<Bytes>();
    may_cross::<SpecifierSet>();
    may_cross::<Marker>();
    may_cross::<Environment>();
}
