//! Diagnostics of what is left out of a plan, or of files.

use crate::diagnostics::tell_made;
use pylock_run::Sink;
use std::alloc::Global;

/// Tells how many are left out of what is named, if any.
pub(crate) fn tell_left_out<N: Sink>(alloc: Global, diagnostics: &mut N, of: &str, count: usize) {
    if count > 0 {
        let note = format!(in alloc; "left out of the {of}: {count}");
        tell_made(alloc, diagnostics, note);
    }
}
