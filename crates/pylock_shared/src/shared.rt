//! A text that its holders share.

ghost use Rattle.std.specs.Prelude.{◌≡◌, IfOk, string_bytes};

use pytext::Text;
use std::alloc::{AllocError, Global};
use std::marker::Model;
use std::sync::Arc;

/// A text that its holders share. Contracts see the list of its bytes.
pub struct SharedText {
    text: Arc<Text>,
}

impl Model for SharedText {
    ghost use Rattle.std.specs.Prelude.{List, ℕ};

    ghost Value = { List ℕ };

    ghost view = { λ s. s.text.value };
}

impl Drop for SharedText {
    fn drop(self) {
        let SharedText { text: _ } = self;
    }
}

impl SharedText {
    /// This text, which is moved. It takes memory for the count of its holders.
    pub fn new(alloc: Global, text: String) -> Result<SharedText, AllocError>
        ensures { IfOk result (λ shared. shared ≡ string_bytes text) }
    {
        let text = Arc::new(alloc, Text::new(text))?;
        Ok(SharedText { text })
    }

    /// A copy of the text.
    pub fn copy_of(alloc: Global, text: &str) -> Result<SharedText, AllocError>
        ensures { IfOk result (λ shared. shared ≡ text.now) }
    {
        SharedText::new(alloc, String::from_str(alloc, text)?)
    }

    /// The text.
    pub fn as_str(&self) -> &str
        ensures { result.now ≡ self.now }
    {
        self.text.as_str()
    }
}

/// One more holder. It takes no memory; it is refused only where 2^63 stand.
impl Clone for SharedText {
    ghost is_clone = { λ shared copy. copy ≡ shared };

    fn clone(&self) -> Result<SharedText, AllocError> {
        Ok(SharedText {
            text: self.text.clone()?,
        })
    }
}
