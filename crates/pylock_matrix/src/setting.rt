//! Settings of variables.

use pymark_core::Var;
use pytext::Text;

/// A text that a variable is given on every target, in place of the target's own.
#[derive(Debug, Drop)]
pub struct Setting {
    /// The variable.
    pub variable: Var,
    /// Its text.
    pub text: Text,
}
