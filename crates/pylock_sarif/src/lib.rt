//! Findings as a SARIF 2.1.0 document, which code hosts show beside the lines of a lock.
//!
//! From `crates/report_cases/src/sarif.rt`:
//!
//! ```rust
//! let run = Run {
//!     version: "1.0",
//!     lock,
//!     rules,
//!     results,
//! };
//! let text = sarif_document(alloc, &run)?.into_json().to_text(alloc)?;
//! ```
#![tactic(auto)]

mod document;
mod rule;
mod run;
mod uri;

pub use document::sarif_document;
pub use rule::{Level, RULES, Rule, rule_of};
pub use run::{Run, SarifResult, TextPlace};
