//! Tags, wheel names and the choice of a wheel (PEP 425, PEP 427), and sdist names (PEP 625).
//!
//! In a list of tags the most preferred stands first, and the position of a tag is its rank. A name
//! that can't be read may stand among the wheels as `None`, and is never chosen. `README.md` says
//! where to begin; of what is defined, `specs/Wheel/Grammar.antt` and `specs/Choice.antt` say most.
//!
//! The best of some wheels, or `None`, from `crates/grammar_cases/src/wheels.rt`:
//!
//! ```rust
//! let tags = tag_list(alloc, text(alloc, case, "tags")?.as_str())?;
//! Ok(format!(in alloc; "{:?}", choose(&wheels, &tags))?)
//! ```
#![tactic(auto)]

mod build;
mod choice;
mod cut;
mod display;
mod error;
mod halves;
pub mod laws;
mod marks;
mod reader;
mod sdist;
mod span;
mod tag;
mod tag_list;
mod tag_set;
mod target;
mod wheel;

pub use choice::{best_rank, choose};
pub use display::tags_text;
pub use error::{SdistError, TagError, TagListError, TargetError, WheelError};
pub use reader::WheelReader;
pub use sdist::SdistName;
pub use tag::Tag;
pub use tag_list::TagList;
pub use target::Target;
pub use target::cpython::CPython;
pub use target::platform::{LinuxArch, MacArch, Platform, WindowsArch};
pub use wheel::WheelName;
