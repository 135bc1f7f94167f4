//! What the exports of a static crate do with what C keeps: slots with an object or none, the codes
//! of refusals, the texts and sessions in slots, and the program as one call.
//!
//! A function here does what an export does, and a static crate gives it its name: an export has to
//! stand in the static crate itself. From `crates/pylock_main/src/sessions.rt`:
//!
//! ```rust
//! obey_slot(alloc, slot, read_line(alloc, line), judged)
//! ```
#![tactic(auto)]

mod answer;
mod asked;
mod head;
mod kept;
mod kept_run;
mod kept_session;
mod loose;
mod object;
mod opening;
mod program;
mod refusal;
mod runs;
mod sessions;
mod shown;
mod slot;
mod texts;
mod threads;

pub use answer::{
    OK, edit_code, keep_object, keep_with, put_both, tell_value, write, write_made, write_with,
};
pub use asked::{asked_of_select, keep_asked};
pub use head::lock_head;
pub use kept_run::KeptRun;
pub use kept_session::{KeptSession, NamesEdit};
pub use object::{Bytes, Object};
pub use opening::{leave_line, leave_object, open_into, open_refusal};
pub use program::{Joined, Left, leave_run, run_joined};
pub use refusal::Refusal;
pub use runs::{begin_run_in, end_run_in, feed_run_in};
pub use sessions::{edit_names_slot, obey_slot, started};
pub use shown::{form_of, session_in, show_session};
pub use slot::Slot;
pub use texts::{copy_text, keep_text, tell_text_length, text, text_in};
