//! pylock for C: one export for each call. `include/pylock.h` declares them, and says what C has to
//! uphold.
//!
//! A call answers a code, 0 where all went well, and leaves what it gives at a place that the
//! caller lends; a refused call leaves that place as it was. What is kept between calls stands in a
//! slot, which the caller zeroes first and frees last. A text goes into a buffer of the caller's;
//! one that is too small stays as it is, and the length that is needed is told.
//!
//! A name in normal form, from `tools/c/calls.c`:
//!
//! ```c
//! IS(pylock_name(TEXT("Foo__Bar"), out, sizeof out, &needed), PYLOCK_OK);
//! HOLDS(same(out, needed, "foo-bar") && out[7] == '#');
//! ```
#![tactic(auto)]

ghost use Rattle.std.specs.Prelude.{◌≡◌};

mod algebra;
mod answers;
mod edits;
mod environments;
mod expected;
mod markers;
mod program;
mod requirements;
mod runs;
mod sdists;
mod sessions;
mod sets;
mod strict;
mod tags;
mod targets;
mod text;
mod versions;
mod wheels;

/// The version of the interface.
#[unsafe(no_mangle)]
pub extern "C" fn pylock_abi() -> u32
    ensures { result ≡ 1 }
{
    1
}
