//! Keys that stand before a value.
ghost use Rattle.std.specs.Prelude.{[], string_bytes};
ghost use Rattle.toml.specs.Parse.{key_equals};
ghost use Rattle.pytoml.specs.Inner.{Reads, Shortens};

use crate::fault::Unread;
use crate::text::{bare_len, past_ws};
use std::alloc::Global;
use toml_parser::text::{first, skip};
use toml_parser::{Key, dotted_key};

/// A key of one part, `=` and the white space after it.
pub(crate) fn key_equals(alloc: Global, s: &str) -> Result<(String, &str), Unread>
    ensures value { Reads (λ key. ([], string_bytes key)) result (key_equals s.now) }
    ensures shorter { Shortens s.now result }
{
    let (name, rest) = s.split_at(bare_len(s.as_bytes()));
    let rest = past_ws(rest);
    if name.is_empty() || first(rest) != b'=' {
        return other_key_equals(alloc, s);
    }
    Ok((String::from_str(alloc, name)?, past_ws(skip(rest, 1))))
}

/// The same of a key in quotes, or with white space that `toml_parser` knows.
fn other_key_equals(alloc: Global, s: &str) -> Result<(String, &str), Unread>
    ensures value { Reads (λ key. ([], string_bytes key)) result (key_equals s.now) }
    ensures shorter { Shortens s.now result }
{
    let (key, rest) = match dotted_key(alloc, s) {
        Ok(read) => read,
        Err(refusal) => return Err(Unread::of(refusal)),
    };
    let Key { path, last } = key;
    if !path.is_empty() || first(rest) != b'=' {
        return Err(Unread::Shape);
    }
    Ok((last, past_ws(skip(rest, 1))))
}
