//! The base of URLs: what a form has in the place of a URL's beginning.
ghost use Rattle.std.specs.Prelude.{◌≡◌, IfOk, option_map};
ghost use Rattle.clap.specs.Words.{found_of, rows_of};
ghost use Rattle.pylock_command.specs.Base.{IsBase, around_equals, base_misuse, base_named};
ghost use Rattle.pylock_command.specs.Base.{base_texts, ends_in_slash, has_urls};
ghost use Rattle.pylock_command.specs.Misuse.{Refuses};

use crate::argument::{Argument, Kind};
use crate::misuse::Misuse;
use crate::texts::text_at;
use clap::ArgMatches;

/// What is put in the place of a URL's beginning. Both texts end in `/`, so that `https://a.b/` is
/// no beginning of `https://a.b.c/`.
#[derive(Clone, Copy, Debug, PartialEq, Eq)]
pub struct Base<'a> {
    /// What a URL begins with. It has no `=`.
    pub from: &'a str,
    /// What stands in its place.
    pub to: &'a str,
}

pub(crate) const BASE: Argument = Argument {
    name: "base",
    kind: Kind::Single("FROM=TO"),
    help: "Write TO in a form where a URL begins with FROM",
};

/// The base that the words give, which they may do beside a form that has URLs of files.
pub(crate) fn base_of<'a>(found: &ArgMatches<'a>) -> Result<Option<Base<'a>>, Misuse>
    ensures base { IfOk result (IsBase (rows_of (found_of found.now))) }
    ensures refused { Refuses (base_misuse (rows_of (found_of found.now))) result }
{
    let Some(text) = text_at(found, "base") else {
        return Ok(None);
    };
    if !has_urls(found) {
        return Err(Misuse::NoUrls);
    }
    match base_named(text) {
        Some(base) => Ok(Some(base)),
        None => Err(Misuse::NoBase),
    }
}

/// Whether the words ask for a form that has URLs of files.
fn has_urls(found: &ArgMatches<'_>) -> bool
    ensures { result ≡ has_urls (rows_of (found_of found.now)) }
{
    match text_at(found, "format") {
        Some(word) => word == "requirements" || word == "aria2" || word == "urls",
        None => false,
    }
}

/// The base that a text names.
fn base_named(text: &str) -> Option<Base<'_>>
    ensures { option_map base_texts result ≡ base_named text.now }
{
    let (from, to) = around_equals(text)?;
    if ends_in_slash(from) && ends_in_slash(to) {
        Some(Base { from, to })
    } else {
        None
    }
}

fn ends_in_slash(text: &str) -> bool
    ensures { result ≡ ends_in_slash text.now }
{
    text.as_bytes().ends_with(b"/")
}

/// What stands before the first `=` and behind it.
fn around_equals(text: &str) -> Option<(&str, &str)>
    ensures { option_map (λ parts. (parts.0.now, parts.1.now)) result ≡ around_equals text.now }
{
    text.split_once('=')
}
