//! The text of a requirement, written from its parts (PEP 508, "Grammar").

ghost use Rattle.std.specs.Prelude.{Some, map, option_map, string_bytes};
ghost use Rattle.std.specs.Fmt.{WritesOnOk};
ghost use Rattle.std.specs.List.{flat_map};
ghost use Rattle.pymark_core.specs.Requirement.Text.{comma_extra, extras_text, marker_text};
ghost use Rattle.pymark_core.specs.Requirement.Text.{requirement_text, source_text};

use crate::marker::Marker;
use crate::requirement::Requirement;
use pyver_core::SpecifierSet;
use std::fmt;

/// Writes the extras in brackets, where there are any.
fn write_extras<W: fmt::Write>(f: &mut fmt::Formatter<W>, extras: &[String]) -> fmt::Result
    ensures { WritesOnOk W.write_str_gives f.old result
        (extras_text (map string_bytes extras.now)) f.new }
{
    let Some((first, rest)) = extras.split_first() else {
        return Ok(());
    };
    f.write_str("[")?;
    f.write_str(first.as_str())?;
    write_more_extras(f, rest)?;
    f.write_str("]")
}

/// Writes extras with a comma before each.
fn write_more_extras<W: fmt::Write>(f: &mut fmt::Formatter<W>, extras: &[String]) -> fmt::Result
    ensures { WritesOnOk W.write_str_gives f.old result
        (flat_map comma_extra (map string_bytes extras.now)) f.new }
{
    for extra in extras {
        f.write_str(",")?;
        f.write_str(extra.as_str())?;
    }
    Ok(())
}

/// Writes the URL, or the normal form of the specifiers.
fn write_source<W: fmt::Write>(
    f: &mut fmt::Formatter<W>,
    url: Option<&str>,
    set: &SpecifierSet,
) -> fmt::Result
    ensures { WritesOnOk W.write_str_gives f.old result
        (source_text (option_map (λ url. url.now) url.entry) set.now) f.new }
{
    match url {
        Some(url) => {
            f.write_str(" @ ")?;
            f.write_str(url)
        }
        None => f.write_str(set.text()),
    }
}

/// Writes the marker, where there is one.
fn write_marker<W: fmt::Write>(
    f: &mut fmt::Formatter<W>,
    url: Option<&str>,
    marker: Option<&Marker>,
) -> fmt::Result
    ensures { WritesOnOk W.write_str_gives f.old result
        (marker_text (option_map (λ url. url.now) url.entry)
        (option_map (λ marker. marker.now) marker.entry)) f.new }
{
    let Some(marker) = marker else {
        return Ok(());
    };
    f.write_str(if url.is_some() { " ; " } else { "; " })?;
    f.write_str(marker.text())
}

/// As it is displayed.
impl fmt::Debug for Requirement {
    fn fmt<W: fmt::Write>(&self, f: &mut fmt::Formatter<W>) -> fmt::Result {
        fmt::Display::fmt(self, f)
    }
}

/// The name, the extras in brackets, the normal form of the specifiers or ` @ ` and the URL, and
/// behind `;` the marker: `pip[a,b]>=1.0; os_name == 'nt'`. White space stands before `;` only
/// behind a URL. It takes no memory.
impl fmt::Display for Requirement {
    ghost output = { λ requirement. Some (requirement_text requirement) };

    fn fmt<W: fmt::Write>(&self, f: &mut fmt::Formatter<W>) -> fmt::Result {
        f.write_str(self.name())?;
        write_extras(f, self.extras())?;
        write_source(f, self.url(), self.set())?;
        write_marker(f, self.url(), self.marker())
    }
}
