//! What is wrong with a part of a lock or of an environment.

use crate::diagnostic::Diagnostic;
use crate::shown_value::ShownValue;
use pylock_shown::{Shown, hidden};
use pylock_spans::{Place, Places, Step};
use std::alloc::{AllocError, Global};
use std::fmt;
use std::fmt::{Formatter, Write};
use toml::{Table, Value};

/// A part that is not as it is to be, of an entry or of the whole text.
#[derive(Clone, Copy)]
pub(crate) struct WrongPart<'a> {
    entry: Option<EntryLabel<'a>>,
    part: Part,
    fault: PartFault<'a>,
}

/// An entry by its position, from 1, and by its name as written, where that is a name.
#[derive(Clone, Copy)]
pub(crate) struct EntryLabel<'a> {
    pub(crate) position: usize,
    pub(crate) name: Option<&'a str>,
}

/// A part, by its keys and by its positions, which count from 1.
#[derive(Clone, Copy)]
pub(crate) enum Part {
    /// The whole text, or the whole table of a source.
    Whole,
    Key(&'static str),
    /// A member of the list of a key.
    Member(&'static str, usize),
    /// A key of the table of a key.
    Inner(&'static str, &'static str),
    Entry(usize),
    Tag(usize),
    Wheel(usize),
    /// A key of a wheel.
    OfWheel(usize, &'static str),
}

/// What is wrong with a part.
#[derive(Clone, Copy)]
pub(crate) enum PartFault<'a> {
    /// This stands there, which is not of the form.
    IsNot(&'static str, ShownValue<'a>),
    /// This text is no tag.
    IsNoTag(ShownValue<'a>),
    /// A source has neither a URL nor a path.
    LiesNowhere,
}

impl<'a> WrongPart<'a> {
    pub(crate) fn new(part: Part, fault: PartFault<'a>) -> WrongPart<'a> {
        let entry = None;
        WrongPart { entry, part, fault }
    }

    /// What stands in this part of a lock is not of the form.
    pub(crate) fn in_lock(
        part: Part,
        form: &'static str,
        field: Option<&'a Value>,
    ) -> WrongPart<'a> {
        WrongPart::new(part, PartFault::IsNot(form, ShownValue::toml(field)))
    }

    /// The value of the key of the table is not of the form.
    pub(crate) fn key(table: &'a Table, key: &'static str, form: &'static str) -> WrongPart<'a> {
        WrongPart::in_lock(Part::Key(key), form, table.get(key))
    }

    /// The same part, of this entry.
    pub(crate) fn of_entry(self, entry: EntryLabel<'a>) -> WrongPart<'a> {
        let WrongPart { part, fault, .. } = self;
        let entry = Some(entry);
        WrongPart { entry, part, fault }
    }

    /// The same part, of the source at this key.
    pub(crate) fn of_source(self, key: &'static str) -> WrongPart<'a> {
        let part = match self.part {
            Part::Key(inner) => Part::Inner(key, inner),
            _ => Part::Key(key),
        };
        WrongPart::new(part, self.fault)
    }

    /// The same part, of the wheel at this position.
    pub(crate) fn of_wheel(self, position: usize) -> WrongPart<'a> {
        let part = match self.part {
            Part::Key(key) => Part::OfWheel(position, key),
            _ => Part::Wheel(position),
        };
        WrongPart::new(part, self.fault)
    }

    /// The position of the entry that the part is, or is in.
    fn position(&self) -> Option<usize> {
        match (self.entry, self.part) {
            (Some(entry), _) => Some(entry.position),
            (None, Part::Entry(position)) => Some(position),
            (None, _) => None,
        }
    }

    /// Where the part stands in the text of the lock; where its key is missing, where its entry
    /// does. A key that the head lacks has no place.
    fn place(&self, alloc: Global, text: &str) -> Result<Option<Place>, AllocError> {
        let places = Places::of_toml(alloc, text)?;
        let number = self.position().unwrap_or(0);
        let path = self.part.path(alloc)?;
        if path.is_empty() {
            return Ok(places.entry(number));
        }
        match places.key(alloc, number, path.as_slice())? {
            Some(place) => Ok(Some(place)),
            None => Ok(places.entry(number)),
        }
    }
}

impl Part {
    /// The keys and the positions that lead to the part, from the head or from its entry.
    fn path(self, alloc: Global) -> Result<Vec<Step<'static>>, AllocError> {
        Ok(match self {
            Part::Whole | Part::Entry(_) => Vec::new(alloc),
            Part::Key(key) => Vec::from_array(alloc, [Step::Key(key)])?,
            Part::Member(key, position) => {
                Vec::from_array(alloc, [Step::Key(key), Step::Element(position)])?
            }
            Part::Inner(outer, key) => Vec::from_array(alloc, [Step::Key(outer), Step::Key(key)])?,
            Part::Tag(position) => {
                Vec::from_array(alloc, [Step::Key("tags"), Step::Element(position)])?
            }
            Part::Wheel(position) => {
                Vec::from_array(alloc, [Step::Key("wheels"), Step::Element(position)])?
            }
            Part::OfWheel(position, key) => {
                let wheel = [Step::Key("wheels"), Step::Element(position), Step::Key(key)];
                Vec::from_array(alloc, wheel)?
            }
        })
    }
}

/// Where the environment of this name is wrong, if a part of it is.
pub(crate) fn wrong_in_environment(
    alloc: Global,
    name: &str,
    wrong: Option<WrongPart<'_>>,
) -> Result<Option<Diagnostic>, AllocError> {
    match wrong {
        Some(wrong) => Ok(Some(wrong_part(alloc, name, None, &wrong)?)),
        None => Ok(None),
    }
}

/// Where the lock of this name and this text is wrong, if a part of it is.
pub(crate) fn wrong_in_lock(
    alloc: Global,
    name: &str,
    text: &str,
    wrong: Option<WrongPart<'_>>,
) -> Result<Option<Diagnostic>, AllocError> {
    match wrong {
        Some(wrong) => {
            let place = wrong.place(alloc, text)?;
            Ok(Some(wrong_part(alloc, name, place, &wrong)?))
        }
        None => Ok(None),
    }
}

/// Where the file of this name has the wrong part.
fn wrong_part(
    alloc: Global,
    name: &str,
    place: Option<Place>,
    wrong: &WrongPart<'_>,
) -> Result<Diagnostic, AllocError> {
    let words = format!(in alloc; "{wrong}")?;
    let mut diagnostic = Diagnostic::of_file(alloc, name, place, words.as_str())?;
    diagnostic.key = key_path(alloc, wrong.part)?;
    diagnostic.entry = wrong.position().map(|position| position as u64);
    let entry_name = wrong.entry.and_then(|entry| entry.name);
    diagnostic.name = entry_name.map(|name| hidden(alloc, name)).transpose()?;
    Ok(diagnostic)
}

/// The path of the key that a part is at: keys and positions, joined by a space.
fn key_path(alloc: Global, part: Part) -> Result<Option<String>, AllocError> {
    let mut written = String::new(alloc);
    for step in part.path(alloc)?.iter() {
        if !written.is_empty() {
            written.push_str(" ")?;
        }
        match step {
            Step::Key(key) => written.push_str(key)?,
            Step::Element(position) => {
                let digits = format!(in alloc; "{position}")?;
                written.push_str(digits.as_str())?;
            }
        }
    }
    if written.is_empty() {
        Ok(None)
    } else {
        Ok(Some(written))
    }
}

impl fmt::Display for WrongPart<'_> {
    fn fmt<W: Write>(&self, f: &mut Formatter<W>) -> fmt::Result {
        let (part, fault) = (self.part, self.fault);
        match self.entry {
            Some(entry) => write!(f, "{entry}: {part} {fault}"),
            None => write!(f, "{part} {fault}"),
        }
    }
}

impl fmt::Display for EntryLabel<'_> {
    fn fmt<W: Write>(&self, f: &mut Formatter<W>) -> fmt::Result {
        let position = self.position;
        match self.name {
            Some(name) => {
                let name = Shown(name);
                write!(f, "entry {position} (`{name}`)")
            }
            None => write!(f, "entry {position}"),
        }
    }
}

impl fmt::Display for Part {
    fn fmt<W: Write>(&self, f: &mut Formatter<W>) -> fmt::Result {
        match self {
            Part::Whole => f.write_str("the document"),
            Part::Key(key) => write!(f, "`{key}`"),
            Part::Member(key, position) => write!(f, "`{key} {position}`"),
            Part::Inner(outer, key) => write!(f, "`{outer} {key}`"),
            Part::Entry(position) => write!(f, "entry {position}"),
            Part::Tag(position) => write!(f, "tag {position}"),
            Part::Wheel(position) => write!(f, "wheel {position}"),
            Part::OfWheel(position, key) => write!(f, "wheel {position}: `{key}`"),
        }
    }
}

impl fmt::Display for PartFault<'_> {
    fn fmt<W: Write>(&self, f: &mut Formatter<W>) -> fmt::Result {
        match self {
            PartFault::IsNot(form, shown) => write!(f, "is not {form}: {shown}"),
            PartFault::IsNoTag(shown) => { write!(f, "{shown} is not a tag (python-abi-platform)") }
            PartFault::LiesNowhere => f.write_str("has neither `url` nor `path`"),
        }
    }
}
