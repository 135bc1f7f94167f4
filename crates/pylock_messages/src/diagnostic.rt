//! Where a file is wrong, as a value.

ghost use Rattle.std.specs.Prelude.{◌≡◌, string_bytes};
ghost use Rattle.std.specs.Option.{option_copied};

use pylock_shown::visible_text;
use pylock_spans::Place;
use std::alloc::{AllocError, Global};
use std::marker::Model;

/// What is known of where a file is wrong, or of why something else is refused: the line that tells
/// a person, and where that points. The line and these are made at once, so they never differ.
///
/// Contracts see its texts and numbers.
pub struct Diagnostic {
    message: String,
    pub(crate) file: Option<String>,
    pub(crate) line: Option<u64>,
    pub(crate) column: Option<u64>,
    pub(crate) entry: Option<u64>,
    pub(crate) name: Option<String>,
    pub(crate) key: Option<String>,
}

impl Model for Diagnostic {
    ghost use Rattle.std.specs.Prelude.{option_map, string_bytes};
    ghost use Rattle.pylock_messages.specs.Diagnostic.{DiagnosticValue};

    ghost Value = { DiagnosticValue };

    ghost view = { λ d. record {
      message = string_bytes d.message;
      file = option_map string_bytes d.file;
      line = d.line;
      column = d.column;
      entry = d.entry;
      name = option_map string_bytes d.name;
      key = option_map string_bytes d.key;
    } };
}

impl Drop for Diagnostic {
    fn drop(self) {
        let Diagnostic {
            message: _,
            file: _,
            line: _,
            column: _,
            entry: _,
            name: _,
            key: _,
        } = self;
    }
}

impl Diagnostic {
    /// What a line for a person says, and nothing of where it points. Control characters of the
    /// line are written as [`pylock_shown::push_visible`] writes them. It takes memory for the
    /// line.
    pub fn of_message(alloc: Global, message: &str) -> Result<Diagnostic, AllocError> {
        Ok(Diagnostic {
            message: visible_text(alloc, message)?,
            file: None,
            line: None,
            column: None,
            entry: None,
            name: None,
            key: None,
        })
    }

    /// What these words say of a file, by the name that was given for it, and where they point in
    /// it, if that is known. The line has the place behind the name, as compilers write it.
    pub(crate) fn of_file(
        alloc: Global,
        file: &str,
        place: Option<Place>,
        words: &str,
    ) -> Result<Diagnostic, AllocError> {
        let message = match place {
            Some(Place { line, column }) => format!(in alloc; "{file}:{line}:{column}: {words}")?,
            None => format!(in alloc; "{file}: {words}")?,
        };
        let mut diagnostic = Diagnostic::of_message(alloc, message.as_str())?;
        diagnostic.file = Some(String::from_str(alloc, file)?);
        diagnostic.line = place.map(|place| place.line);
        diagnostic.column = place.map(|place| place.column);
        Ok(diagnostic)
    }

    /// The same place, where the line has these words behind it. It takes memory for the line.
    pub fn followed_by(self, alloc: Global, words: &str) -> Result<Diagnostic, AllocError> {
        let mut diagnostic = self;
        let before = diagnostic.message.as_str();
        let line = format!(in alloc; "{before}; {words}")?;
        diagnostic.message = visible_text(alloc, line.as_str())?;
        Ok(diagnostic)
    }

    /// The line for a person, without LF. It takes no memory.
    pub fn message(&self) -> &str
        ensures { result.now ≡ self.now.message }
    {
        self.message.as_str()
    }

    /// The line itself.
    pub fn into_message(self) -> String
        ensures { string_bytes result ≡ self.message }
    {
        let Diagnostic {
            message,
            file: _,
            line: _,
            column: _,
            entry: _,
            name: _,
            key: _,
        } = self;
        message
    }

    /// The name that was given for the file. It takes no memory.
    pub fn file(&self) -> Option<&str>
        ensures { option_copied result ≡ self.now.file }
    {
        self.file.as_deref()
    }

    /// The number of the line, from 1. It takes no memory.
    pub fn line(&self) -> Option<u64>
        ensures { result ≡ self.now.line }
    {
        self.line
    }

    /// The place in the line, from 1, in characters. It takes no memory.
    pub fn column(&self) -> Option<u64>
        ensures { result ≡ self.now.column }
    {
        self.column
    }

    /// The position of the entry in the lock, from 1. It takes no memory.
    pub fn entry(&self) -> Option<u64>
        ensures { result ≡ self.now.entry }
    {
        self.entry
    }

    /// The name of the entry as it is written, where that is a name. It takes no memory.
    pub fn name(&self) -> Option<&str>
        ensures { option_copied result ≡ self.now.name }
    {
        self.name.as_deref()
    }

    /// The path of the key: keys, and positions from 1, joined by a space, as `vcs commit-id`,
    /// `wheels 2 hashes` and `extras 3`. It takes no memory.
    pub fn key(&self) -> Option<&str>
        ensures { option_copied result ≡ self.now.key }
    {
        self.key.as_deref()
    }
}

/// The same place, where the line says these words of the file; without words it stays.
pub(crate) fn saying(
    alloc: Global,
    diagnostic: Option<Diagnostic>,
    words: Option<&str>,
) -> Result<Option<Diagnostic>, AllocError> {
    match (diagnostic, words) {
        (Some(mut diagnostic), Some(words)) => {
            let file = diagnostic.file.as_deref().unwrap_or("");
            let line = format!(in alloc; "{file}: {words}")?;
            diagnostic.message = visible_text(alloc, line.as_str())?;
            Ok(Some(diagnostic))
        }
        (diagnostic, _) => Ok(diagnostic),
    }
}
