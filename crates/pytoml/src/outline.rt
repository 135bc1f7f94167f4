//! A document from which the elements of one array of tables at the root are handed out, each as
//! soon as it is complete. The element below a header that is being read has a draft of its own,
//! one in an array that is one value is read as a value is; and what is handed out is kept by
//! whoever took it. So one element's table stands at a time.
ghost use Rattle.std.specs.Prelude.{◌≡◌, ◌==◌, ◌&&◌, ◌<◌, ℕ, List, ◌∷◌, [], IfOk, OnOk, true};
ghost use Rattle.std.specs.Prelude.{length, string_bytes, vec_len};
ghost use Rattle.toml_parser.specs.Reading.{key_view};
ghost use Rattle.toml.specs.Data.{Items, no_items, push_item, same_key, table};
ghost use Rattle.toml.specs.Tables.{Document, array_table, close, no_nodes};
ghost use Rattle.toml.specs.View.{table_view};
ghost use Rattle.pytoml.specs.Elements.{LacksElements};
ghost use Rattle.pytoml.specs.Members.{with_elements};
ghost use Rattle.pytoml.specs.Draft.{Defines, Puts};
ghost use Rattle.pytoml.specs.Inline.{begins_elements};
ghost use Rattle.pytoml.specs.Outline.{LeftBy, StandsBy, first_part};
ghost use Rattle.pytoml.specs.declared.outline.Place.TheVariants as place;

use crate::document::Lines;
use crate::draft::Draft;
use crate::fault::Unread;
use crate::inline::{begins_elements, take_elements};
use std::alloc::{AllocError, Global};
use std::mem;
use toml::Table;
use toml_parser::text::skip;
use toml_parser::{Key, RECURSION_LIMIT};

/// Who takes the elements of an array of tables, one after the other.
pub trait Elements: Drop {
    /// The key at which the array stands.
    ghost key: { List ℕ };

    /// What it is after these elements.
    ghost holds: { Self → Items → Type 0 };

    /// The key at which the array stands, in the root of the document.
    fn key() -> &'static str
        ensures { result.now ≡ key };

    /// Takes the next element. Out of memory is the only refusal.
    fn take(&mut self, element: Table) -> Result<(), AllocError>
        ensures { OnOk result ((taken : Items) → holds self.old taken
            → holds self.new (push_item taken (table (table_view element)))) };
}

/// How far the elements were read.
#[derive(Drop)]
pub(crate) enum Place {
    /// None was met.
    Before,
    /// Below the header of one that has this draft.
    Within(Draft),
    /// Behind the last of those that have headers.
    Behind,
    /// Behind an array that is one value.
    Inline,
}

/// A document without the elements at the key, and who takes those.
pub(crate) struct Outline<E: Elements> {
    root: Draft,
    place: Place,
    elements: E,
}

impl<E: Elements> Drop for Outline<E> {
    fn drop(self) {
        let Outline {
            root: _,
            place: _,
            elements: _,
        } = self;
    }
}

impl<E: Elements> Outline<E> {
    /// An empty document.
    pub(crate) fn new(alloc: Global, elements: E) -> Outline<E>
        requires { E.holds elements no_items }
        ensures { StandsBy (E.holds result.elements) E.key result.root result.place
            (no_nodes, []) }
    {
        Outline {
            root: Draft::new(alloc),
            place: Place::Before,
            elements,
        }
    }

    /// The table of the document without the elements, and who took those.
    pub(crate) fn finish(mut self) -> Result<(Table, E), Unread>
        ensures { (doc : Document) → StandsBy (E.holds self.elements) E.key
            self.root self.place doc
            → IfOk result (λ read. (taken : Items) × E.holds read.1 taken
            × (close doc.0 ≡ with_elements E.key taken (table_view read.0))
            × LacksElements E.key taken (table_view read.0)) }
    {
        self.leave()?;
        let Outline {
            root,
            place: _,
            elements,
        } = self;
        Ok((root.finish()?, elements))
    }

    /// Whether a header goes through the key.
    fn is_ours(&self, key: &Key) -> bool
        ensures { result ≡ same_key (first_part (key_view key.now)) E.key }
    {
        first_part(key) == E::key()
    }

    /// Hands over the element that is open, where one is.
    fn leave(&mut self) -> Result<(), Unread>
        ensures { (doc : Document)
            → StandsBy (E.holds self.old.elements) E.key self.old.root self.old.place doc
            → OnOk result (LeftBy (E.holds self.new.elements) E.key self.new.root
            self.new.place doc) }
    {
        match mem::replace(&mut self.place, Place::Behind) {
            Place::Within(element) => self.elements.take(element.finish()?)?,
            place => self.place = place,
        }
        Ok(())
    }

    /// Begins the next element.
    fn next_element(&mut self, alloc: Global) -> Result<(), Unread>
        ensures { Defines
            (λ o doc. StandsBy (E.holds o.elements) E.key o.root o.place doc)
            self.old self.new result (([], E.key), array_table) }
    {
        self.leave()?;
        match &self.place {
            Place::Before => self.root.close_without(E::key())?,
            Place::Inline => return Err(Unread::Shape),
            _ => (),
        }
        self.place = Place::Within(Draft::new(alloc));
        Ok(())
    }

    /// Whether a pair with this key would put the array there, where no element is open.
    fn is_at(&self, key: &str) -> bool
        ensures { result
            ≡ ((vec_len self.now.root.levels == 0) && same_key key.now E.key) }
    {
        self.root.is_at_root() && key == E::key()
    }

    /// Adds the pair at the key, with whose value the text begins, and gives what follows it.
    fn put_ours<'a>(&mut self, alloc: Global, key: String, s: &'a str) -> Result<&'a str, Unread>
        requires at_root { vec_len self.old.root.levels ≡ 0 }
        requires ours { string_bytes key ≡ E.key }
        ensures puts { Puts (λ o doc. StandsBy (E.holds o.elements) E.key o.root o.place doc)
            self.old self.new result (string_bytes key) s.now }
        ensures shorter { IfOk result (λ rest. length rest.now < length s.now) }
    {
        match &self.place {
            Place::Before if begins_elements(s) => self.put_elements(alloc, s),
            Place::Before => self.root.put(alloc, key, s),
            _ => Err(Unread::Shape),
        }
    }

    /// The same, where the value is an array that isn't empty: hands over its elements. One that is
    /// empty is put as any other value, since elements alone leave no key.
    fn put_elements<'a>(&mut self, alloc: Global, s: &'a str) -> Result<&'a str, Unread>
        requires at_root { vec_len self.old.root.levels ≡ 0 }
        requires before { self.old.place ≡ place.Before }
        requires begins { begins_elements s.now ≡ true }
        ensures puts { Puts (λ o doc. StandsBy (E.holds o.elements) E.key o.root o.place doc)
            self.old self.new result E.key s.now }
        ensures shorter { IfOk result (λ rest. length rest.now < length s.now) }
    {
        self.root.close_without(E::key())?;
        let rest = take_elements(alloc, skip(s, 1), RECURSION_LIMIT - 1, &mut self.elements)?;
        self.place = Place::Inline;
        Ok(rest)
    }
}

impl<E: Elements> Lines for Outline<E> {
    ghost stands = { λ o doc. StandsBy (E.holds o.elements) E.key o.root o.place doc };

    fn put<'a>(&mut self, alloc: Global, key: String, s: &'a str) -> Result<&'a str, Unread> {
        if let Place::Within(element) = &mut self.place {
            return element.put(alloc, key, s);
        }
        if self.is_at(key.as_str()) {
            return self.put_ours(alloc, key, s);
        }
        self.root.put(alloc, key, s)
    }

    fn open_table(&mut self, alloc: Global, key: Key) -> Result<(), Unread> {
        if !self.is_ours(&key) {
            self.leave()?;
            return self.root.open_table(alloc, key);
        }
        match &mut self.place {
            Place::Before => self.root.open_table(alloc, key),
            Place::Within(element) => element.open_table(alloc, without_first(key)?),
            Place::Behind | Place::Inline => Err(Unread::Shape),
        }
    }

    fn open_element(&mut self, alloc: Global, key: Key) -> Result<(), Unread> {
        if !self.is_ours(&key) {
            self.leave()?;
            return self.root.open_element(alloc, key);
        }
        if key.path.is_empty() {
            return self.next_element(alloc);
        }
        match &mut self.place {
            Place::Before => self.root.open_element(alloc, key),
            Place::Within(element) => element.open_element(alloc, without_first(key)?),
            Place::Behind | Place::Inline => Err(Unread::Shape),
        }
    }
}

/// The first part of a key.
fn first_part(key: &Key) -> &str
    ensures { result.now ≡ first_part (key_view key.now) }
{
    match key.path.first() {
        Some(part) => part.as_str(),
        None => key.last.as_str(),
    }
}

/// The key without its first part, where it has another.
fn without_first(key: Key) -> Result<Key, Unread>
    ensures { IfOk result (λ rest. key_view key
        ≡ (first_part (key_view key) ∷ (key_view rest).0, (key_view rest).1)) }
{
    let Key { mut path, last } = key;
    if path.is_empty() {
        return Err(Unread::Shape);
    }
    path.remove(0);
    Ok(Key { path, last })
}
