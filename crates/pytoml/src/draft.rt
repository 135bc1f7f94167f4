//! The tables of a document that is being read. Those that the last header stands in are open, each
//! with what stands around it; all others are put where they stay. So a line takes no walk from the
//! root. A header that goes back into a table that was put away is a shape that isn't known here.
ghost use Rattle.std.specs.Prelude.{◌≡◌, ◌==◌, ◌≤◌, ◌-◌, [], IfOk, OnOk, IsTrue};
ghost use Rattle.std.specs.Prelude.{length, map, string_bytes, take, vec_len};
ghost use Rattle.toml_parser.specs.Reading.{key_view, path_view};
ghost use Rattle.toml.specs.View.{table_view, view};
ghost use Rattle.toml.specs.Tables.{Document, close, get_node};
ghost use Rattle.toml.specs.Tables.{no_nodes};
ghost use Rattle.pytoml.specs.Draft.{Closes, Defines, HasKey, HasMore, IsClosed, Kept};
ghost use Rattle.pytoml.specs.Draft.{Opens, OpensPath, Stands, Turns, key_of};

use crate::document::Lines;
use crate::fault::Unread;
use crate::value::{insert_new, value};
use std::alloc::{AllocError, Global};
use std::mem;
use toml::value::Array;
use toml::{Table, Value};
use toml_parser::{Key, RECURSION_LIMIT};

/// How an open table stands at its key.
#[derive(Drop)]
pub(crate) enum Kind {
    /// As a table.
    Table,
    /// As the last element of an array of tables, behind these.
    Element(Array),
}

/// What stands around an open table, and its key there.
#[derive(Drop)]
pub(crate) struct Level {
    around: Table,
    key: String,
    kind: Kind,
}

/// A document as far as it was read: the table that pairs go into now, and the levels around it
/// from the root inwards.
pub(crate) struct Draft {
    levels: Vec<Level>,
    table: Table,
}

impl Drop for Draft {
    fn drop(self) {
        let Draft {
            levels: _,
            table: _,
        } = self;
    }
}

impl Draft {
    /// An empty document.
    pub(crate) fn new(alloc: Global) -> Draft
        ensures { Stands result (no_nodes, []) }
    {
        Draft {
            levels: Vec::new(alloc),
            table: Table::new(alloc),
        }
    }

    /// The table of the whole document.
    pub(crate) fn finish(mut self) -> Result<Table, Unread>
        ensures { (doc : Document) → Stands self doc
            → IfOk result (λ table. table_view table ≡ close doc.0) }
    {
        self.close_to(0)?;
        let Draft { levels: _, table } = self;
        Ok(table)
    }

    /// Whether pairs go into the root.
    pub(crate) fn is_at_root(&self) -> bool
        ensures { result ≡ (vec_len self.now.levels == 0) }
    {
        self.levels.is_empty()
    }

    /// Closes all tables, where the root has no such key.
    pub(crate) fn close_without(&mut self, key: &str) -> Result<(), Unread>
        ensures { (doc : Document) → Stands self.old doc
            → OnOk result (Stands self.new (doc.0, []) × (get_node key.now doc.0 ≡ None)) }
    {
        self.close_to(0)?;
        if self.table.contains_key(key) {
            return Err(Unread::Shape);
        }
        Ok(())
    }

    /// How many of the open tables, from the root on, a path goes through.
    fn shared(&self, path: &[String]) -> usize
        ensures within_path { result ≤ length path.now }
        ensures within_levels { result ≤ vec_len self.now.levels }
        ensures same { take result (path_view path.now)
            ≡ take result (map key_of self.now.levels.items) }
    {
        let mut count = 0;
        while count < path.len() && self.has_key(count, path[count].as_str()) {
            count += 1;
        }
        count
    }

    /// Whether the open table behind so many others has this key.
    fn has_key(&self, at: usize, key: &str) -> bool
        ensures { IsTrue result → HasKey self.now.levels.items at key.now }
    {
        match self.levels.get(at) {
            Some(level) => level.key.as_str() == key,
            None => false,
        }
    }

    /// Puts the open tables away, but for so many.
    fn close_to(&mut self, count: usize) -> Result<(), Unread>
        requires { count ≤ vec_len self.old.levels }
        ensures kept { Kept self.old self.new result count }
    {
        while self.levels.len() > count {
            self.close_last()?;
        }
        Ok(())
    }

    /// Puts the innermost open table away, into the table around it.
    fn close_last(&mut self) -> Result<(), Unread>
        ensures kept { Kept self.old self.new result (vec_len self.old.levels - 1) }
        ensures len { OnOk result (vec_len self.new.levels ≡ vec_len self.old.levels - 1) }
    {
        let Some(level) = self.levels.pop() else {
            return Ok(());
        };
        self.put_away(level)
    }

    /// Puts the open table into what stands around it.
    fn put_away(&mut self, level: Level) -> Result<(), Unread>
        ensures closed { OnOk result
            (IsClosed level (table_view self.old.table) (table_view self.new.table)) }
        ensures levels { self.new.levels ≡ self.old.levels }
    {
        let Level { around, key, kind } = level;
        let inner = mem::replace(&mut self.table, around);
        self.table.insert(key, closed(kind, inner)?)?;
        Ok(())
    }

    /// Opens a new table at a key, in the innermost open one.
    fn open(&mut self, alloc: Global, key: String, kind: Kind) -> Result<(), Unread>
        ensures { Opens self.old self.new result (string_bytes key) kind }
    {
        if self.table.contains_key(key.as_str()) {
            return Err(Unread::Shape);
        }
        let around = mem::replace(&mut self.table, Table::new(alloc));
        self.levels.push(Level { around, key, kind })?;
        Ok(())
    }

    /// Opens new tables at the keys of a path from this place on, each in the one before.
    fn open_path(&mut self, alloc: Global, path: &[String], from: usize) -> Result<(), Unread>
        requires { from ≤ length path.now }
        ensures { OpensPath self.old self.new result (path_view path.now) from }
    {
        for at in from..path.len() {
            self.open(alloc, path[at].clone()?, Kind::Table)?;
        }
        Ok(())
    }

    /// Ends the innermost open table, an element of an array of tables, and begins the next.
    fn next_element(&mut self, alloc: Global) -> Result<(), Unread>
        ensures { Turns self.old self.new result }
    {
        let element = mem::replace(&mut self.table, Table::new(alloc));
        let Some(level) = self.levels.pop() else {
            return Err(Unread::Shape);
        };
        self.levels.push(level.with_element(element)?)?;
        Ok(())
    }
}

impl Lines for Draft {
    ghost stands = { Stands };

    fn put<'a>(&mut self, alloc: Global, key: String, s: &'a str) -> Result<&'a str, Unread> {
        let (value, rest) = value(alloc, s, RECURSION_LIMIT)?;
        insert_new(&mut self.table, key, value)?;
        Ok(rest)
    }

    fn open_table(&mut self, alloc: Global, key: Key) -> Result<(), Unread> {
        let Key { path, last } = key;
        let shared = self.shared(&path);
        self.close_to(shared)?;
        self.open_path(alloc, &path, shared)?;
        self.open(alloc, last, Kind::Table)
    }

    fn open_element(&mut self, alloc: Global, key: Key) -> Result<(), Unread> {
        let Key { path, last } = key;
        let shared = self.shared(&path);
        if shared == path.len() && self.has_key(shared, last.as_str()) {
            self.close_to(shared + 1)?;
            return self.next_element(alloc);
        }
        self.close_to(shared)?;
        self.open_path(alloc, &path, shared)?;
        self.open(alloc, last, Kind::Element(Vec::new(alloc)))
    }
}

impl Level {
    /// The level with one more element behind those that it has.
    fn with_element(self, element: Table) -> Result<Level, Unread>
        ensures { IfOk result (λ level. HasMore self (table_view element) level) }
    {
        let Level { around, key, kind } = self;
        let Kind::Element(mut done) = kind else {
            return Err(Unread::Shape);
        };
        done.push(Value::Table(element))?;
        Ok(Level {
            around,
            key,
            kind: Kind::Element(done),
        })
    }
}

/// What an open table is once it is put away.
fn closed(kind: Kind, inner: Table) -> Result<Value, AllocError>
    ensures { IfOk result (λ value. Closes kind (table_view inner) (view value)) }
{
    match kind {
        Kind::Table => Ok(Value::Table(inner)),
        Kind::Element(mut done) => {
            done.push(Value::Table(inner))?;
            Ok(Value::Array(done))
        }
    }
}
