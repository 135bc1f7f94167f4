//! A reader of many names of wheels, of which each half that comes again is read once.

ghost use Rattle.std.specs.Prelude.{◌≡◌, ◌<◌, ◌≤◌, Ok, IfOk, IfSome};
ghost use Rattle.std.specs.BTreeMap.{btree_map_len};
ghost use Rattle.pytext.specs.Agreement.{Gives};
ghost use Rattle.pywheel_core.specs.ReadTable.{AllRead};
ghost use Rattle.pywheel_core.specs.Texts.{IsUndashed};
ghost use Rattle.pywheel_core.specs.Wheel.Halves.{end_in, end_value};
ghost use Rattle.pywheel_core.specs.Wheel.Reading.{wheel_of};

use crate::cut::{cut, stem};
use crate::error::WheelError;
use crate::halves::{NameEnd, NameHead, read_end};
use crate::wheel::{WheelName, is_wheel_name};
use pyver_core::{Version, VersionError};
use std::alloc::{AllocError, Global};
use std::collections::BTreeMap;
use std::marker::Model;
use std::rc::Rc;

/// How many ends a reader keeps at most.
const MOST_ENDS: usize = 4_096;

/// The most bytes of an end that is kept, which those of an index have. A look for an end compares
/// it with a dozen others, and what these have alike at their fronts may be another party's choice:
/// a longer one is read each time, and isn't looked for.
const LONGEST_END: usize = 128;

/// A name and a version, each with `-` behind it, and what they say.
struct LastHead {
    text: String,
    head: Rc<NameHead>,
}

impl Drop for LastHead {
    fn drop(self) {
        let LastHead { text: _, head: _ } = self;
    }
}

/// Reads the names of many wheels. A name and a version like those of the wheel before are not read
/// anew, nor is a build tag with a compressed tag set that any wheel before had, up to 128 bytes:
/// the names share them.
///
/// Of the names and versions it keeps the last one. It keeps each such end that it has read, a
/// build tag with a compressed tag set and its tags, until it is dropped or has 4,096 of them: then
/// it lets all of them go, so that no look for one takes longer by how many names came before.
pub struct WheelReader {
    alloc: Global,
    last: Option<LastHead>,
    /// What stands behind the version, by its text.
    ends: BTreeMap<String, Rc<NameEnd>>,
}

impl Model for WheelReader {
    ghost use Rattle.std.specs.Prelude.{◌≤◌, string_bytes, IfSome};
    ghost use Rattle.std.specs.BTreeMap.{btree_map_len};
    ghost use Rattle.pywheel_core.specs.ReadTable.{AllRead};
    ghost use Rattle.pywheel_core.specs.Wheel.Halves.{IsHead, end_in, end_value};

    ghost Value = { Unit {0} };

    ghost view = { λ _. tt };

    ghost invariant = { λ r. IfSome r.last (λ l. IsHead (string_bytes l.text) l.head.value)
        × AllRead end_in (λ e. end_value e.value) r.ends.entries
        × (btree_map_len r.ends ≤ 4096) };
}

impl Drop for WheelReader {
    fn drop(self) {
        let WheelReader {
            alloc: _,
            last: _,
            ends: _,
        } = self;
    }
}

impl WheelReader {
    /// One that has read no name. It takes no memory.
    pub fn new(alloc: Global) -> WheelReader {
        WheelReader {
            alloc,
            last: None,
            ends: BTreeMap::new(alloc),
        }
    }

    /// What [`WheelName::parse`] reads. It takes memory for what is new; where both halves are
    /// known it takes none, but for the counts of those that share. Of a name that is refused for
    /// its extension, its name or its version no tags are made.
    pub fn read(&mut self, text: &str) -> Result<WheelName, WheelError>
        ensures { Gives WheelError.Memory (λ w. w) result (wheel_of text.now) }
    {
        if !self.begins_with_last(text) {
            self.learn(text)?;
        }
        match self.joined(text)? {
            Some(wheel) => Ok(wheel),
            None => WheelName::parse(self.alloc, text),
        }
    }

    /// Whether the name begins with the head that was read last.
    fn begins_with_last(&self, text: &str) -> bool {
        match &self.last {
            Some(last) => text.starts_with(last.text.as_str()),
            None => false,
        }
    }

    /// Reads the head of a name, and keeps it if it is one. Where the extension is another or the
    /// end is long, it reads nothing.
    #[tactic(auto, using(crate::proofs::Lemmas::Texts::Cuts::cut_lacks))]
    fn learn(&mut self, text: &str) -> Result<(), AllocError> {
        if stem(text).is_none() {
            return Ok(());
        }
        let Some((name, rest)) = cut(text) else {
            return Ok(());
        };
        let Some((version, rest)) = cut(rest) else {
            return Ok(());
        };
        if rest.len() > LONGEST_END {
            return Ok(());
        }
        self.learn_head(name, version)
    }

    /// Keeps a name and a version as the last ones, where they are such.
    fn learn_head(&mut self, name: &str, spelling: &str) -> Result<(), AllocError>
        requires name { IsUndashed name.now }
        requires spelling { IsUndashed spelling.now }
    {
        if !is_wheel_name(name) {
            return Ok(());
        }
        match Version::parse(self.alloc, spelling) {
            Ok(version) => {
                let text = format!(in self.alloc; "{name}-{spelling}-")?;
                let name = String::from_str(self.alloc, name)?;
                let head = Rc::new(self.alloc, NameHead { name, version })?;
                self.last = Some(LastHead { text, head });
                Ok(())
            }
            Err(VersionError::Memory) => Err(AllocError),
            Err(_) => Ok(()),
        }
    }

    /// The wheel of a name that is the last head with an end, if that is not long.
    fn joined(&mut self, text: &str) -> Result<Option<WheelName>, AllocError>
        ensures { IfOk result (λ found. IfSome found (λ w. wheel_of text.now ≡ Ok w)) }
    {
        let Some(last) = &self.last else {
            return Ok(None);
        };
        let Some(rest) = text.strip_prefix(last.text.as_str()) else {
            return Ok(None);
        };
        if rest.len() > LONGEST_END {
            return Ok(None);
        }
        let head = last.head.clone()?;
        match shared_end(&mut self.ends, self.alloc, rest)? {
            Some(end) => Ok(Some(WheelName { head, end })),
            None => Ok(None),
        }
    }
}

/// What the text says as what stands behind the version, if it does: that of a name before, or a
/// new one, which is kept.
fn shared_end(
    ends: &mut BTreeMap<String, Rc<NameEnd>>,
    alloc: Global,
    text: &str,
) -> Result<Option<Rc<NameEnd>>, AllocError>
    requires kept { AllRead end_in (λ e. end_value e.value) ends.old.entries }
    requires few { btree_map_len ends.old ≤ 4096 }
    ensures end { IfOk result (λ found.
        IfSome found (λ end. end_in text.now ≡ Ok (end_value end.value))) }
    ensures kept { AllRead end_in (λ e. end_value e.value) ends.new.entries }
    ensures few { btree_map_len ends.new ≤ 4096 }
{
    if let Some(end) = ends.get(text) {
        return Ok(Some(end.clone()?));
    }
    let end = match read_end(alloc, text) {
        Ok(end) => Rc::new(alloc, end)?,
        Err(WheelError::Memory) => return Err(AllocError),
        Err(_) => return Ok(None),
    };
    reserve_capacity(ends, alloc);
    let text = String::from_str(alloc, text)?;
    ends.insert(text, end.clone()?)?;
    Ok(Some(end))
}

/// Lets the ends go where there are as many as a reader keeps.
fn reserve_capacity(ends: &mut BTreeMap<String, Rc<NameEnd>>, alloc: Global)
    requires { btree_map_len ends.old ≤ 4096 }
    ensures capacity { btree_map_len ends.new < 4096 }
    ensures kept { AllRead end_in (λ e. end_value e.value) ends.old.entries
        → AllRead end_in (λ e. end_value e.value) ends.new.entries }
{
    if ends.len() >= MOST_ENDS {
        *ends = BTreeMap::new(alloc);
    }
}
