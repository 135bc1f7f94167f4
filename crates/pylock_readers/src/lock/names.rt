//! The names that the head of a lock lists.
ghost use Rattle.std.specs.Prelude.{◌≡◌, IfOk, map, string_bytes};
ghost use Rattle.std.specs.List.{list_any};
ghost use Rattle.std.specs.Str.{bytes_eq};
ghost use Rattle.pylock_readers.specs.Lock.Head.{distinct_texts};

use std::alloc::{AllocError, Global};
use std::collections::BTreeSet;
use std::marker::Model;

/// Names in normal form (PEP 503), each once, in the order in which each comes first; and all of
/// them in a set, so that one is found without a walk.
pub struct HeadNames {
    names: Vec<String>,
    set: BTreeSet<String>,
}

impl Model for HeadNames {
    ghost use Rattle.std.specs.Prelude.{◌≡◌, ℕ, List, map, string_bytes};
    ghost use Rattle.std.specs.Coded.{coded_list, coded_ℕ};
    ghost use Rattle.std.specs.List.{list_any};
    ghost use Rattle.std.specs.Str.{bytes_eq};
    ghost use Rattle.pylock_readers.specs.Text.{has_text};

    ghost Value = { List (List ℕ) };

    ghost coded = { coded_list (coded_list coded_ℕ) };

    ghost view = { λ h. map string_bytes h.names.items };

    ghost invariant = { λ h. (text : List ℕ)
        → has_text h.set.keys text ≡ list_any (bytes_eq text) (map string_bytes h.names.items) };
}

impl Drop for HeadNames {
    fn drop(self) {
        let HeadNames { names: _, set: _ } = self;
    }
}

impl HeadNames {
    /// These texts without repeats. Takes memory for each of them twice.
    #[tactic(auto, using(crate::proofs::DistinctLemmas::once_each))]
    pub(crate) fn of(alloc: Global, texts: Vec<String>) -> Result<HeadNames, AllocError>
        ensures { IfOk result (λ once. once ≡ distinct_texts (map string_bytes texts.items)) }
    {
        let mut set = BTreeSet::new(alloc);
        let mut names = Vec::new(alloc);
        for text in texts {
            if set.insert(text.clone()?)? {
                names.push(text)?;
            }
        }
        Ok(HeadNames { names, set })
    }

    /// The names in their order.
    pub fn as_slice(&self) -> &[String]
        ensures { map string_bytes result.now ≡ self.now }
    {
        self.names.as_slice()
    }

    /// Whether this very text is one of the names. It takes no memory.
    pub fn has(&self, text: &str) -> bool
        ensures { result ≡ list_any (bytes_eq text.now) self.now }
    {
        self.set.contains(text)
    }
}
