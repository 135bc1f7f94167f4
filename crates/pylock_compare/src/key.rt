//! Lists of texts, each of which may be absent: by these entries and sources are compared.

ghost use Rattle.std.specs.Prelude.{◌≡◌, ◌++◌, ◌∷◌, [], OnOk};
ghost use Rattle.std.specs.Option.{option_copied};

use std::alloc::{AllocError, Global};
use std::cmp::Ordering;
use std::marker::Model;

/// A list of texts, each of which may be absent. Contracts see the list.
pub struct Key<'a> {
    texts: Vec<Option<&'a [u8]>>,
}

impl<'a> Model for Key<'a> {
    ghost use Rattle.std.specs.Prelude.{List, Option, ℕ, map};
    ghost use Rattle.std.specs.Option.{option_copied};

    ghost Value = { List (Option (List ℕ)) };

    ghost view = { λ k. map option_copied k.texts.items };
}

impl<'a> Drop for Key<'a> {
    fn drop(self) {
        let Key { texts: _ } = self;
    }
}

impl<'a> Key<'a> {
    /// No text. It takes no memory.
    pub fn new(alloc: Global) -> Key<'a>
        ensures { result ≡ [] }
    {
        Key {
            texts: Vec::new(alloc),
        }
    }

    /// Adds a text, or that it is absent.
    pub fn push(&mut self, text: Option<&'a [u8]>) -> Result<(), AllocError>
        ensures { OnOk result (self.new ≡ self.old ++ option_copied text.entry ∷ []) }
    {
        self.texts.push(text)?;
        Ok(())
    }
}

impl<'a> PartialEq for Key<'a> {
    ghost use Rattle.std.specs.Cmp.{eq_by_cmp_equiv, partial_equiv_from_equiv};
    ghost use Rattle.pylock_compare.specs.Texts.{are_alike};
    ghost use Rattle.pylock_compare.specs.TextsOrder.{texts_total};

    ghost eq = { are_alike };

    ghost laws = { partial_equiv_from_equiv (eq_by_cmp_equiv texts_total) };

    fn eq(&self, other: &Key<'a>) -> bool {
        self.cmp(other) == Ordering::Equal
    }
}

impl<'a> Eq for Key<'a> {
    ghost use Rattle.std.specs.Cmp.{eq_by_cmp_equiv};
    ghost use Rattle.pylock_compare.specs.TextsOrder.{texts_total};

    ghost laws = { eq_by_cmp_equiv texts_total };
}

impl<'a> PartialOrd for Key<'a> {
    ghost use Rattle.std.specs.Cmp.{partial_order_from_total};
    ghost use Rattle.std.specs.Ordering.{as_partial_cmp};
    ghost use Rattle.pylock_compare.specs.Texts.{texts_cmp};
    ghost use Rattle.pylock_compare.specs.TextsOrder.{texts_total};

    ghost partial_cmp = { as_partial_cmp texts_cmp };

    ghost laws = { partial_order_from_total texts_total };

    fn partial_cmp(&self, other: &Key<'a>) -> Option<Ordering> {
        Some(self.cmp(other))
    }
}

impl<'a> Ord for Key<'a> {
    ghost use Rattle.std.specs.Prelude.{refl};
    ghost use Rattle.pylock_compare.specs.Texts.{texts_cmp};
    ghost use Rattle.pylock_compare.specs.TextsOrder.{texts_total};

    ghost cmp = { texts_cmp };

    ghost total = { texts_total };

    ghost matches_partial_cmp = { λ x y. refl };

    ghost matches_eq = { λ x y. refl };

    fn cmp(&self, other: &Key<'a>) -> Ordering {
        self.texts.cmp(&other.texts)
    }
}
