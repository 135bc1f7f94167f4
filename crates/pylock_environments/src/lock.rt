//! A lock that is asked about, with the weights of its markers.

ghost use Rattle.std.specs.Prelude.{◌≡◌, IfOk};

use crate::budget::{Budget, Weight};
use pylock_core::{Entry, Head};
use pymark_core::Marker;
use std::alloc::{AllocError, Global};

/// An entry, its number from 1, and the weight of its marker.
pub(crate) struct WeighedEntry<'a> {
    pub(crate) number: usize,
    pub(crate) entry: &'a Entry,
    pub(crate) weight: Weight,
}

impl Drop for WeighedEntry<'_> {
    fn drop(self) {
        let WeighedEntry {
            number: _,
            entry: _,
            weight: _,
        } = self;
    }
}

impl<'a> WeighedEntry<'a> {
    /// Weighs the entry of this number, within what is left for questions.
    pub(crate) fn new(
        alloc: Global,
        number: usize,
        entry: &'a Entry,
        budget: &mut Budget,
    ) -> Result<WeighedEntry<'a>, AllocError>
        ensures number { IfOk result (λ weighed. weighed.number ≡ number) }
        ensures entry { IfOk result (λ weighed. weighed.entry.now ≡ entry.now) }
    {
        let weight = match entry.marker() {
            Some(marker) => budget.weight_of(alloc, marker)?,
            None => Weight::of_specifiers(0),
        };
        Ok(WeighedEntry {
            number,
            entry,
            weight,
        })
    }
}

/// The head of a lock, and the weights of the markers of its key `environments`.
pub(crate) struct WeighedHead<'a> {
    pub(crate) alloc: Global,
    pub(crate) head: &'a Head,
    weights: Vec<Weight>,
}

impl Drop for WeighedHead<'_> {
    fn drop(self) {
        let WeighedHead {
            alloc: _,
            head: _,
            weights: _,
        } = self;
    }
}

impl<'a> WeighedHead<'a> {
    /// Weighs the head, within what is left for questions.
    pub(crate) fn new(
        alloc: Global,
        head: &'a Head,
        budget: &mut Budget,
    ) -> Result<WeighedHead<'a>, AllocError>
        ensures { IfOk result (λ weighed. weighed.head.now ≡ head.now) }
    {
        let weights = weights_of(alloc, head.environments(), budget)?;
        Ok(WeighedHead {
            alloc,
            head,
            weights,
        })
    }

    /// The weight of the marker at the index of the key `environments`.
    pub(crate) fn weight_at(&self, index: usize) -> Weight {
        match self.weights.get(index) {
            Some(weight) => *weight,
            None => Weight::of_specifiers(0),
        }
    }
}

fn weights_of(
    alloc: Global,
    markers: &[Marker],
    budget: &mut Budget,
) -> Result<Vec<Weight>, AllocError> {
    let mut weights = Vec::with_capacity(alloc, markers.len())?;
    for marker in markers {
        weights.push(budget.weight_of(alloc, marker)?)?;
    }
    Ok(weights)
}
