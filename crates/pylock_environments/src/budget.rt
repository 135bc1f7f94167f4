//! What questions cost, and how much is left for them.

use pymark_clauses::clauses_of;
use pymark_core::Marker;
use std::alloc::{AllocError, Global};

/// What all questions about a lock may cost together.
const MOST_COST: usize = 262_144;

/// The most clauses of a marker that are counted, as `pymark_algebra` decides no more.
const MOST_CLAUSES: usize = 4096;

/// The most literals of its clauses together.
const MOST_LITERALS: usize = 131_072;

/// How many comparisons cost as much as one.
const LENGTH_OF_ONE: usize = 32;

/// How many comparisons a specifier costs, since each release that is tried is put to it.
const LENGTH_OF_SPECIFIER: usize = 8;

/// What a question is made of.
#[derive(Clone, Copy)]
pub(crate) struct Weight {
    /// The clauses of its markers.
    clauses: usize,
    /// Their comparisons, and what its specifiers cost as comparisons.
    length: usize,
}

impl Weight {
    /// That of specifiers alone, of which there are so many.
    pub(crate) fn of_specifiers(count: usize) -> Weight {
        Weight {
            clauses: 1,
            length: count.saturating_mul(LENGTH_OF_SPECIFIER),
        }
    }

    /// That of a marker. Its clauses are counted up to as many as `pymark_algebra` decides.
    fn of_marker(alloc: Global, marker: &Marker) -> Result<Weight, AllocError> {
        let length = marker.comparisons(alloc)?.len();
        let most = MOST_LITERALS
            .checked_div(length)
            .unwrap_or(MOST_CLAUSES)
            .min(MOST_CLAUSES);
        let clauses = match clauses_of(alloc, marker, true, most)? {
            Some(clauses) => clauses.len(),
            None => most,
        };
        Ok(Weight { clauses, length })
    }

    /// That of a question with both.
    pub(crate) fn with(self, other: Weight) -> Weight {
        Weight {
            clauses: self.clauses.saturating_mul(other.clauses),
            length: self.length.saturating_add(other.length),
        }
    }

    /// What it costs.
    fn cost(self) -> usize {
        let parts = (self.length / LENGTH_OF_ONE).saturating_add(1);
        self.clauses.max(1).saturating_mul(parts)
    }
}

/// What is left for questions.
#[derive(Drop)]
pub(crate) struct Budget {
    left: usize,
}

impl Budget {
    /// All of it.
    pub(crate) fn new() -> Budget {
        Budget { left: MOST_COST }
    }

    /// The weight of a marker. To count its clauses costs as much as a question about it alone, and
    /// where nothing is left they aren't counted.
    pub(crate) fn weight_of(
        &mut self,
        alloc: Global,
        marker: &Marker,
    ) -> Result<Weight, AllocError> {
        if self.is_spent() {
            return Ok(Weight::of_specifiers(0));
        }
        let weight = Weight::of_marker(alloc, marker)?;
        self.spend(weight);
        Ok(weight)
    }

    /// Whether nothing is left.
    pub(crate) fn is_spent(&self) -> bool {
        self.left == 0
    }

    /// Spends what a question of this weight costs, or all where less is left, and answers whether
    /// there was enough.
    pub(crate) fn spend(&mut self, weight: Weight) -> bool {
        let cost = weight.cost();
        if cost > self.left {
            self.left = 0;
            return false;
        }
        self.left -= cost;
        true
    }
}
