//! What a session keeps of its entries.

pub(crate) mod capacity;
pub(crate) mod conditions;
pub(crate) mod index;
pub(crate) mod names;
pub(crate) mod rows;
pub(crate) mod tag_sets;
