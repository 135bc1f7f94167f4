//! The report on a lock, an environment and an input.

pub mod editing;
pub mod fault;
pub mod opening;
pub mod pieces;
pub mod print;
pub mod printing;
pub mod run;
