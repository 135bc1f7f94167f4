//! The printed text, pushed onto the bytes that stand before it.

pub mod field;
mod file_line;
pub mod plan;
pub mod refusal;
