//! Reading specifiers from the left, without memory.

mod draft;
mod normal_operand;
mod operand;
mod operator;

pub(crate) use draft::{SpecifierDraft, read_operand};
pub(crate) use normal_operand::read_normal_operand;
