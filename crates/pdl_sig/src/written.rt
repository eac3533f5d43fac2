//! A signature as it is written: arguments with the words of their dimensions.
use crate::{ArgType, Role};
use pdl_elem::{Items, Name};

/// A dimension: its word, and the number that it is fixed to, if any.
#[derive(Debug, Drop)]
pub struct WrittenDim {
    pub name: Name,
    pub size: Option<u32>,
}

/// An argument with its dimensions.
#[derive(Debug, Drop)]
pub struct WrittenArg {
    pub name: Name,
    pub role: Role,
    pub ty: ArgType,
    pub dims: Items<WrittenDim>,
}
