//! The reader of a text's lexemes. The other modules have the parts that it reads.

use std::alloc::Global;

/// Reads the lexemes of a text, where at most `fuel` parts of an expression are open at once.
#[derive(Clone, Copy)]
pub struct Reader<'s> {
    pub alloc: Global,
    pub source: &'s [u8],
    pub fuel: usize,
}
