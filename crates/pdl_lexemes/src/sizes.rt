//! The dimensions of a list while it is read.

ghost use Rattle.std.specs.Prelude.{◌≡◌, ◌∷◌, ◌++◌, [], ℕ, List, IfOk};
ghost use Rattle.pdl_lexemes.specs.Lists.{shared, with_length};

use std::alloc::{AllocError, Global};
use std::marker::Model;

/// The sizes of a list's dimensions, dimension 0 first.
#[derive(Debug, Drop)]
pub struct Sizes {
    items: Vec<u32>,
}

impl Model for Sizes {
    ghost Value = { List ℕ };

    ghost view = { λ s. s.items.items };
}

impl Sizes {
    pub fn new(alloc: Global) -> Sizes
        ensures { result ≡ [] }
    {
        Sizes {
            items: Vec::new(alloc),
        }
    }

    /// The sizes in order.
    pub fn list(&self) -> &[u32]
        ensures { result.now ≡ self.now }
    {
        self.items.as_slice()
    }

    /// With one more dimension of this size.
    pub fn with(mut self, size: u32) -> Result<Sizes, AllocError>
        ensures { IfOk result (λ s. s ≡ self ++ size ∷ []) }
    {
        self.items.push(size).map_err(AllocError::from)?;
        Ok(self)
    }
}

/// The dimensions that two members have, where both have the same.
pub fn shared(a: Option<Sizes>, b: Option<Sizes>) -> Option<Sizes>
    ensures { result ≡ shared a b }
{
    match (a, b) {
        (Some(a), Some(b)) => { if a.list() == b.list() { Some(a) } else { None } }
        (_, _) => None,
    }
}

/// A list's dimensions: those of its members, and then its own length.
pub fn with_length(length: u32, shape: Option<Sizes>) -> Result<Option<Sizes>, AllocError>
    ensures { IfOk result (λ s. s ≡ with_length length shape) }
{
    match shape {
        None => Ok(None),
        Some(sizes) => Ok(Some(sizes.with(length)?)),
    }
}
