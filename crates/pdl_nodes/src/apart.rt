//! A value that stands apart, in a box.
ghost use Rattle.std.specs.Prelude.{◌≡◌, IfOk};

use std::alloc::{AllocError, Global};
use std::marker::Model;

/// A value in a box, so that what holds it is small. Contracts see the value.
#[derive(Drop)]
pub struct Apart<T> {
    boxed: Box<T>,
}

impl<T> Model for Apart<T> {
    ghost Value = { T };

    ghost view = { λ a. a.boxed.value };
}

impl<T: Drop> Apart<T> {
    /// Puts a value into a box.
    pub fn new(alloc: Global, value: T) -> Result<Apart<T>, AllocError>
        ensures { IfOk result (λ a. a ≡ value) }
    {
        let boxed = Box::new(alloc, value).map_err(AllocError::from)?;
        Ok(Apart { boxed })
    }

    /// The value.
    pub fn get(&self) -> &T
        ensures { result.now ≡ self.now }
    {
        &self.boxed
    }
}
