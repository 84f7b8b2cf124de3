//! An owner of one value.

ghost use Rattle.std.specs.Prelude.{◌≡◌, IfOk};

use std::alloc::{AllocError, Allocator, Global};
use std::marker::Model;

/// A `Box`. Contracts see the value that it owns alone.
#[derive(Drop)]
pub struct Boxed<T, A: Allocator = Global> {
    value: Box<T, A>,
}

impl<T, A: Allocator> Model for Boxed<T, A> {
    ghost Value = { T };

    ghost coded = { T.code };

    ghost view = { λ b. b.value.value };
}

impl<T, A: Allocator> Boxed<T, A> {
    /// Returns the value.
    pub fn get(&self) -> &T
        ensures { result.now ≡ self.now }
    {
        &self.value
    }

    /// Returns the value, without its owner.
    pub fn into_inner(self) -> T
        ensures { result ≡ self }
    {
        let Boxed { value } = self;
        Box::into_inner(value)
    }
}

impl<T: Drop, A: Allocator> Boxed<T, A> {
    /// Puts a value into memory of its own.
    ///
    /// # Errors
    ///
    /// Returns `AllocError` if memory runs out, and drops the value.
    pub fn new(alloc: A, value: T) -> Result<Boxed<T, A>, AllocError>
        ensures { IfOk result (λ b. b ≡ value) }
    {
        Ok(Boxed {
            value: Box::new(alloc, value)?,
        })
    }
}
