//! An owner of many values.

ghost use Rattle.std.specs.Prelude.{◌≡◌, [], ◌∷◌, ◌++◌, ◌↔◌, length, IsTrue, IfOk, OnOk, OnErr};

use std::alloc::{AllocError, Allocator, Global};
use std::marker::Model;

/// A list of fewer elements is short.
const SHORT_LIST: usize = 64;

/// A `Vec`. Contracts see the list of its elements alone.
#[derive(Drop)]
pub struct Items<T, A: Allocator = Global> {
    vec: Vec<T, A>,
}

impl<T, A: Allocator> Model for Items<T, A> {
    ghost use Rattle.std.specs.Prelude.{List};
    ghost use Rattle.std.specs.Coded.{coded_list};

    ghost Value = { List T };

    ghost coded = { coded_list T.code };

    ghost view = { λ it. it.vec.items };
}

impl<T, A: Allocator> Items<T, A> {
    /// Returns an empty list.
    pub fn new(alloc: A) -> Items<T, A>
        ensures { result ≡ [] }
    {
        Items {
            vec: Vec::new(alloc),
        }
    }

    /// Returns an empty list with capacity for `count` elements.
    ///
    /// # Errors
    ///
    /// Returns `AllocError` if memory runs out.
    pub fn with_capacity(alloc: A, count: usize) -> Result<Items<T, A>, AllocError>
        ensures { IfOk result (λ it. it ≡ []) }
    {
        Ok(Items {
            vec: Vec::with_capacity(alloc, count)?,
        })
    }

    /// Returns the elements.
    pub fn as_slice(&self) -> &[T]
        ensures { result.now ≡ self.now }
    {
        self.vec.as_slice()
    }

    /// Returns the number of elements.
    pub fn len(&self) -> usize
        ensures { result ≡ length self.now }
    {
        self.vec.len()
    }

    /// Whether there is no element.
    pub fn is_empty(&self) -> bool
        ensures { IsTrue result ↔ (self.now ≡ []) }
    {
        self.vec.is_empty()
    }
}

impl<T: Drop, A: Allocator + Copy> Items<T, A> {
    /// Allocates memory for one element or more in a list that is full.
    fn reserve_more(&mut self) -> Result<(), AllocError>
        ensures { self.new ≡ self.old }
    {
        let len = self.len();
        if len == 0 {
            return self.vec.reserve_exact(1);
        }
        if len >= SHORT_LIST {
            // A long list doubles: what its next elements own fills the memory that it leaves.
            return self.vec.reserve_exact(len);
        }
        // A short list grows by half. It moves to a piece of memory that was freed before, which
        // malloc finds sooner than it makes a piece longer.
        let more = if len < 4 { 2 } else { len / 2 + 1 };
        let mut buffer = Vec::with_capacity(*self.vec.allocator(), len + more)?;
        buffer.append(&mut self.vec)?;
        self.vec = buffer;
        Ok(())
    }

    /// Adds an element at the end.
    ///
    /// # Errors
    ///
    /// Returns `AllocError` if memory runs out. The element is dropped, and the list stays as it
    /// was.
    pub fn push(&mut self, item: T) -> Result<(), AllocError>
        ensures ok { OnOk result (self.new ≡ self.old ++ item ∷ []) }
        ensures err { OnErr result (self.new ≡ self.old) }
    {
        if self.len() == self.vec.capacity() {
            self.reserve_more()?;
        }
        self.vec.push(item)?;
        Ok(())
    }
}
