//! The list, and how it grows.

ghost use Rattle.std.specs.Prelude.{◌≡◌, ◌≢◌, ◌⊎◌, ◌+◌, ◌<◌, ◌≤◌, ◌∷◌, ◌++◌, [], OnErr, OnOk, length, replicate, slice_index_or, slice_set};

use crate::page::SIZE;
use crate::pages::Pages;
use std::alloc::{AllocError, Global};
use std::marker::Model;

/// A list of numbers that grows at its end. A page of 1,024 numbers that are all 0 takes the room of
/// its name alone, once numbers come after it; and none, where all before it are 0 too and such pages
/// are more than the others.
pub struct SparseNumbers {
    pages: Pages,
    /// How many numbers there are.
    len: usize,
}

impl Drop for SparseNumbers {
    fn drop(self) {
        let SparseNumbers { pages: _, len: _ } = self;
    }
}

impl Model for SparseNumbers {
    ghost use Rattle.std.specs.Prelude.{◌-◌, ◌*◌, length};
    ghost use Rattle.sparse_numbers.specs.Numbers.{Numbers};
    ghost use Rattle.sparse_numbers.specs.Pages.{IsPaged, first_numbers, number_at};

    ghost Value = { Numbers };

    ghost view = { λ a. record {
      items = first_numbers (number_at a.pages) a.len;
      room = 1024 * length a.pages - a.len;
    } };

    ghost invariant = { λ a. IsPaged a.pages a.len };
}

impl SparseNumbers {
    /// An empty list with no room, which takes no memory.
    pub fn new(alloc: Global) -> SparseNumbers
        ensures { result.items ≡ [] }
    {
        SparseNumbers {
            pages: Pages::new(alloc),
            len: 0,
        }
    }

    /// How many numbers there are.
    pub fn len(&self) -> usize
        ensures { result ≡ length self.now.items }
    {
        self.len
    }

    /// Makes room for so many more numbers.
    ///
    /// # Errors
    /// Where memory was refused, or the list would have 2^60 numbers and more. They stay as they were.
    pub fn reserve(&mut self, additional: usize) -> Result<(), AllocError>
        ensures same { self.new.items ≡ self.old.items }
        ensures ok { OnOk result (additional ≤ self.new.room) }
        ensures room { self.old.room ≤ self.new.room }
    {
        while self.pages.len() * SIZE - self.len < additional {
            self.pages.push()?;
        }
        Ok(())
    }

    /// One more number, after the others. It takes no memory.
    pub fn push_reserved(&mut self, number: usize)
        requires { 0 < self.old.room }
        ensures items { self.new.items ≡ self.old.items ++ number ∷ [] }
        ensures room { self.new.room + 1 ≡ self.old.room }
    {
        self.pages.write(self.len, number);
        self.len += 1;
        if self.len % SIZE == 0 {
            self.pages.give_back(self.len / SIZE - 1);
        }
    }

    /// So many more numbers that are 0, after the others. It takes no memory, and gives back that of each
    /// page of which all are 0.
    pub fn extend_zeros_reserved(&mut self, count: usize)
        requires { count ≤ self.old.room }
        ensures items { self.new.items ≡ self.old.items ++ replicate count 0 }
        ensures room { self.new.room + count ≡ self.old.room }
    {
        let first = self.len / SIZE;
        self.len += count;
        for page in first..self.len / SIZE {
            self.pages.give_back(page);
        }
    }

    /// The number with this index, which counts from 0.
    pub fn get(&self, index: usize) -> usize
        requires { index < length self.now.items }
        ensures { result ≡ slice_index_or self.now.items index 0 }
    {
        self.pages.get(index)
    }

    /// Writes a number in the place of another.
    ///
    /// # Errors
    /// Where memory was refused, which is asked for where the page is not there and the number is not 0.
    /// Nothing changes then.
    pub fn set(&mut self, index: usize, number: usize) -> Result<(), AllocError>
        requires { index < length self.old.items }
        ensures ok { OnOk result (self.new.items ≡ slice_set self.old.items index number) }
        ensures err { OnErr result (self.new.items ≡ self.old.items) }
        ensures room { self.new.room ≡ self.old.room }
    {
        if number == 0 {
            self.replace(index, 0);
            return Ok(());
        }
        self.pages.make(index)?;
        self.pages.write(index, number);
        Ok(())
    }

    /// Writes a number in the place of one that is not 0, or 0 in the place of any. It takes no
    /// memory, and gives none back.
    pub fn replace(&mut self, index: usize, number: usize)
        requires there { index < length self.old.items }
        requires some { (number ≡ 0) ⊎ (slice_index_or self.old.items index 0 ≢ 0) }
        ensures items { self.new.items ≡ slice_set self.old.items index number }
        ensures room { self.new.room ≡ self.old.room }
    {
        self.pages.replace(index, number);
    }

    /// Gives back the memory of this number's page, where all of the page are 0 and others come after it.
    pub fn give_back(&mut self, index: usize)
        requires { index < length self.old.items }
        ensures items { self.new.items ≡ self.old.items }
        ensures room { self.new.room ≡ self.old.room }
    {
        let page = index / SIZE;
        if page < self.len / SIZE {
            self.pages.give_back(page);
        }
    }
}
