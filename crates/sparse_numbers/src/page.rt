//! A page of numbers.

ghost use Rattle.std.specs.Prelude.{◌≡◌, ◌↔◌, ℕ, ◌<◌, [], IfOk, IsTrue, length, replicate, slice_index_or, slice_set};

use std::alloc::{AllocError, Global};
use std::marker::Model;

/// How many numbers a page has.
pub(crate) const SIZE: usize = 1024;

/// The numbers of a page. Where it is not there, all of them are 0.
pub(crate) struct Page {
    numbers: Vec<usize>,
    /// How many are not 0. It says when it pays to look, and nothing that is proved rests on it.
    used: u32,
}

impl Drop for Page {
    fn drop(self) {
        let Page {
            numbers: _,
            used: _,
        } = self;
    }
}

impl Model for Page {
    ghost use Rattle.std.specs.Prelude.{List, ℕ};

    ghost Value = { List ℕ };

    ghost view = { λ p. p.numbers.items };
}

impl Page {
    /// One that is not there, which takes no memory.
    pub(crate) fn absent(alloc: Global) -> Page
        ensures { result ≡ [] }
    {
        Page {
            numbers: Vec::new(alloc),
            used: 0,
        }
    }

    /// One that is there. All its numbers are 0.
    pub(crate) fn zeros(alloc: Global) -> Result<Page, AllocError>
        ensures { IfOk result (λ page. page ≡ replicate 1024 0) }
    {
        let mut numbers = Vec::new(alloc);
        numbers.resize(SIZE, 0)?;
        Ok(Page { numbers, used: 0 })
    }

    /// Whether the page has a number at this place, and is there.
    pub(crate) fn covers(&self, place: usize) -> bool
        ensures { IsTrue result ↔ (place < length self.now) }
    {
        place < self.numbers.len()
    }

    /// The number at a place.
    pub(crate) fn get(&self, place: usize) -> usize
        ensures { result ≡ slice_index_or self.now place 0 }
    {
        if place < self.numbers.len() {
            self.numbers[place]
        } else {
            0
        }
    }

    /// Writes a number at a place of a page that is there.
    pub(crate) fn set(&mut self, place: usize, number: usize)
        requires { place < length self.old }
        ensures { self.new ≡ slice_set self.old place number }
    {
        let before = self.numbers[place];
        self.numbers[place] = number;
        if before == 0 && number != 0 {
            self.used = self.used.saturating_add(1);
        }
        if before != 0 && number == 0 {
            self.used = self.used.saturating_sub(1);
        }
    }

    /// Whether the page is not there.
    pub(crate) fn is_absent(&self) -> bool
        ensures { IsTrue result → self.now ≡ [] }
    {
        self.numbers.is_empty()
    }

    /// Whether the page is there for nothing: all its numbers are 0.
    pub(crate) fn is_blank(&self) -> bool
        ensures { IsTrue result → (k : ℕ) → slice_index_or self.now k 0 ≡ 0 }
    {
        self.used == 0 && !self.numbers.is_empty() && self.numbers.iter().all(|number| *number == 0)
    }
}
