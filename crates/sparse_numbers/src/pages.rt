//! Numbers in pages, one page after another.

ghost use Rattle.std.specs.Prelude.{◌≡◌, ◌⊎◌, ◌↔◌, ℕ, ◌+◌, ◌*◌, ◌/◌, ◌^◌, ◌<◌, ◌≤◌, ◌∷◌, ◌++◌, [], IfOk, IsTrue, OnErr, OnOk, length, replicate, slice_set, take};
ghost use Rattle.sparse_numbers.specs.Pages.{AreWhole, IsPaged, IsThere, IsWritten, SameNumbers, number_at};

use crate::page::{Page, SIZE};
use std::alloc::{AllocError, Global};
use std::marker::Model;

/// No list has room for more than so many pages.
const MOST_PAGES: usize = 1 << 50;

/// Pages one after another. The first ones that are not there take no room at all, once they are more
/// than the others.
pub(crate) struct Pages {
    /// How many pages are left out before the first that is kept. None of them is there.
    before: usize,
    kept: Vec<Page>,
    alloc: Global,
}

impl Drop for Pages {
    fn drop(self) {
        let Pages {
            before: _,
            kept: _,
            alloc: _,
        } = self;
    }
}

impl Model for Pages {
    ghost use Rattle.std.specs.Prelude.{List, ℕ, ◌+◌, ◌^◌, ◌≤◌, ◌++◌, [], length, replicate};

    ghost Value = { List (List ℕ) };

    ghost view = { λ p. replicate p.before [] ++ p.kept.items };

    ghost invariant = { λ p. p.before + length p.kept.items ≤ 2 ^ 50 };
}

impl Pages {
    /// No page, which takes no memory.
    pub(crate) fn new(alloc: Global) -> Pages
        ensures { result ≡ [] }
    {
        Pages {
            before: 0,
            kept: Vec::new(alloc),
            alloc,
        }
    }

    /// How many pages there are.
    pub(crate) fn len(&self) -> usize
        ensures count { result ≡ length self.now }
        ensures few { result ≤ 2 ^ 50 }
    {
        self.before + self.kept.len()
    }

    /// One more page after the others, which is there. All its numbers are 0.
    ///
    /// # Errors
    /// Where memory was refused, or there would be more than 2^50 pages. They stay as they were.
    pub(crate) fn push(&mut self) -> Result<(), AllocError>
        ensures ok { OnOk result (self.new ≡ self.old ++ replicate 1024 0 ∷ []) }
        ensures few { length self.new ≤ 2 ^ 50 }
        ensures err { OnErr result (self.new ≡ self.old) }
    {
        if self.len() >= MOST_PAGES {
            return Err(AllocError);
        }
        let page = Page::zeros(self.alloc)?;
        self.kept.push(page)?;
        Ok(())
    }

    /// The number with this index.
    pub(crate) fn get(&self, index: usize) -> usize
        ensures { result ≡ number_at self.now index }
    {
        let page = index / SIZE;
        if page < self.before {
            return 0;
        }
        let place = page - self.before;
        if place < self.kept.len() {
            self.kept[place].get(index % SIZE)
        } else {
            0
        }
    }

    /// Whether the page of this number is there.
    fn is_there(&self, index: usize) -> bool
        ensures { IsTrue result ↔ IsThere self.now index }
    {
        let page = index / SIZE;
        if page < self.before {
            return false;
        }
        let place = page - self.before;
        place < self.kept.len() && self.kept[place].covers(index % SIZE)
    }

    /// Writes a number, whose page is there.
    pub(crate) fn write(&mut self, index: usize, number: usize)
        requires { IsThere self.old index }
        ensures { IsWritten self.old self.new index number }
    {
        self.kept[index / SIZE - self.before].set(index % SIZE, number);
    }

    /// Writes a number whose page is there, or 0 in the place of any.
    pub(crate) fn replace(&mut self, index: usize, number: usize)
        requires { (number ≡ 0) ⊎ IsThere self.old index }
        ensures { IsWritten self.old self.new index number }
    {
        if self.is_there(index) {
            self.write(index, number);
        }
    }

    /// Makes the page of this number, where it is not there. Where memory is refused, nothing changes.
    pub(crate) fn make(&mut self, index: usize) -> Result<(), AllocError>
        requires index { index < 1024 * length self.old }
        requires whole { AreWhole self.old }
        ensures same { SameNumbers self.old self.new }
        ensures paged { (len : ℕ) → IsPaged self.old len → IsPaged self.new len }
        ensures count { length self.new ≡ length self.old }
        ensures ok { OnOk result (IsThere self.new index) }
    {
        if self.is_there(index) {
            return Ok(());
        }
        let made = Page::zeros(self.alloc)?;
        self.put(index / SIZE, made)?;
        Ok(())
    }

    /// Puts a page in the place of another one. Where memory is refused, nothing changes.
    fn put(&mut self, page: usize, put: Page) -> Result<(), AllocError>
        requires { page < length self.old }
        ensures ok { OnOk result (self.new ≡ slice_set self.old page put) }
        ensures err { OnErr result (self.new ≡ self.old) }
    {
        if page < self.before {
            put_before(&mut self.kept, self.alloc, self.before - page)?;
            self.before = page;
        }
        self.kept[page - self.before] = put;
        Ok(())
    }

    /// Gives back the memory of a page, of which all numbers are among so many first ones, where all of
    /// them are 0.
    pub(crate) fn give_back(&mut self, page: usize)
        requires { page < length self.old }
        ensures same { SameNumbers self.old self.new }
        ensures paged { (len : ℕ) → 1024 * (page + 1) ≤ len → IsPaged self.old len → IsPaged self.new len }
        ensures count { length self.new ≡ length self.old }
    {
        if page < self.before {
            return;
        }
        let place = page - self.before;
        if self.kept[place].is_blank() {
            self.kept[place] = Page::absent(self.alloc);
            self.leave_out();
        }
    }

    /// Leaves out the first pages, where they are not there and are more than the others.
    fn leave_out(&mut self)
        ensures { self.new ≡ self.old }
    {
        let absent = absent_first(&self.kept);
        let others = self.kept.len() - absent;
        if others < absent {
            self.kept.rotate_left(absent);
            self.kept.truncate(others);
            self.before += absent;
        }
    }
}

/// So many pages more, before the others. None of them is there. Where memory is refused, nothing changes.
fn put_before(pages: &mut Vec<Page>, alloc: Global, count: usize) -> Result<(), AllocError>
    ensures ok { OnOk result (pages.new.items ≡ replicate count [] ++ pages.old.items) }
    ensures err { OnErr result (pages.new.items ≡ pages.old.items) }
{
    let mut all = absent(alloc, count)?;
    all.append(pages)?;
    *pages = all;
    Ok(())
}

/// So many pages that are not there.
fn absent(alloc: Global, count: usize) -> Result<Vec<Page>, AllocError>
    ensures { IfOk result (λ pages. pages.items ≡ replicate count []) }
{
    let mut pages = Vec::new(alloc);
    for _made in 0..count {
        pages.push(Page::absent(alloc))?;
    }
    Ok(pages)
}

/// How many of the first pages are not there.
fn absent_first(pages: &Vec<Page>) -> usize
    ensures few { result ≤ length pages.now.items }
    ensures none { take result pages.now.items ≡ replicate result [] }
{
    for count in 0..pages.len() {
        if !pages[count].is_absent() {
            return count;
        }
    }
    pages.len()
}
