//! The calls that wait in a lane, each with the number of its line.

ghost use Rattle.std.specs.Prelude.{◌≡◌, [], ◌∷◌, ◌++◌, map, OnOk, IfSome, IfNone};
ghost use Rattle.lanes.specs.Calls.{counted_from, number_at, waiting};

use service_model_types::call::Call;
use std::alloc::{AllocError, Global};
use std::collections::VecDeque;
use std::mem;

/// A call, and the number of its line. In a list that a reader made, lines count from 0.
#[derive(Drop)]
pub(crate) struct LineCall {
    pub(crate) line: u64,
    pub(crate) call: Call,
}

/// Calls that a reader found, and the number from which their lines count.
#[derive(Drop)]
struct CallList {
    first: u64,
    calls: VecDeque<LineCall>,
}

/// What waits at one place: a call that came alone, or a list.
#[derive(Drop)]
enum Entry {
    One(LineCall),
    List(CallList),
}

/// Calls in their order, in the lists that they came in.
///
/// A list that a reader made stays where it is until its calls are made: it lies in another processor's
/// memory, so that each move of it counts.
#[derive(Drop)]
pub(crate) struct Calls {
    now: CallList,
    /// What comes after it.
    next: VecDeque<Entry>,
    /// Lists that were gone through. Their memory is used again.
    spare: Vec<VecDeque<LineCall>>,
}

/// The number of the line that stands so many lines after the one with this number. No number is
/// greater than the greatest `u64`.
pub(crate) fn number_at(first: u64, count: u64) -> u64
    ensures { result ≡ number_at first count }
{
    first.saturating_add(count)
}

impl Calls {
    pub(crate) fn new(alloc: Global) -> Calls
        ensures { waiting result ≡ [] }
    {
        Calls {
            now: CallList {
                first: 0,
                calls: VecDeque::new(alloc),
            },
            next: VecDeque::new(alloc),
            spare: Vec::new(alloc),
        }
    }

    /// A list that is used for nothing.
    fn room(&mut self, alloc: Global) -> VecDeque<LineCall>
        ensures { waiting self.new ≡ waiting self.old }
    {
        match self.spare.pop() {
            Some(list) => list,
            None => VecDeque::new(alloc),
        }
    }

    /// One call more.
    pub(crate) fn push(&mut self, call: LineCall) -> Result<(), AllocError>
        ensures { OnOk result (waiting self.new ≡ waiting self.old ++ call ∷ []) }
    {
        self.next.push_back(Entry::One(call))?;
        Ok(())
    }

    /// A list of calls more, whose lines count from this number on. Another one is left in its place.
    pub(crate) fn take_list(
        &mut self,
        alloc: Global,
        first: u64,
        calls: &mut VecDeque<LineCall>,
    ) -> Result<(), AllocError>
        ensures { OnOk result
            (waiting self.new ≡ waiting self.old ++ map (counted_from first) calls.old.items) }
    {
        let room = self.room(alloc);
        let calls = mem::replace(calls, room);
        self.next.push_back(Entry::List(CallList { first, calls }))?;
        Ok(())
    }

    /// The first call, which is made now.
    pub(crate) fn pop(&mut self) -> Option<LineCall>
        ensures some { IfSome result (λ c. waiting self.old ≡ c ∷ waiting self.new) }
        ensures none { IfNone result (waiting self.old ≡ []) }
    {
        while self.now.calls.len() == 0 {
            let Some(entry) = self.next.pop_front() else {
                return None;
            };
            match entry {
                Entry::One(call) => return Some(call),
                Entry::List(list) => self.begin(list),
            }
        }
        let LineCall { line, call } = self.now.calls.pop_front()?;
        let line = number_at(self.now.first, line);
        Some(LineCall { line, call })
    }

    /// A list whose calls are made now, in the place of one that has none left.
    fn begin(&mut self, list: CallList)
        ensures now { self.new.now ≡ list }
        ensures next { self.new.next ≡ self.old.next }
    {
        let CallList { first: _, calls } = mem::replace(&mut self.now, list);
        let _ = self.spare.push(calls);
    }

    /// Removes all of them.
    pub(crate) fn clear(&mut self)
        ensures { waiting self.new ≡ [] }
    {
        self.now.calls.clear();
        self.next.clear();
    }
}
