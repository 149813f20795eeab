//! What a slot can hold, and why a step is refused.
ghost use Rattle.std.specs.Prelude.{◌≡◌, IfOk, OnErr};

use std::alloc::AllocError;

/// Why a step was not made. Nothing has changed then, and the request comes back.
#[derive(Clone, Copy, PartialEq, Eq)]
pub enum Refused {
    /// Another pass was in the slot.
    Busy,
    /// The record or the object could not grow.
    NoMemory,
}

/// An object that changes in steps, each in two halves: `prepare`, which can fail and leaves the
/// object standing for what it stood for, and `commit`, which can't.
///
/// Contracts see an object by the contents that it stands for. What a request answers and what it
/// makes of a content are functions of the two alone.
pub trait Object: Drop {
    ghost use Rattle.std.specs.Prelude.{Bool, List, ℕ};
    ghost use Rattle.gate.specs.Records.{Later};

    type Request: Drop;

    type Reply: Drop;
    /// What `prepare` hands to `commit`.
    type Plan;
    /// What an object stands for. No value of it is ever made, so it may be what no machine holds.
    type Content;

    // The content before any step. No step changes it.
    ghost opening: { Self → Self.Content };

    // The object, as it is in memory, stands for the content.
    ghost stands: { Self → Self.Content → Type 0 };

    // The reply to a request at a content.
    ghost answer: { Self.Content → Self.Request → Self.Reply };

    // The content after a request.
    ghost after: { Self.Content → Self.Request → Self.Content };

    // What every content keeps of each one before it: a relation from the earlier to the later.
    ghost keeps: { Self.Content → Self.Content → Type 0 };

    // What has to stand in the contents of all slots before a request is made on one of them.
    ghost grounds: { List Self.Content → ℕ → Self.Request → Type 0 };

    // Whether the records of such objects stay in memory whole. Of others the gate hands out what they
    // grow by (`Gate::try_hand_out`).
    ghost whole: { Bool };

    // The object is ready to do, by this plan, what the request asks at the content.
    ghost ready: { Self → Self.Content → Self.Request → Self.Plan → Type 0 };

    /// Makes all room that the step needs.
    ///
    /// # Errors
    /// Where memory was refused. The object then still stands for the same contents.
    fn prepare(&mut self, request: &Self::Request) -> Result<Self::Plan, AllocError>
        requires { (c : Self.Content) × stands self.old c }
        ensures opening { opening self.new ≡ opening self.old }
        ensures ok { IfOk result (λ plan.
            (c : Self.Content) → stands self.old c → ready self.new c request.now plan) }
        ensures err { OnErr result ((c : Self.Content) → stands self.old c → stands self.new c) };

    /// Makes the step. It takes no memory.
    fn commit(&mut self, plan: Self::Plan) -> Self::Reply
        requires { (c : Self.Content) × (q : Self.Request) × ready self.old c q plan }
        ensures opening { opening self.new ≡ opening self.old }
        ensures stands { (c : Self.Content) (q : Self.Request)
            → ready self.old c q plan → stands self.new (after c q) }
        ensures reply { (c : Self.Content) (q : Self.Request)
            → ready self.old c q plan → result ≡ answer c q }
        ensures keeps { (c : Self.Content) (q : Self.Request)
            → ready self.old c q plan → keeps c (after c q) };

    // A content keeps all of itself.
    ghost keeps_same: { (c : Self.Content) → keeps c c };

    // What is kept of one that is kept is kept.
    ghost keeps_on: { (a b c : Self.Content) → keeps a b → keeps b c → keeps a c };

    // What grounds a request still does when records grow.
    ghost grounds_on: { (before later : List Self.Content) (k : ℕ) (q : Self.Request)
        → Later after before later → grounds before k q → grounds later k q };
}

/// An object whose record stays in memory whole, so that `Gate::close` gives it.
pub trait KeepsRecord: Object {
    ghost use Rattle.std.specs.Prelude.{◌≡◌, true};

    ghost is_whole: { Self.whole ≡ true };
}

/// An object whose record is handed out while it grows.
pub trait HandsOut: Object {
    ghost use Rattle.std.specs.Prelude.{◌≡◌, false};

    ghost is_handed_out: { Self.whole ≡ false };
}
