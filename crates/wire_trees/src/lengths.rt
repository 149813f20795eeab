//! Which lengths the names of an object's members have: a bit for each length, lengths that differ by 32
//! in one bit. Most fields that a line may have are in few lines, and a name whose length no member's has
//! is looked for without a walk.

ghost use Rattle.std.specs.Prelude.{◌≡◌, ℕ, List, true};
ghost use Rattle.wire_trees.specs.Borrowed.{is_marked};

/// How many lengths are told apart.
const LENGTHS: usize = 32;

/// Whether a name of that length may be there.
#[inline(always)]
pub(crate) fn is_marked(lengths: u32, name: &str) -> bool
    ensures { result ≡ is_marked lengths name.now }
{
    (lengths >> (name.len() % LENGTHS)) & 1 == 1
}

/// The lengths, with that of one name more.
#[inline(always)]
pub(crate) fn mark(lengths: u32, name: &str) -> u32
    ensures marked { is_marked result name.now ≡ true }
    ensures kept { (n : List ℕ) → is_marked lengths n ≡ true → is_marked result n ≡ true }
{
    lengths | 1 << (name.len() % LENGTHS)
}
