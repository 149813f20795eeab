//! Lines in a chunk.

ghost use Rattle.std.specs.Prelude.{◌≡◌, ◌∷◌, ◌++◌, false, IfSome, IfNone};
ghost use Rattle.wire_lines.specs.Pending.{has_feed};

use memchr::memchr;

/// What stands before the first line feed and what stands after it, where there is one.
pub fn cut(text: &[u8]) -> Option<(&[u8], &[u8])>
    ensures parts { IfSome result (λ p. text.now ≡ p.0.now ++ 10 ∷ p.1.now) }
    ensures first { IfSome result (λ p. has_feed p.0.now ≡ false) }
    ensures none { IfNone result (has_feed text.now ≡ false) }
{
    let Some(at) = memchr(b'\n', text) else {
        return None;
    };
    let (line, rest) = text.split_at(at);
    Some((line, &rest[1..]))
}
