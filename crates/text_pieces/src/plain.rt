//! Whether a text stands in quotes as it is. Two loads that overlap cover a short text.

ghost use Rattle.std.specs.Prelude.{◌≡◌, ◌+◌, ◌≤◌, length};
ghost use Rattle.std.specs.Bool.{OnTrue};
ghost use Rattle.json.specs.Print.{escape};
ghost use Rattle.json.specs.Written.{PlainBetween};

use std::simd::prelude::*;

/// Whether none of N bytes wants an escape.
#[inline(always)]
fn are_plain<const N: usize>(text: &[u8], at: usize) -> bool
    requires { (at + N ≤ length text.now) × (N ≤ 64) }
    ensures { OnTrue result (PlainBetween text.now at (at + N)) }
{
    let lanes = Simd::<u8, N>::from_slice(&text[at..]);
    (lanes.simd_eq(Simd::<u8, N>::splat(b'"'))
        | lanes.simd_eq(Simd::<u8, N>::splat(b'\\'))
        | lanes.simd_lt(Simd::<u8, N>::splat(0x20))).to_bitmask()
        == 0
}

/// The same of a few bytes, one after another.
#[inline(always)]
fn few_are_plain(text: &[u8]) -> bool
    ensures { OnTrue result (PlainBetween text.now 0 (length text.now)) }
{
    for &byte in text {
        if byte == b'"' || byte == b'\\' || byte < 0x20 {
            return false;
        }
    }
    true
}

/// The same of 16 bytes and more.
#[inline(always)]
fn many_are_plain(text: &[u8]) -> bool
    requires { 16 ≤ length text.now }
    ensures { OnTrue result (PlainBetween text.now 0 (length text.now)) }
{
    let mut at = 0;
    while text.len() - at > 16 {
        if !are_plain::<16>(text, at) {
            return false;
        }
        at += 16;
    }
    are_plain::<16>(text, text.len() - 16)
}

/// The same of fewer than 16 bytes.
#[inline(always)]
fn short_is_plain(text: &[u8]) -> bool
    requires { length text.now ≤ 16 }
    ensures { OnTrue result (PlainBetween text.now 0 (length text.now)) }
{
    let length = text.len();
    if length >= 8 {
        are_plain::<8>(text, 0) && are_plain::<8>(text, length - 8)
    } else if length >= 4 {
        are_plain::<4>(text, 0) && are_plain::<4>(text, length - 4)
    } else {
        few_are_plain(text)
    }
}

/// Whether none of a text's bytes wants an escape.
#[inline(always)]
pub fn is_plain(text: &[u8]) -> bool
    ensures { OnTrue result (escape text.now ≡ text.now) }
{
    if text.len() > 16 {
        many_are_plain(text)
    } else {
        short_is_plain(text)
    }
}
