//! A text that grows by two pieces at a time.

ghost use Rattle.std.specs.Prelude.{◌≡◌, ◌++◌, decimal, OnOk, string_bytes};

use std::alloc::AllocError;

/// Adds a piece of text, and another after it.
///
/// # Errors
/// Where memory was refused.
#[inline(always)]
pub fn put_both(page: &mut String, piece: &str, text: &str) -> Result<(), AllocError>
    ensures { OnOk result (string_bytes page.new
        ≡ (string_bytes page.old ++ piece.now) ++ text.now) }
{
    page.push_str(piece)?;
    page.push_str(text)
}

/// Adds a piece of text, and a number after it.
///
/// # Errors
/// Where memory was refused.
#[inline(always)]
pub fn put_number(page: &mut String, piece: &str, number: u64) -> Result<(), AllocError>
    ensures { OnOk result (string_bytes page.new
        ≡ (string_bytes page.old ++ piece.now) ++ decimal number) }
{
    let mut buffer = itoa::Buffer::new();
    put_both(page, piece, buffer.format(number))
}
