//! Rows that may have no value.
#![tactic(auto, unfolding(crate::specs::Rows::add_row))]

ghost use Rattle.std.specs.Prelude.{◌≡◌, OnOk};
ghost use Rattle.wire_pages.specs.Pages.{sheet_of};
ghost use Rattle.wire_record_rows.specs.Rows.{add_row, if_text, if_count, if_run, unless_zero};

use std::alloc::AllocError;
use wf_event_values::{Id, RunId, Span, Text};
use wire_pages::Page;

/// Writes a text under a key, where there is one.
pub fn put_if_text(page: &mut Page, key: &str, text: &Option<Text>) -> Result<(), AllocError>
    ensures { OnOk result (sheet_of page.new
        ≡ add_row (if_text key.now text.now) (sheet_of page.old)) }
{
    match text {
        Some(text) => page.text(key, text.as_str()),
        None => Ok(()),
    }
}

/// Writes an ID under a key, where there is one.
pub fn put_if_id(page: &mut Page, key: &str, id: &Option<Id>) -> Result<(), AllocError>
    ensures { OnOk result (sheet_of page.new
        ≡ add_row (if_text key.now id.now) (sheet_of page.old)) }
{
    match id {
        Some(id) => page.text(key, id.as_str()),
        None => Ok(()),
    }
}

/// Writes a duration under a key in milliseconds, where there is one.
pub fn put_if_count(page: &mut Page, key: &str, span: Option<Span>) -> Result<(), AllocError>
    ensures { OnOk result (sheet_of page.new
        ≡ add_row (if_count key.now span) (sheet_of page.old)) }
{
    match span {
        Some(span) => page.number(key, span.millis()),
        None => Ok(()),
    }
}

/// A duration, where there is one.
pub fn put_if_span(page: &mut Page, key: &str, span: Span) -> Result<(), AllocError>
    ensures { OnOk result (sheet_of page.new
        ≡ add_row (if_count key.now (unless_zero span)) (sheet_of page.old)) }
{
    if span.millis() == 0 {
        return Ok(());
    }
    page.number(key, span.millis())
}

/// Writes a run id under a key, where there is one.
pub fn put_if_run(page: &mut Page, key: &str, run: Option<RunId>) -> Result<(), AllocError>
    ensures { OnOk result (sheet_of page.new ≡ add_row (if_run key.now run) (sheet_of page.old)) }
{
    match run {
        Some(run) => page.run(key, run),
        None => Ok(()),
    }
}

/// Writes a number under a key, where there is one.
pub fn put_if_number(page: &mut Page, key: &str, number: Option<u64>) -> Result<(), AllocError>
    ensures { OnOk result (sheet_of page.new
        ≡ add_row (if_count key.now number) (sheet_of page.old)) }
{
    match number {
        Some(number) => page.number(key, number),
        None => Ok(()),
    }
}
