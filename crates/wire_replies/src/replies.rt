//! The line of a reply: an answer with its members, or a refusal with its name and its number, and
//! what it names besides.
//!
//! Rules: L10.

ghost use Rattle.std.specs.Prelude.{◌≡◌, ◌++◌, ◌∷◌, [], OnOk, IfOk, string_bytes};
ghost use Rattle.wire_pages.specs.Pages.{sheet_of, text_of, add_members, add_value};
ghost use Rattle.wire_replies.specs.Answers.{line_member};
ghost use Rattle.wire_replies.specs.Replies.{refusal_members, reply_tree, reply_line, line_of};

use crate::answers::put_answer;
use crate::quick::put_quickly;
use service_model_types::answer::Reply;
use std::alloc::{AllocError, Global};
use wf_event_values::Refusal;
use wire_pages::Page;

/// The bytes that a reply's text has room for before it grows: most replies are shorter.
const USUAL_LENGTH: usize = 256;

/// What a refusal is, with what it says besides its name and number.
#[tactic(auto, unfolding(wire_pages::specs::Pages::add_members))]
fn put_refusal(page: &mut Page, line: u64, refusal: &Refusal) -> Result<(), AllocError>
    ensures { OnOk result (sheet_of page.new
        ≡ add_members (refusal_members refusal.now (line_member line)) (sheet_of page.old)) }
{
    page.text("error", refusal.name())?;
    if let Refusal::InvalidArgument(field) = refusal {
        page.text("field", field.name())?;
    }
    page.number("line", line)?;
    page.number("no", refusal.number())?;
    if let Refusal::AlreadyStarted(run) = refusal {
        page.run("run", *run)?;
    }
    Ok(())
}

#[tactic(auto, unfolding(wire_pages::specs::Pages::add_value, crate::specs::Replies::reply_tree))]
fn put_reply(page: &mut Page, line: u64, reply: &Reply) -> Result<(), AllocError>
    ensures { OnOk result (sheet_of page.new
        ≡ add_value (reply_tree line reply.now) (sheet_of page.old)) }
{
    page.begin_object()?;
    match reply {
        Ok(answer) => put_answer(page, line, answer)?,
        Err(refusal) => put_refusal(page, line, refusal)?,
    }
    page.end_object()
}

/// The text, and a line feed.
fn ended(page: Page) -> Result<String, AllocError>
    ensures { IfOk result (λ s. string_bytes s ≡ text_of (sheet_of page) ++ 10 ∷ []) }
{
    let mut text = page.into_text();
    text.push('\n')?;
    Ok(text)
}

/// The reply's line: compact JSON with its keys sorted by their bytes, and a line feed.
///
/// `line` is the number, from 1, of the line that is answered.
pub fn reply_text(alloc: Global, line: u64, reply: &Reply) -> Result<String, AllocError>
    ensures { IfOk result (λ s. string_bytes s ≡ reply_line line reply.now) }
{
    reply_text_in(alloc, String::new(alloc), line, reply)
}

/// The reply's line, as [`reply_text`] gives it, in the memory of another text.
#[tactic(auto, using(wire_pages::proofs::Printed::printed), unfolding(crate::specs::Replies::reply_line))]
pub fn reply_text_in(
    alloc: Global,
    mut text: String,
    line: u64,
    reply: &Reply,
) -> Result<String, AllocError>
    ensures { IfOk result (λ s. string_bytes s ≡ reply_line line reply.now) }
{
    text.clear();
    text.reserve(USUAL_LENGTH)?;
    if put_quickly(&mut text, line, reply)? {
        return Ok(text);
    }
    text.clear();
    let mut page = Page::new(alloc, text);
    put_reply(&mut page, line, reply)?;
    ended(page)
}
