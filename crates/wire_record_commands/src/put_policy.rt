//! Retry policies.

ghost use Rattle.std.specs.Prelude.{◌≡◌, OnOk, codes, map};
ghost use Rattle.wire_pages.specs.Pages.{sheet_of, add_member};
ghost use Rattle.wire_record_rows.specs.Rows.{add_rows, object_of};
ghost use Rattle.wire_record_commands.specs.Trees.{text_list, policy_rows, unless_factor};

use std::alloc::AllocError;
use wf_event::payloads::PolicyFields;
use wf_event_values::Text;
use wire_pages::Page;
use wire_record_rows::put_if_number;

/// A list of texts.
#[tactic(auto, unfolding(wire_pages::specs::Pages::add_items, wire_pages::specs::Pages::add_member))]
fn put_texts(page: &mut Page, name: &str, texts: &[Text]) -> Result<(), AllocError>
    ensures { OnOk result (sheet_of page.new
        ≡ add_member name.now (text_list texts.now) (sheet_of page.old)) }
{
    page.key(name)?;
    page.begin_array()?;
    for text in texts {
        page.string(text.as_str())?;
    }
    page.end_array()
}

fn coefficient_unless(factor: Option<u64>, coefficient: u64) -> Option<u64>
    ensures { result ≡ unless_factor factor coefficient }
{
    match factor {
        Some(_) => None,
        None => Some(coefficient),
    }
}

#[tactic(auto, unfolding(wire_record_rows::specs::Rows::add_row, wire_record_rows::specs::Rows::add_rows, crate::specs::Trees::policy_rows))]
fn put_policy_rows(
    page: &mut Page,
    policy: &PolicyFields,
    factor: Option<u64>,
) -> Result<(), AllocError>
    ensures { OnOk result (sheet_of page.new
        ≡ add_rows (policy_rows factor policy.now) (sheet_of page.old)) }
{
    page.number("attempts", policy.attempts)?;
    put_if_number(
        page,
        "coefficient",
        coefficient_unless(factor, policy.coefficient),
    )?;
    put_if_number(page, "factor", factor)?;
    page.number("initial", policy.initial)?;
    page.number("maximum", policy.maximum)?;
    put_texts(page, "non_retryable", policy.non_retryable.as_slice())
}

/// A policy, with a factor in the place of its coefficient where there is one.
pub(crate) fn put_policy(
    page: &mut Page,
    policy: &PolicyFields,
    factor: Option<u64>,
) -> Result<(), AllocError>
    ensures { OnOk result (sheet_of page.new
        ≡ add_member (codes "retry") (object_of (policy_rows factor policy.now))
        (sheet_of page.old)) }
{
    page.key("retry")?;
    page.begin_object()?;
    put_policy_rows(page, policy, factor)?;
    page.end_object()
}
