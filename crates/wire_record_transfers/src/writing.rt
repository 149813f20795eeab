//! A transfer, written with every key.

ghost use Rattle.std.specs.Prelude.{◌≡◌, OnOk, codes};
ghost use Rattle.wire_pages.specs.Pages.{sheet_of, add_member};
ghost use Rattle.wire_record_rows.specs.Rows.{add_rows, object_of};
ghost use Rattle.wire_record_transfers.specs.Trees.{content_rows, transfer_rows};

use crate::kinds::kind_of;
use crate::put_contents::put_content_rows;
use service_model_types::transfer::{Transfer, TransferContent};
use std::alloc::AllocError;
use wire_pages::Page;

fn put_content(page: &mut Page, content: &TransferContent) -> Result<(), AllocError>
    ensures { OnOk result (sheet_of page.new
        ≡ add_member (codes "content") (object_of (content_rows content.now)) (sheet_of page.old)) }
{
    page.key("content")?;
    page.begin_object()?;
    put_content_rows(page, content)?;
    page.end_object()
}

/// A transfer under its key.
pub fn put_transfer(page: &mut Page, transfer: &Transfer) -> Result<(), AllocError>
    ensures { OnOk result (sheet_of page.new
        ≡ add_member (codes "transfer") (object_of (transfer_rows transfer.now))
        (sheet_of page.old)) }
{
    page.key("transfer")?;
    page.begin_object()?;
    put_content(page, &transfer.content)?;
    page.number("from", u64::from(transfer.from))?;
    page.text("kind", kind_of(&transfer.content).name())?;
    page.number("number", transfer.number)?;
    page.end_object()
}
