//! Commands as an earlier time wrote them: with a whole factor in the place of each coefficient.

ghost use Rattle.std.specs.Prelude.{◌≡◌, ◌&&◌, IfOk, OnOk, get_or, map};
ghost use Rattle.wire_pages.specs.Pages.{sheet_of, add_member};
ghost use Rattle.wire_record_commands.specs.Older.{all_count, counts_for, factor_in, older_list};

use crate::commands::put_command;
use std::alloc::{AllocError, Global};
use wf_command::Command;
use wire_pages::Page;
use wire_requests::counts_as;
use wire_trees::Tree;

/// The factor that a command's value has, else 0.
#[tactic(auto, unfolding(crate::specs::Older::factor_in))]
fn factor_in<V: Tree>(value: &V) -> u64
    ensures { result ≡ factor_in (V.stands_for value.now) }
{
    let Some(policy) = value.member("retry") else {
        return 0;
    };
    match policy.member("factor") {
        Some(factor) => factor.whole_number().unwrap_or(0),
        None => 0,
    }
}

/// The factors that commands' values have, one for each.
pub fn factors_in<V: Tree>(alloc: Global, values: &[V]) -> Result<Vec<u64>, AllocError>
    ensures { IfOk result (λ v. v.items ≡ map factor_in (map V.stands_for values.now)) }
{
    let mut factors = Vec::new(alloc);
    for value in values {
        factors.push(factor_in(value))?;
    }
    Ok(factors)
}

/// Whether a factor counts as the coefficient of the command's policy.
fn counts_for(command: &Command, factor: u64) -> bool
    ensures { result ≡ counts_for command.now factor }
{
    match command {
        Command::ScheduleActivityTask(command) => counts_as(factor) == command.retry.coefficient,
        _ => true,
    }
}

fn factor_at(factors: &[u64], place: usize) -> u64
    ensures { result ≡ get_or factors.now place 0 }
{
    if place < factors.len() {
        factors[place]
    } else {
        0
    }
}

fn and_counts(all: bool, command: &Command, factor: u64) -> bool
    ensures { result ≡ (all && counts_for command.now factor) }
{
    all && counts_for(command, factor)
}

/// Whether each factor counts as the coefficient of the command at its place.
pub fn all_count(factors: &[u64], commands: &[Command]) -> bool
    ensures { result ≡ all_count factors.now commands.now }
{
    let mut all = true;
    let mut place = 0;
    for command in commands {
        all = and_counts(all, command, factor_at(factors, place));
        place += 1;
    }
    all
}

/// Commands under a key, with these factors in the place of their coefficients.
#[tactic(auto, unfolding(wire_pages::specs::Pages::add_items, wire_pages::specs::Pages::add_member))]
pub fn put_older_commands(
    page: &mut Page,
    name: &str,
    factors: &[u64],
    commands: &[Command],
) -> Result<(), AllocError>
    ensures { OnOk result (sheet_of page.new
        ≡ add_member name.now (older_list factors.now commands.now) (sheet_of page.old)) }
{
    page.key(name)?;
    page.begin_array()?;
    let mut place = 0;
    for command in commands {
        put_command(page, command, Some(factor_at(factors, place)))?;
        place += 1;
    }
    page.end_array()
}
