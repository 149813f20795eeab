//! Commands, as a key's value.

ghost use Rattle.wire_record_commands.specs.Reading.{all_commands_of};

use std::alloc::Global;
use std::marker::Model;
use wf_command::Command;
use wf_event_values::{Field, Items, Refusal};
use wire_fields::{FieldValue, array};
use wire_requests::each_command;
use wire_trees::Tree;

/// Commands, however many they are, as a key's value.
#[derive(Drop)]
pub struct AllCommands {
    pub all: Items<Command>,
}

impl Model for AllCommands {
    ghost use Rattle.std.specs.Prelude.{List};
    ghost use Rattle.wf_command.specs.declared.command.Command.{Command};

    ghost Value = { List Command };

    ghost view = { λ c. c.all };
}

impl FieldValue for AllCommands {
    ghost value_of = { all_commands_of };

    fn from_value<V: Tree>(alloc: Global, field: Field, value: &V) -> Result<AllCommands, Refusal> {
        let all = each_command(alloc, array(field, value)?)?;
        Ok(AllCommands { all })
    }
}
