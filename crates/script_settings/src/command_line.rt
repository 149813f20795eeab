//! What the words of the command line say.

ghost use Rattle.std.specs.Prelude.{◌≡◌, true, None};

use service_model_types::settings::Settings;

/// What the words of the command line say.
#[derive(Drop)]
pub struct CommandLine<'a> {
    pub settings: Settings,
    /// The file whose lines are served; none for standard input.
    pub file: Option<&'a str>,
    /// The folder whose records or snapshots the service is opened from.
    pub load: Option<&'a str>,
    /// The folder that the records are saved in at the end.
    pub save: Option<&'a str>,
    /// The folder that a snapshot of each shard is written to at the end.
    pub snapshot: Option<&'a str>,
    /// The folder in which the journal is that the service is opened from, and that its steps go to
    /// before they are answered. None of the four others is given beside it.
    pub journal: Option<&'a str>,
    /// Whether the one history of all shards is printed after the last reply. It begins with the
    /// first step of each shard, so nothing is loaded then.
    pub trace: bool,
    ghost fresh: { trace ≡ true → load ≡ None },
}
