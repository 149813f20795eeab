//! What is so of every service and of each of its histories, as laws that a caller can cite.

ghost use Rattle.service.specs.HistoryLaws.{HistoriesInOrder};
ghost use Rattle.service.specs.JournalLaws.{JournalsOpen};

/// In the one history of all shards that [`Service::close`](crate::Service::close) gives, for a
/// service that was opened without records: a transfer is delivered only after the step that issued
/// it, and acknowledged only after the step that accepted it. At every place of the history, for
/// every pair of shards, the acknowledged transfers begin the accepted ones, and these begin the
/// issued ones: none is lost, doubled or invented.
pub fn histories_are_in_order()
    ensures { HistoriesInOrder }
{}

/// An opening from a journal is never refused for the tasks that wait: it is refused for a setting
/// that is out of its range, or where there is neither no record nor one of each shard.
pub fn journals_are_opened()
    ensures { JournalsOpen }
{}
