//! What a service that was resumed tells, beside one that was opened from all records.

ghost use Rattle.service_history.specs.Resumed.{ResumedGoOn};

/// A shard that started at the content which a record leaves, and made steps since, has the content
/// which both leave, one after the other. So each of its replies and histories is that of a service
/// that was opened from the whole record, however little was kept of that.
pub fn resumed_services_go_on()
    ensures { ResumedGoOn }
{}
