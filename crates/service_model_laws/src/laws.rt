//! What is so of every record, whatever its entries ask.

ghost use Rattle.service_model_laws.specs.RecordLaws.{OlderGoesFirstInRecords, RecordsHaveOneOpen, RecordsKeepHistories};

/// What a longer record keeps of a shorter one: of each run the history goes on from what it was, until
/// the run is deleted, and so does all else that a content keeps of each one before it.
pub fn records_keep_histories()
    ensures { RecordsKeepHistories }
{}

/// How many runs of a workflow ID a record leaves open: one at most.
pub fn records_have_one_open_run()
    ensures { RecordsHaveOneOpen }
{}

/// In which order a longer record deletes runs: of two of one workflow ID that a shorter one leaves,
/// the younger never before the older.
pub fn the_older_run_goes_first_in_records()
    ensures { OlderGoesFirstInRecords }
{}
