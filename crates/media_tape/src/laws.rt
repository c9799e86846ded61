//! What holds of all tapes. The functions do nothing: their contracts are the laws.

ghost use Rattle.media_tape.specs.Laws.{WrittenIsReadBack, RecordsThereAndBack};

/// States that a record that was written is read back, and replaces everything after the position.
pub fn written_is_read_back()
    ensures { WrittenIsReadBack }
{}

/// States that spacing back over the records that were spaced over returns to the same position.
pub fn records_there_and_back()
    ensures { RecordsThereAndBack }
{}
