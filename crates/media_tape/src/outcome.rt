//! The outcomes of calls on a tape whose store did not fail.

ghost use Rattle.std.specs.Prelude.{◌≡◌};
ghost use Rattle.media_tape.specs.Tape.{length_told};

/// What a read passed.
#[derive(Clone, Copy, Debug, PartialEq, Eq)]
pub enum Passed {
    /// Nothing, since no byte was requested.
    Nothing,
    /// A record of this length in bytes.
    Record(u32),
    Filemark,
    /// Nothing, since no item comes after the position.
    EndOfData,
}

/// Whether items were written.
#[derive(Clone, Copy, Debug, PartialEq, Eq)]
pub enum Written {
    /// They were, or there were none.
    Whole,
    /// They were, and the items before the position now exceed the early mark.
    Early,
    /// They were not, since the items would exceed the capacity.
    Refused,
}

/// Whether blocks were written.
#[derive(Clone, Copy, Debug, PartialEq, Eq)]
pub enum FixedWritten {
    /// They were, or there were none.
    Whole,
    /// They were, and the items before the position now exceed the early mark.
    Early,
    /// This many were, since all would exceed the capacity.
    Part(u32),
}

/// Where a position was set.
#[derive(Clone, Copy, Debug, PartialEq, Eq)]
pub enum Located {
    /// After the number of items requested.
    There,
    /// After all items, since there are fewer.
    EndOfData,
}

/// Returns what is passed with an item of this length: a filemark or a record.
pub(crate) fn passed_item(length: u32) -> Passed
    ensures { result ≡ length_told length }
{
    if length == 0 {
        Passed::Filemark
    } else {
        Passed::Record(length)
    }
}
