//! Laws of the frames of a connection's bytes, whatever the bytes. The functions do nothing: their contracts are the
//! laws.

ghost use Rattle.iscsi_pdu.specs.Laws.{FirstFrame, FirstRest, FirstIsShorter, NoFrames, NoFrameRest, LongIsNoFrame, LongStays, FramesInPieces, RestInPieces, FramesAreCut, OnlyFrames, OnlyRest, PartsAreFrames, LeftIsTheRest};

/// States that a frame at the front is the first frame. The frames after it are the others, and the rest is the same.
pub fn first_frame()
    ensures frames { FirstFrame }
    ensures rest { FirstRest }
    ensures shorter { FirstIsShorter }
{}

/// States that without a frame at the front there is no frame, and all bytes are the rest.
pub fn no_frame()
    ensures frames { NoFrames }
    ensures rest { NoFrameRest }
{}

/// States that a header that names too much data belongs to no frame, whatever bytes come after it.
pub fn long_frame()
    ensures none { LongIsNoFrame }
    ensures stays { LongStays }
{}

/// States that the frames and the rest do not depend on how the bytes are cut into pieces. They are those of the
/// first piece, and then those of its rest with what follows.
pub fn chunking()
    ensures frames { FramesInPieces }
    ensures rest { RestInPieces }
{}

/// States that the bytes are the spellings of the frames, joined, and then the rest, which begins with no frame.
pub fn frames_are_the_spellings()
    ensures { FramesAreCut }
{}

/// States that these frames and this rest are the only ones for which that holds.
pub fn only_these_frames()
    ensures frames { OnlyFrames }
    ensures rest { OnlyRest }
{}

/// States that the parts that calls of a framer's `take` give, put together, are the frames that its `feed` and `next`
/// give of the same bytes.
pub fn parts_are_frames()
    ensures frames { PartsAreFrames }
    ensures left { LeftIsTheRest }
{}
