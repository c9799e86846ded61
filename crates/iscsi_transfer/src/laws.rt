//! Laws of the pieces of data, and of what R2Ts ask for. The functions do nothing: their contracts are the laws.

ghost use Rattle.iscsi_transfer.specs.Laws.{PiecesFit, PiecesAreJoined, PiecesAreCounted, LessHasFewer, PiecesLie};
ghost use Rattle.iscsi_transfer.specs.WriteDataLaws.{EachByteIsAskedFor, NoByteIsAskedForTwice, NothingElseIsAskedFor, DueRiseByOne, SentIsDueNoMore, OpenAreCounted, FewAtFirst, FewWhereSent, FewWhereFed, CommandIsWholeOrAsks, SequenceIsWholeOrAsks, CommandAsksOneByOne, DataAsksOneByOne};

/// States that each piece has some bytes of one burst, no more than a segment, and F if it ends its burst. Joined, the
/// pieces are the data. Less data has no more pieces.
pub fn pieces_are_the_data()
    ensures fit { PiecesFit }
    ensures lie { PiecesLie }
    ensures joined { PiecesAreJoined }
    ensures counted { PiecesAreCounted }
    ensures fewer { LessHasFewer }
{}

/// States that the R2Ts of a command, by their numbers, ask once for each byte after the unsolicited data, up to the
/// wanted length. They ask for no other byte. They are due in rising number, each until it is sent.
pub fn each_byte_is_asked_for_once()
    ensures each { EachByteIsAskedFor }
    ensures once { NoByteIsAskedForTwice }
    ensures no_other { NothingElseIsAskedFor }
    ensures rising { DueRiseByOne }
    ensures sent { SentIsDueNoMore }
{}

/// States that an R2T is due or open exactly if the payload is not whole. This holds after a command that announces no
/// more data, and at the end of each sequence of Data-Outs.
pub fn whole_or_asked_for()
    ensures command { CommandIsWholeOrAsks }
    ensures sequence { SequenceIsWholeOrAsks }
{}

/// States that no more than MaxOutstandingR2T R2Ts are open at a time (RFC 7143 §13.17).
pub fn few_are_open()
    ensures counted { OpenAreCounted }
    ensures first { FewAtFirst }
    ensures sent { FewWhereSent }
    ensures fed { FewWhereFed }
{}

/// States that, if MaxOutstandingR2T is 1, an R2T is due when the payload reaches its offset, and no other is.
pub fn one_is_open_at_a_time()
    ensures command { CommandAsksOneByOne }
    ensures data { DataAsksOneByOne }
{}
