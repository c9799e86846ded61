//! Laws of every text. The functions do nothing: their contracts are the laws.

ghost use Rattle.iscsi_text.specs.Laws.{IsReadAgain, LongIsCut, ShortIsWhole};

/// States that the text of pairs that were read is read as the same pairs.
pub fn is_read_again()
    ensures { IsReadAgain }
{}

/// States that the pieces of a text come one after the other: a text longer than the limit begins with a piece as
/// long as the limit, and the others are those of its rest. Any other text is one piece.
pub fn cut_is_piece_after_piece()
    ensures long { LongIsCut }
    ensures short { ShortIsWhole }
{}
