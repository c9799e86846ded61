//! Laws of every answer. The function does nothing: its contract is the law.

ghost use Rattle.iscsi_exchange.specs.Laws.{TextsAreCut};

/// States that the texts of the answers are the pieces into which [`iscsi_text::cut`] cuts the answer, at what the
/// initiator takes in one PDU.
pub fn answers_are_cut()
    ensures { TextsAreCut }
{}
