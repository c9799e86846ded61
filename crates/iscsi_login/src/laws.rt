//! Laws of every login. The functions do nothing: their contracts are the laws.

ghost use Rattle.iscsi_login.specs.Laws.{StageIsLastAgreed, KeptIsSinceWhole, DueIsTheRest, TextsAreCut};

/// States three laws of what a login remembers of its requests:
///
/// - `stage`: its stage is that of the last T that was agreed.
/// - `kept`: the text kept is what came since the last whole text.
/// - `due`: the text that is due is the rest of the last whole answer.
pub fn login_is_its_last_requests()
    ensures stage { StageIsLastAgreed }
    ensures kept { KeptIsSinceWhole }
    ensures due { DueIsTheRest }
{}

/// States that the texts of the answers are the pieces into which [`iscsi_text::cut`] cuts the text that is due.
pub fn answers_are_cut()
    ensures { TextsAreCut }
{}
