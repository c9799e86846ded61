//! What holds of the definitions. The function does nothing: its contract is the law.

ghost use Rattle.session_log.specs.Escape.{OneWord};

/// States that an escaped name is printable ASCII without a space, so that it ends no line and no word.
pub fn one_word()
    ensures { OneWord }
{}
