//! The law of the loop's definitions. The function does nothing: its contract is the law.

ghost use Rattle.iscsi_serve.specs.Served.{NewIsServed};

/// States that a new target is served by ports whose log names no connection. So the clause `served` of `turn` and
/// `turns`, which keeps a served target served, holds for a whole run.
pub fn new_is_served()
    ensures { NewIsServed }
{}
