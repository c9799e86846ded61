//! What the program is called to do.

/// What the program is called to do.
#[derive(Clone, Copy)]
pub enum Mode<'a> {
    /// Make the target of a configuration file, and carry out the events on standard input.
    Replay { config: &'a str },
    /// Make the target of a configuration file, and serve initiators for this many turns.
    Serve { config: &'a str, turns: u64 },
}
