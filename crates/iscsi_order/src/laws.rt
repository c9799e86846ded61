//! Laws of all numbers that came. The functions do nothing: their contracts are the laws.

ghost use Rattle.iscsi_order.specs.Laws.{TakenIsTheFront, WindowIsARange, IndexIsThePlace};

/// States that the numbers taken are those from the first on, up to the first that has not come.
pub fn taken_is_the_front()
    ensures { TakenIsTheFront }
{}

/// States that the numbers inside the window, by serial comparison with ExpCmdSN and MaxCmdSN, are consecutive from
/// ExpCmdSN on. There are 32 of them, less those that are taken and unfinished. The index of each is its place.
pub fn window_is_a_range()
    ensures range { WindowIsARange }
    ensures index { IndexIsThePlace }
{}
