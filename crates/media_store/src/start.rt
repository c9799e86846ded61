//! What files held when they were opened.

ghost use Rattle.std.specs.Prelude.{ℕ, List, []};

/// What is supposed of the files that a program opens, by the bytes of their paths. No code can read
/// it. A function over `S: Start` is proved for every choice of these contents, so its promise may be
/// read at those that the files really had.
pub trait Start: Drop {
    /// What the file at a path held when it was opened.
    ghost held: { List ℕ → List ℕ };

    /// What a failed call left of what it should have written, by the path, and by how many calls on
    /// that file, from its opening on, came before it.
    ghost torn: { List ℕ → ℕ → List ℕ };
}

/// For `main` to name. At this type a clause on contents speaks of empty files only.
#[derive(Drop)]
pub struct Unknown;

impl Start for Unknown {
    ghost held = { λ _. [] };

    ghost torn = { λ _ _. [] };
}
