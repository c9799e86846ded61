//! Laws of the blocks of every disk. The functions do nothing: their contracts are the laws.

ghost use Rattle.media_block.specs.Laws.{BlocksAreContent, DataIsSlice};

/// Shows that the blocks of a disk, joined, are the content of its store. It also shows that the data of blocks is
/// the slice at their bytes.
pub fn blocks_are_the_content()
    ensures joined { BlocksAreContent }
    ensures data { DataIsSlice }
{}
