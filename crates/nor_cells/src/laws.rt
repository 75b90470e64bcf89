//! What the compared cells show. The functions do nothing: the contract of each is a law, and the
//! check proves it.

ghost use Rattle.nor_cells.specs.Laws.{NoSmallerChip, NoWiderErase};

/// A smaller chip, whose addresses wrap, can't give the compared bytes, unless what it is to hold
/// repeats so that it may hold all of it.
pub fn smaller_chip_shows()
    ensures { NoSmallerChip }
{}

/// An erase that reaches further than its block can't have lost a byte where the compared bytes are
/// right.
pub fn wider_erase_shows()
    ensures { NoWiderErase }
{}
