//! What a map draws as one line. The function does nothing: its contract is the law, and the gate
//! proves it.

ghost use Rattle.nor_map.specs.Folded.{PlainRowsAreKept, RowsAreApart};

/// A row that is drawn as part of a line of text has only cells to which nothing is done, and no
/// other row is at that height.
pub fn folded_rows()
    ensures cells { PlainRowsAreKept }
    ensures rows { RowsAreApart }
{}
