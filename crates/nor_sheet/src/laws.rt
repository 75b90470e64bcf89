//! Laws of what a sheet is. Each function does nothing: its contract is the law.

ghost use Rattle.nor_sheet.specs.Laws.{NotBoth, OneFault, OneMeaning};

/// A text is a sheet of one meaning at most, or is refused for one fault at most, and not both.
pub fn sheets_apart()
    ensures meaning { OneMeaning }
    ensures fault { OneFault }
    ensures apart { NotBoth }
{}
