//! The topics: each text that the program prints, by the words that it begins with, and what is
//! reported of it.

ghost use Rattle.std.specs.Prelude.{◌≡◌};
ghost use Rattle.norprog_details.specs.Explained.{in_order};
ghost use Rattle.norprog_details.specs.Topics.{topics};

mod devices;
mod inputs;
mod listings;
mod meanings;
mod reports;
mod tables;
mod texts;
mod verdicts;

/// The words that a text begins with, with single blanks, and what it means and what to do, in
/// lines of which the last isn't closed.
pub(crate) type Topic = (&'static str, &'static str);

/// All topics, by subjects. Words stand before others that they begin with.
pub(crate) fn subjects() -> [&'static [Topic]; 8]
    ensures { in_order result ≡ topics }
{
    [
        inputs::topics(),
        texts::topics(),
        tables::topics(),
        verdicts::topics(),
        reports::topics(),
        meanings::topics(),
        listings::topics(),
        devices::topics(),
    ]
}
