//! Which topic is asked for.

ghost use Rattle.std.specs.Prelude.{◌≡◌, [], ◌∷◌, ◌++◌, nat_eq, option_map};
ghost use Rattle.std.specs.List.{find, starts_with};
ghost use Rattle.norprog_details.specs.Explained.{told, in_order, in_a_row, is_about};
ghost use Rattle.norprog_details.specs.Matching.{met, meeting, row_of};

use crate::topics::Topic;
use nor_base::Bytes;

/// What a topic is asked for by.
#[derive(Clone, Copy)]
pub(crate) enum Text<'a> {
    /// Arguments in a row.
    Arguments(&'a [Bytes]),
    /// A line.
    Line(&'a [u8]),
}

/// How a topic's words stand to an argument.
#[derive(Clone, Copy)]
pub(crate) enum Meeting<'a> {
    /// The argument begins with all of them.
    Whole,
    /// The argument is the first of them; these are the others.
    Part(&'a [u8]),
    /// They differ.
    Apart,
}

/// The first topic that a text begins with.
pub(crate) fn topic_of(subjects: &[&[Topic]], asked: Text<'_>) -> Option<Topic>
    ensures { option_map (λ topic. (topic.0.now, topic.1.now)) result
        ≡ find (is_about (row_of asked.entry)) (in_order subjects.now) }
{
    for topics in subjects {
        match topic_among(topics, asked) {
            Some(topic) => return Some(topic),
            None => {}
        }
    }
    None
}

/// The first of these topics that a text begins with.
fn topic_among(topics: &[Topic], asked: Text<'_>) -> Option<Topic>
    ensures { option_map (λ topic. (topic.0.now, topic.1.now)) result
        ≡ find (is_about (row_of asked.entry)) (told topics.now) }
{
    for topic in topics {
        if begins(asked, topic.0.as_bytes()) {
            return Some(*topic);
        }
    }
    None
}

/// Whether a text, with a blank after it, begins with these words and a blank.
fn begins(asked: Text<'_>, words: &[u8]) -> bool
    ensures { result ≡ starts_with nat_eq (row_of asked.entry) (words.now ++ 32 ∷ []) }
{
    match asked {
        Text::Arguments(arguments) => begins_with(arguments, words),
        Text::Line(line) => begins_line(line, words),
    }
}

/// Whether a line, with a blank after it, begins with these words and a blank.
fn begins_line(line: &[u8], words: &[u8]) -> bool
    ensures { result ≡ starts_with nat_eq (line.now ++ 32 ∷ []) (words.now ++ 32 ∷ []) }
{
    match meet(words, line) {
        Meeting::Whole => true,
        Meeting::Part(_more) => false,
        Meeting::Apart => false,
    }
}

/// Whether arguments in a row, with a blank after each, begin with these words and a blank.
fn begins_with(asked: &[Bytes], words: &[u8]) -> bool
    ensures { result ≡ starts_with nat_eq (in_a_row asked.now) (words.now ++ 32 ∷ []) }
{
    let mut left = words;
    for argument in asked {
        match meet(left, argument.as_slice()) {
            Meeting::Whole => return true,
            Meeting::Part(more) => left = more,
            Meeting::Apart => return false,
        }
    }
    false
}

/// How words stand to an argument.
fn meet<'a>(words: &'a [u8], argument: &[u8]) -> Meeting<'a>
    ensures { met result ≡ meeting words.now argument.now }
{
    let mut words = words;
    let mut argument = argument;
    while let ([word, words_left @ ..], [byte, bytes_left @ ..]) = (words, argument)
        && *word == *byte
    {
        words = words_left;
        argument = bytes_left;
    }
    match (words, argument) {
        ([], []) | ([], [b' ', ..]) => Meeting::Whole,
        ([b' ', more @ ..], []) => Meeting::Part(more),
        _ => Meeting::Apart,
    }
}
