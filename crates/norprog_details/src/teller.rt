//! `explain`: from the words of a command line to what is reported of them.

ghost use Rattle.std.specs.Prelude.{◌≡◌, flat_map, IfOk, IfErr};
ghost use Rattle.nor_base.specs.Device.{Writes, Counts, one_more};
ghost use Rattle.norprog_details.specs.Explained.{answered, explained, nameless, listed, told};
ghost use Rattle.norprog_details.specs.Explained.{in_order, topic_text, Tells, CutsText};
ghost use Rattle.norprog_details.specs.Explained.{EndsExplain, RefusesText};
ghost use Rattle.norprog_details.specs.Topics.{topics};
ghost use Rattle.norprog_common.specs.Told.{output};

use crate::matching::{Text, topic_of};
use crate::topics::{Topic, subjects};
use nor_base::{ByteOut, Bytes, Failed, put_all, put_parts};
use norprog_common::Refusal;

/// What the line of a refusal begins with.
const NAME: &[u8] = b"norprog:";

/// Writes to `out` what a text that the program prints means and what to do: the paragraph of the
/// first topic whose words it begins with; without words those of all topics, one a line. A first
/// `norprog:` is passed over.
///
/// Returns the status, 0. `WRITE` where `out` fails, `Usage` where there is no such topic.
pub fn explain<O: ByteOut>(words: &[Bytes], out: &mut O) -> Result<u8, Refusal>
    ensures { EndsExplain (explained topics words.now) (output O.held O.count out.old out.new)
        result }
{
    tell(&subjects(), nameless(words), out)?;
    Ok(0)
}

/// Writes to `out` the paragraph of the first topic whose words a line begins with, word by word;
/// nothing where there is none. The line is without the name of the program. It takes no memory.
pub fn write_topic<O: ByteOut>(line: &[u8], out: &mut O) -> Result<(), Failed>
    ensures bytes { Writes (O.held out.old) (O.held out.new) result (topic_text topics line.now) }
    ensures count { Counts (O.count out.old) (O.count out.new) result }
{
    match topic_of(&subjects(), Text::Line(line)) {
        Some((_, paragraph)) => put_parts(out, &[paragraph.as_bytes(), b"\n"]),
        None => put_all(out, b""),
    }
}

/// Arguments without the name in front of them with which the line of a refusal begins.
fn nameless(words: &[Bytes]) -> &[Bytes]
    ensures { result.now ≡ nameless words.now }
{
    match words {
        [first, more @ ..] if first.as_slice() == NAME => more,
        _ => words,
    }
}

/// Tells what is asked for.
fn tell<O: ByteOut>(subjects: &[&[Topic]], words: &[Bytes], out: &mut O) -> Result<(), Refusal>
    ensures told { IfOk result
        (λ _. Tells (answered (in_order subjects.now) words.now) (O.held out.old)
        (O.held out.new)) }
    ensures untold { IfErr result
        (λ _. CutsText (answered (in_order subjects.now) words.now) (O.held out.old)
        (O.held out.new)) }
    ensures refused { IfErr result (RefusesText (O.count out.new ≡ one_more (O.count out.old))
        (answered (in_order subjects.now) words.now)) }
{
    if words.is_empty() {
        return list(subjects, out).map_err(|_| Refusal::WRITE);
    }
    let (_, paragraph) = topic_of(subjects, Text::Arguments(words)).ok_or(Refusal::Usage)?;
    put_parts(out, &[paragraph.as_bytes(), b"\n"]).map_err(|_| Refusal::WRITE)
}

/// Writes the words of each topic, one a line.
fn list<O: ByteOut>(subjects: &[&[Topic]], out: &mut O) -> Result<(), Failed>
    ensures bytes { Writes (O.held out.old) (O.held out.new) result
        (flat_map listed (in_order subjects.now)) }
    ensures count { Counts (O.count out.old) (O.count out.new) result }
{
    for topics in subjects {
        list_some(topics, out)?;
    }
    Ok(())
}

/// Writes the words of some topics, one a line.
fn list_some<O: ByteOut>(topics: &[Topic], out: &mut O) -> Result<(), Failed>
    ensures bytes { Writes (O.held out.old) (O.held out.new) result
        (flat_map listed (told topics.now)) }
    ensures count { Counts (O.count out.old) (O.count out.new) result }
{
    for (words, _) in topics {
        put_parts(out, &[words.as_bytes(), b"\n"])?;
    }
    Ok(())
}
