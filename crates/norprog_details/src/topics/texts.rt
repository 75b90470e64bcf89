//! Refusals of the HEX file, the layout and the script.

ghost use Rattle.std.specs.Prelude.{◌≡◌, ℕ, List, map};
ghost use Rattle.norprog_details.specs.Explained.{told};

use super::Topic;

pub(crate) const TOPICS: &[Topic] = &[
    (
        "hex 1",
        "This line of the HEX file doesn't begin with a colon. Lines count from 1, the\n\
         empty ones too. Take out text between the records, or make the file anew. A\n\
         raw image is given by --bin, not by --hex.",
    ),
    (
        "hex 2",
        "After its colon this line of the HEX file has a byte that is no hexadecimal\n\
         digit. norprog skips only blanks, tabs and CR at a line's end. Make the file\n\
         anew.",
    ),
    (
        "hex 3",
        "This line of the HEX file has a wrong length: fewer than ten digits, or another\n\
         number of digits than its length byte says, or another length byte than its\n\
         type has. Often the file was edited or cut. Make it anew.",
    ),
    (
        "hex 4",
        "The checksum of this line of the HEX file is wrong: its bytes don't add up to\n\
         0 modulo 256. Often the file was edited or damaged. Make it anew.",
    ),
    (
        "hex 5",
        "The record on this line of the HEX file has a type over 05, but Intel HEX has\n\
         only the types 00 to 05. Make the file anew, as Intel HEX.",
    ),
    (
        "hex 6",
        "This line of the HEX file gives a byte to an address that already has another\n\
         byte. Two images were joined, or they overlap. Link them anew.",
    ),
    (
        "hex 7",
        "The HEX file has no end record (:00000001FF); the line in the refusal is the\n\
         one after its last. The file is cut, or it is another file: make it anew.",
    ),
    (
        "hex 8",
        "This line of the HEX file comes after the end record. Two files were joined, or\n\
         text was added. Give each file by a --hex of its own, or take the text out.",
    ),
    (
        "hex",
        "A line of the HEX file is wrong; the first number says why. Ask for the word\n\
         with its number, 1 to 8.",
    ),
    (
        "layout 1",
        "This line of the layout isn't `start:end name`: it must have two fields with\n\
         blanks or tabs between them, and one colon in the first. Correct it. A name has\n\
         no blanks.",
    ),
    (
        "layout 2",
        "A number on this line of the layout isn't 1 to 8 hexadecimal digits, with or\n\
         without 0x before them. Correct it.",
    ),
    (
        "layout 3",
        "The region on this line of the layout ends before it starts. Both offsets\n\
         belong to the region. Correct the line.",
    ),
    (
        "layout 4",
        "A line above has the same name as this line of the layout. norprog compares\n\
         names byte by byte. Rename one of the two regions.",
    ),
    (
        "layout 5",
        "This line of the layout has the 256th region; a layout has at most 255. Take\n\
         out regions that you don't choose.",
    ),
    (
        "layout 6",
        "The layout has no region of this chosen name; names count from 0, in the order\n\
         of the command line. Spell it as the layout does.",
    ),
    (
        "layout",
        "The layout is wrong; the first number says why. Ask for the word with its\n\
         number, 1 to 6.",
    ),
    (
        "script 1",
        "The first line of the script file isn't `norscript 1`. It is another file, or\n\
         a script of another version. Write it again with build.",
    ),
    (
        "script 2",
        "This line of the script doesn't begin with `x `, `p `, `v ` or `end `, or its\n\
         parts aren't those of its form. Expected bytes are lower-case digits, two a\n\
         byte. Write the script again.",
    ),
    (
        "script 3",
        "This line of the script has a byte among its clocks that is no symbol. The\n\
         symbols are 0, 1, a to p, the dot, = and -. Write the script again.",
    ),
    (
        "script 4",
        "The end line of the script doesn't have the number of its steps, or that number\n\
         has leading zeros. A step was lost or added. Write the script again.",
    ),
    (
        "script 5",
        "The script ends before an end line that is closed by LF. It was cut, or build\n\
         was refused after its first steps. Never play it. Write it again.",
    ),
    (
        "script 6",
        "The script goes on after its end line. Two scripts were joined, or text was\n\
         added. Write the script again.",
    ),
    (
        "script steps",
        "The script has only this number of steps, counted from 0, and no step that\n\
         --from names. Give a smaller --from. The output wasn't touched.",
    ),
    (
        "script",
        "The script file is wrong; the first number says why, the second is the line.\n\
         Ask for the word with its number, 1 to 6.",
    ),
];

/// These topics.
pub(crate) fn topics() -> &'static [Topic]
    ensures { told result.now ≡ map {B = List ℕ × List ℕ} (λ topic. (topic.0.now, topic.1.now))
        TOPICS.now }
{
    TOPICS
}
