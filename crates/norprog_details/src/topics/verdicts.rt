//! What a check or a run says.

ghost use Rattle.std.specs.Prelude.{◌≡◌, ℕ, List, map};
ghost use Rattle.norprog_details.specs.Explained.{told};

use super::Topic;

pub(crate) const TOPICS: &[Topic] = &[
    (
        "yes",
        "The script does the job on every chip that the options describe, whatever its\n\
         busy times. Each chosen byte gets its target, and all others stay. The chip\n\
         ignores no instruction, and ends idle in its first address mode. You may play\n\
         it.",
    ),
    (
        "no",
        "The script doesn't do the job on every chip: don't play it. The number after\n\
         `at` is the step, from 0, at which some chip goes wrong. After `wrong` comes\n\
         how: ask for `wrong` and that number. After `differs` comes an address whose\n\
         byte isn't its target at the end. Or the script is for another image, content\n\
         or base, or for other regions. Of `play`: the target is what the steps leave on\n\
         the chip in memory, and play sent no step.",
    ),
    (
        "shown by",
        "After a no of check: on the chip of these options a run of the script goes\n\
         wrong at that step, for that cause. Give run the script, the content and the\n\
         chip's options of the check too. After a no that says `differs` run says ok;\n\
         in the file of --out the byte at the address isn't its target.",
    ),
    (
        "ok",
        "The script ran to its end, and nothing went wrong. The number counts the\n\
         transactions, each turn of a poll too. The file of --out has what the chip\n\
         holds then. Of `play`: each poll counts once. Without --trust play has read\n\
         back what the steps touch, and the chip holds there what it must. Of `flash`\n\
         and `erase`: each step was done, and then the whole chip, with --near the part\n\
         around the image's bytes, held what it must: what was chosen for `erase` only\n\
         FF, all else as before. Later `compare` of an image says whether it still does.",
    ),
    (
        "same",
        "Of `compare`: the chip gave the same bytes twice, and holds each byte of the\n\
         image that lies on it in the chosen regions; the number counts these. What the\n\
         image doesn't give wasn't judged. Nothing was sent that changes the chip.",
    ),
    (
        "differs",
        "Of `compare`: the lowest address at which the chip holds another byte than the\n\
         image gives; the next line says at how many it does. The chip gave its byte\n\
         twice, so it is hardly the line. It may hold another version of the image, or\n\
         only a part of it. Or --base, the regions or the address of --bin aren't those\n\
         by which it was written. `flash --dry-run` prints what would have to be done.\n\
         Nothing was sent that changes the chip.",
    ),
    (
        "differing",
        "Of `compare`: at how many addresses the chip holds another byte than the image\n\
         gives. The line above has the lowest: ask for `differs`.",
    ),
    (
        "wrong 1",
        "Ignored: the chip would ignore the transaction. It is busy, its write enable\n\
         latch isn't set, its quad setting is off, or the clocks haven't the form of the\n\
         opcode. A step is missing before it: a poll, or 06.",
    ),
    (
        "wrong 2",
        "Unknown: the chip model doesn't know the opcode, or a poll or a verify has\n\
         clocks that it may not have. Check the chip's tables and its part. A read of\n\
         the identity or of other registers (9F, AB, 90, 5A, 15, 35) in a script is\n\
         harmless in itself, but the chip model doesn't know it. Of a log `norprog\n\
         script --without-identity` leaves such reads out.",
    ),
    (
        "wrong 3",
        "Raised: a program writes a 1 where the chip holds a 0, which only an erase can\n\
         do. The script was made for another content, or an erase is missing.",
    ),
    (
        "wrong 4",
        "OutOfRange: an address, or a byte that is read, is past the chip's end, or an\n\
         erase begins at no block of its kind. The script is for another chip.",
    ),
    (
        "wrong 5",
        "Mismatch: the bytes read aren't those that the step expects. The script was\n\
         made for another content, or an earlier program writes other bytes.",
    ),
    (
        "wrong 6",
        "PollNever: the chip was busy at each turn of one poll, as many as --limit\n\
         allows: give a greater limit, or shorter busy times. Or a device said idle, and\n\
         then busy again. On a device the chip is half done then: ask for `the chip`.",
    ),
    (
        "wrong 7",
        "NotIdleAtEnd: the script ended while the chip was busy, with its write enable\n\
         latch set, or in another address mode than its first. Steps are missing at the\n\
         script's end.",
    ),
    (
        "wrong 8",
        "NotErased: with --erased-only a program covers a byte that isn't FF. The script\n\
         was made for another content, or an erase is missing.",
    ),
    (
        "wrong",
        "The script went wrong on the chip. The first number says how, and the number\n\
         after `at` is the step, from 0. Ask for the word with the first number, 1 to 8.\n\
         Don't play such a script.",
    ),
];

/// These topics.
pub(crate) fn topics() -> &'static [Topic]
    ensures { told result.now ≡ map {B = List ℕ × List ℕ} (λ topic. (topic.0.now, topic.1.now))
        TOPICS.now }
{
    TOPICS
}
