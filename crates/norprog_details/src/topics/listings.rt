//! Words of a listing's lines, and of a script's.

ghost use Rattle.std.specs.Prelude.{◌≡◌, ℕ, List, map};
ghost use Rattle.norprog_details.specs.Explained.{told};

use super::Topic;

pub(crate) const TOPICS: &[Topic] = &[
    (
        "chip",
        "The first line of a listing: the bytes of the chip, and whether it is in\n\
         three-byte or four-byte mode before the first step. Check it first: in another\n\
         mode the same script has another listing.",
    ),
    (
        "enable",
        "06 sets the write enable latch. It must come before each program and each\n\
         erase.",
    ),
    (
        "disable",
        "04 clears the write enable latch.\n\
         It changes nothing else.",
    ),
    (
        "poll",
        "05 reads the status again and again, until the chip isn't busy. A program or an\n\
         erase isn't done before.",
    ),
    (
        "status",
        "In a listing: one read of the status, whose bytes are dropped; opcode and\n\
         number of bytes. As a refusal: what the given status says; ask for the word\n\
         with its number, 1 to 4. As a line of `read`: the chip's status, in hexadecimal;\n\
         `unlike status` says which bits close it.",
    ),
    (
        "enter",
        "In a listing: this opcode enters four-byte address mode. From the next line on\n\
         addresses have four bytes.",
    ),
    (
        "leave",
        "In a listing: this opcode leaves four-byte address mode. From the next line on\n\
         addresses have three bytes.",
    ),
    (
        "erase",
        "In a plan: a block that the script erases; start, size and opcode. In a\n\
         listing: opcode, start and size. All bytes of the block become FF.",
    ),
    (
        "quadprogram",
        "In a listing: a program whose bytes go over four lanes; opcode, address, number\n\
         of bytes and the bytes. The chip's quad setting must be on.",
    ),
    (
        "verify",
        "In a listing: a read whose bytes must be those expected; opcode, address,\n\
         number of bytes asked for, and the bytes expected.",
    ),
    (
        "quadverify",
        "In a listing: a read over four lanes whose bytes must be those expected;\n\
         opcode, address, number of bytes asked for, and the bytes expected.",
    ),
    (
        "broken",
        "In a listing: the chip knows the opcode, but the clocks after it haven't its\n\
         form; the script's own line follows. A chip ignores such a step: don't play the\n\
         script.",
    ),
    (
        "unknown",
        "In a listing: the chip doesn't know the opcode, or a poll or a verify has\n\
         clocks that it may not have; the script's own line follows. First check that\n\
         chip and mode of the first line are right.",
    ),
    (
        "end",
        "The last line of a script and of a listing: the number of steps. Without it the\n\
         text was cut, and is no script. A listing also lacks it where the script is at\n\
         fault.",
    ),
    (
        "norscript",
        "The first line of a script, with its version. After it comes one line a step: x\n\
         sends clocks once, p polls, v reads and compares. The end line has the number\n\
         of steps.",
    ),
];

/// These topics.
pub(crate) fn topics() -> &'static [Topic]
    ensures { told result.now ≡ map {B = List ℕ × List ℕ} (λ topic. (topic.0.now, topic.1.now))
        TOPICS.now }
{
    TOPICS
}
