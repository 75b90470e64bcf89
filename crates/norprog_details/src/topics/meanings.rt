//! Lines of a chip's meaning.

ghost use Rattle.std.specs.Prelude.{◌≡◌, ℕ, List, map};
ghost use Rattle.norprog_details.specs.Explained.{told};

use super::Topic;

pub(crate) const TOPICS: &[Topic] = &[
    (
        "size",
        "The number of bytes of the chip, according to its tables or to --uniform.\n\
         The content file must be as long.",
    ),
    (
        "address three",
        "The chip takes only three address bytes, so it reaches 16 MiB.\n\
         It has no four-byte mode.",
    ),
    (
        "address both",
        "The chip takes three or four address bytes. norprog takes it to be in\n\
         three-byte mode, unless --mode4 or the status says otherwise.",
    ),
    (
        "address four",
        "The chip takes only four address bytes.\n\
         It is always in four-byte mode.",
    ),
    (
        "address",
        "How many address bytes the chip takes: three, both or four.\n\
         Ask for the word with one of these.",
    ),
    (
        "erase 1",
        "As a line of sfdp: kind 1 of the chip's erases; the bytes of a block, the\n\
         opcode, and the opcode with four address bytes, or -- where the chip has none.",
    ),
    (
        "erase 2",
        "As a line of sfdp: kind 2 of the chip's erases; the bytes of a block, the\n\
         opcode, and the opcode with four address bytes, or -- where the chip has none.",
    ),
    (
        "erase 3",
        "As a line of sfdp: kind 3 of the chip's erases; the bytes of a block, the\n\
         opcode, and the opcode with four address bytes, or -- where the chip has none.",
    ),
    (
        "erase 4",
        "As a line of sfdp: kind 4 of the chip's erases; the bytes of a block, the\n\
         opcode, and the opcode with four address bytes, or -- where the chip has none.",
    ),
    (
        "enter absent",
        "The chip offers no way to enter four-byte address mode that norprog uses.\n\
         So a script never enters it.",
    ),
    (
        "enter plain",
        "B7, with no 06 before it, enters four-byte address mode.\n\
         Only scripts of strategy S4 enter it.",
    ),
    (
        "enter latched",
        "B7 enters four-byte address mode while the write enable latch is set. A script\n\
         sends 06, B7, and then 04 to clear a latch that the chip may keep.",
    ),
    (
        "leave absent",
        "The chip offers no way to leave four-byte address mode that norprog uses. So a\n\
         script never enters it.",
    ),
    (
        "leave plain",
        "E9, with no 06 before it, leaves four-byte address mode.\n\
         Only scripts of strategy S4 leave it.",
    ),
    (
        "leave latched",
        "E9 leaves four-byte address mode while the write enable latch is set. A script\n\
         sends 06, E9, and then 04 to clear a latch that the chip may keep.",
    ),
    (
        "quadread none",
        "The chip offers no read on four lanes that norprog uses.\n\
         With --verify a script reads on one lane.",
    ),
    (
        "quadread",
        "As a line of sfdp: the opcode of the read on four lanes, and its dummy clocks.\n\
         In a listing: a read on four lanes whose bytes are dropped; opcode, address and\n\
         number of bytes.",
    ),
    (
        "dedicated",
        "The opcodes with four address bytes that the chip offers: 13 reads, 6c reads on\n\
         four lanes, 12 programs, 34 programs on four lanes. With nothing after the word\n\
         the chip offers none of them.",
    ),
    (
        "region",
        "As a line of sfdp: a region of the sector map, from address 0 on: its bytes,\n\
         and the sum of the kinds that may erase there: 1 for kind 1, 2 for kind 2, 4\n\
         for kind 3, 8 for kind 4. A kind that the chip lacks has no effect. As a line\n\
         of plan: a chosen region, its first and its last address, how many of its bytes\n\
         the image gives, and the lowest address of these; `empty` where it gives none.",
    ),
];

/// These topics.
pub(crate) fn topics() -> &'static [Topic]
    ensures { told result.now ≡ map {B = List ℕ × List ℕ} (λ topic. (topic.0.now, topic.1.now))
        TOPICS.now }
{
    TOPICS
}
