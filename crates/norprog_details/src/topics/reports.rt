//! Lines of a report and of a plan.

ghost use Rattle.std.specs.Prelude.{◌≡◌, ℕ, List, map};
ghost use Rattle.norprog_details.specs.Explained.{told};

use super::Topic;

pub(crate) const TOPICS: &[Topic] = &[
    (
        "strategy S1",
        "The chip begins in four-byte address mode. The script uses its usual opcodes\n\
         with four address bytes.",
    ),
    (
        "strategy S2",
        "The chip has at most 16 MiB. The script uses its usual opcodes with three\n\
         address bytes.",
    ),
    (
        "strategy S3",
        "Below 16 MiB the script uses the usual opcodes with three address bytes, and\n\
         from there on dedicated opcodes with four. It never changes the mode.",
    ),
    (
        "strategy S4",
        "The script enters four-byte address mode before the first operation and leaves\n\
         it after the last; between them all addresses have four bytes. If such a script\n\
         stops midway, the chip may stay in that mode: power it off and on.",
    ),
    (
        "strategy S5",
        "The chip has more than 16 MiB, but norprog can reach only the first 16 MiB, by\n\
         three address bytes. It refuses a change past them (plan 2). If the chip is in\n\
         four-byte mode already, give --mode4.",
    ),
    (
        "strategy",
        "How the script sends addresses to the chip; there are five ways. Ask for the\n\
         word with S1, S2, S3, S4 or S5.",
    ),
    (
        "steps",
        "The number of steps of the script, which its end line has too. A poll is one\n\
         step, however long the chip is busy.",
    ),
    (
        "lines",
        "How many lines the plan of `flash` or `erase` has. --list prints them, and\n\
         --dry-run too.",
    ),
    (
        "erases",
        "The number of blocks that the script erases.\n\
         It writes back what the job doesn't change in them.",
    ),
    (
        "erased",
        "The number of bytes in the blocks that the script erases. No script that does\n\
         this job erases less.",
    ),
    (
        "programs",
        "The number of program instructions. None crosses the end of a page, and they\n\
         mostly leave out bytes that are right already.",
    ),
    (
        "ignored",
        "The number of bytes of the image that go nowhere: outside the chosen regions,\n\
         below the base address, or past the chip's end. If you expected 0, check --base\n\
         and the regions. Of `erase`: how many bytes of the chip aren't chosen.",
    ),
    (
        "if this stops",
        "If flash or erase is ended before its last line, as by Ctrl-C, a closed terminal\n\
         or a power cut, the chip may be half done: power it off and on, and give the\n\
         command of that line. Without its --resume what was erased and not restored yet\n\
         is lost.",
    ),
    (
        "left out",
        "The number of lines of the log that aren't in the script: reads of an\n\
         identification or a register (9F, AB, 90, 5A, 15, 35), where\n\
         --without-identity asks for it. They change nothing on a chip.",
    ),
    (
        "busy unknown",
        "norprog doesn't know how long the chip is busy: a chip of a bare size has no\n\
         tables, and tables of fewer than eleven DWORDs have no times. Look into its\n\
         data sheet.",
    ),
    (
        "busy",
        "How long the chip itself is busy with these erases and programs, according to\n\
         its tables: as a rule, and at worst. The time on the wires comes on top (bus).",
    ),
    (
        "bus",
        "The clocks of all steps of the script, each poll once. Divide them by the\n\
         clock's frequency for the least time on the wires; a slow adapter takes longer.",
    ),
    (
        "because",
        "Why the plan erases the block above: the start of a smallest block inside it,\n\
         and the lowest address there that needs an erase. Its byte must get a 1 where\n\
         the chip holds a 0 or, with --erased-only, must change while it isn't FF.",
    ),
    (
        "program",
        "In a plan: one program; its start and its number of bytes. In a listing:\n\
         opcode, address, number of bytes and the bytes that a transaction programs.",
    ),
];

/// These topics.
pub(crate) fn topics() -> &'static [Topic]
    ensures { told result.now ≡ map {B = List ℕ × List ℕ} (λ topic. (topic.0.now, topic.1.now))
        TOPICS.now }
{
    TOPICS
}
