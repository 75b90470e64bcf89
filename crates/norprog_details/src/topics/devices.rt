//! What is reported of a play on a device.

ghost use Rattle.std.specs.Prelude.{◌≡◌, ℕ, List, map};
ghost use Rattle.norprog_details.specs.Explained.{told};

use super::Topic;

/// What is told of a chip of another size, by either words.
const UNLIKE_SIZE: &str =
    "The size of --uniform or of the sheet isn't the one that the chip's own tables\n\
     say. Leave that option out: then its tables count. Or correct the size. Where it\n\
     is meant so, as for the first part of a larger chip, add --any-size. The content\n\
     wasn't read, and the chip is as it was.";

pub(crate) const TOPICS: &[Topic] = &[
    (
        "device silent",
        "The device didn't answer the handshake in two tries. Set its tty first:\n\
         stty -F DEVICE 115200 raw -echo min 0 time 20. Then check its name, its speed\n\
         and its firmware. The chip is as it was.",
    ),
    (
        "device nak",
        "The device refused a command of the handshake that it says it has. Check its\n\
         firmware: it must speak serprog, version 1. The chip is as it was.",
    ),
    (
        "device differs",
        "The device answered the handshake by another byte than serprog has: another\n\
         program may use the tty, its speed may be wrong, or its stty line is missing.\n\
         The chip is as it was.",
    ),
    (
        "device read",
        "Reading from the device failed in the handshake or in the test of its line.\n\
         Check that it is plugged in. The chip is as it was.",
    ),
    (
        "device write",
        "Writing to the device failed in the handshake or in the test of its line. Check\n\
         that it is plugged in, and power it off and on, since it may wait for the rest\n\
         of a request. The chip is as it was.",
    ),
    (
        "device version",
        "The device speaks serprog, but not version 1. Give it another firmware. The\n\
         chip is as it was.",
    ),
    (
        "device operation",
        "The device speaks serprog, but has no SPI operations (13h): its firmware is for\n\
         chips on another bus. The chip is as it was.",
    ),
    (
        "device line",
        "Bytes don't reach the device as norprog sends them: on the way some are lost,\n\
         doubled or changed, or the device stopped answering. Set its tty first:\n\
         stty -F DEVICE 115200 raw -echo min 0 time 20. There raw also turns off opost,\n\
         which else doubles or changes bytes. Then check its speed, its cable and its\n\
         firmware. norprog sent only bytes that a chip ignores: the chip is as it was.",
    ),
    (
        "device",
        "The handshake with the device, or the test of its line, ended early; the word\n\
         after it says how. Ask for the two words. The chip is as it was.",
    ),
    (
        "unlike busy",
        "The chip said busy at each status read, as many as --limit allows. No step was\n\
         sent. Wait until its work is done, give a greater --limit, or power it off and\n\
         on.",
    ),
    (
        "unlike status",
        "The chip's status, in hexadecimal after the word, shows that it can't take the\n\
         steps. `ff` and `ffffff` come from an open line: no chip answers, or it has no\n\
         power. Two digits are its bits 7 to 0: bit 1 is the write enable latch, bits 2\n\
         to 5 are block protection. Six digits are bits 23 to 0, as --status takes them:\n\
         14 and 18 protect too, 15 says suspended, and 16 and 9 must be the address mode\n\
         and the quad setting that the options say. No step was sent. Unprotect the\n\
         chip, clear its latch (04), or give its --status where the command has that,\n\
         and build anew. `read` and `compare` read such a chip.",
    ),
    (
        "unlike register",
        "An address bit of the chip's extended address register, or of its bank\n\
         register, is set: three address bytes reach another part of it than the first\n\
         16 MiB. Another tool, or the board that the chip is on, set it. Switch the\n\
         chip's power off and on, or clear the register by the tool that set it. Nothing\n\
         was sent that changes the chip.",
    ),
    ("unlike size:", UNLIKE_SIZE),
    ("unlike size", UNLIKE_SIZE),
    (
        "unlike tables",
        "The chip's SFDP bytes aren't those of the --sfdp file: at this address of the\n\
         tables it has another byte. It is another chip than the file's, or the device\n\
         reads wrongly. No step was sent. Read the chip's SFDP bytes and the chip\n\
         itself again, and build anew from them.",
    ),
    (
        "unlike at",
        "The byte of this address, of the tables or of the content, came otherwise the\n\
         second time: the clip sits badly, the wires are too long, or the clock is too\n\
         fast. Seat the clip anew, and try again. If it stays so, and nothing says how\n\
         the chip's address mode is set (it has no tables, or sfdp says `enter absent`),\n\
         it may be in the other one than was said: switch its power off and on, and\n\
         leave --mode4 out. At an address past the chip's end it is larger than\n\
         --uniform says. No file was made, and nothing was sent that changes what it\n\
         holds.",
    ),
    (
        "unlike id",
        "After the word comes the identification that the chip gave. ffffff and 000000 come\n\
         from a line without a chip. With --expect-id it is another chip than you\n\
         expect. Else it came only at the end: the clip moved, or the chip lost its\n\
         power. No file was made. Seat the clip anew, and read again.",
    ),
    (
        "unlike repeats",
        "The two halves of what the chip gave are alike, byte for byte; with --near what\n\
         was read came again half a chip away. So it may be half as large as --uniform or\n\
         its tables say, and give the same bytes twice. Look into its data sheet, and\n\
         correct the size. Where its halves are meant to be alike, as two copies of a\n\
         firmware, add --repeats. No file was made, and nothing was sent that changes\n\
         what it holds.",
    ),
    (
        "id",
        "The chip's identification, in hexadecimal, as 9F gives it: the number of its\n\
         maker, and two bytes of the maker's, of which the last often says its size.",
    ),
    (
        "note: the identification",
        "The size of --uniform isn't the one that the chip's identification says, as most\n\
         makers write it: 2 to the power of its last byte. Look into its data sheet. If\n\
         the size there is another than --uniform's, correct that. norprog goes on.",
    ),
    (
        "waiting for",
        "norprog waits for the device's first answer. If nothing follows within seconds,\n\
         its tty isn't set, and reading it never ends: end norprog by Ctrl-C, give the\n\
         stty line, and the command again. Nothing was sent to the chip yet.",
    ),
    (
        "unlike line",
        "What came from the chip doesn't show that its tty hands on each byte as it is:\n\
         it has 0Ah without 0Dh (or 0Dh without 0Ah), small letters without capitals, or\n\
         no byte from 80h on, as after icrnl, inlcr, iuclc or istrip. No file was made,\n\
         and no step was sent. Set the tty first: stty -F DEVICE 115200 raw -echo min 0\n\
         time 20. Where it is set so, the chip holds just such bytes: add --raw.",
    ),
    (
        "unreadable: what the chip holds",
        "What the chip holds doesn't show its address mode, and nothing says how that is\n\
         set: it is blank, it holds the same again and again, by --near not all of it was\n\
         read, or the programmer gives fewer than 769 bytes at once. In the other mode it\n\
         could give the same, and be changed elsewhere. Switch its power off and on, and\n\
         add --fresh: then it is in the mode that it begins in. Nothing was sent that\n\
         changes it.",
    ),
    (
        "unreadable",
        "The chip can't be read whole: it is larger than three address bytes reach, and\n\
         its tables offer no read with four and no way into four-byte address mode. If\n\
         it is in that mode already, give --mode4. Nothing was sent that changes it.",
    ),
    (
        "unlike differs",
        "At this address the chip holds another byte than the dump, the content file;\n\
         without an address the device answered by a byte that serprog hasn't there. It\n\
         is another chip, it was written after the dump was read, or it isn't in the\n\
         address mode that the options say; at an address past the dump's end it is larger\n\
         than --uniform says. No step was sent. Read the chip again, whole, and build anew\n\
         from that dump.",
    ),
    (
        "unlike",
        "norprog couldn't read the chip: the device was silent or refused a command\n\
         (nak), or reading from it or writing to it failed. No step was sent. Check its\n\
         line and its power, after `write` power it off and on, since it may wait for\n\
         the rest of a request, and try again.",
    ),
    (
        "blank",
        "The dump is only FF, so comparing the chip with it doesn't show which chip it\n\
         is. Check that it is the one that you mean. With --sfdp play has compared its\n\
         tables too.",
    ),
    (
        "failed",
        "The number after `at` is the step, from 0, that the device didn't do.\n\
         `differs`: another byte came than `want`. Mostly the chip ignores changes,\n\
         since it is protected: by bits of its status (block protection) or by its WP#\n\
         pin; or the clip moved. `carried`: the step needs four lanes, or more bytes\n\
         than the device takes; no step was sent: build without --quad, and with bit 9\n\
         of --status as 0. Else the steps before it are done. `memory`: the computer had\n\
         none left for the next steps. Else of it and of up to two steps after it the\n\
         chip may have done some: `nak` the device refused it, `silent` no answer came,\n\
         `read` or `write` failed. After `write` power the device off and on: it may\n\
         wait for the rest of a request. Where the number is that of all steps, all were\n\
         sent, and then the chip was read back: at the address it doesn't hold what it\n\
         must. If no step touches that address, the chip is smaller or larger than\n\
         --uniform says, or an erase of it takes more than it should. Ask for\n\
         `the chip`.",
    ),
    (
        "the chip",
        "Steps were sent to the chip, and not all of them are known to be done. So the\n\
         chip may hold neither what it held nor what it must hold, and may be in another\n\
         address mode: power it off and on. After flash or erase give the command that\n\
         the line prints, --near too where it has that: it takes the dump of the first\n\
         try as --resume. If it has a --page, leave that out: too large a page does this.\n\
         After play what it must hold is what norprog run --out want.bin leaves, from the\n\
         old dump and script. Read the chip again, and give build --bin want.bin, without\n\
         regions, and the new dump. The old image would leave FF what was erased around\n\
         it.",
    ),
];

/// These topics.
pub(crate) fn topics() -> &'static [Topic]
    ensures { told result.now ≡ map {B = List ℕ × List ℕ} (λ topic. (topic.0.now, topic.1.now))
        TOPICS.now }
{
    TOPICS
}
