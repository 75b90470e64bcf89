//! Refusals of the SFDP bytes, of a sheet, and of the plan.

ghost use Rattle.std.specs.Prelude.{◌≡◌, ℕ, List, map};
ghost use Rattle.norprog_details.specs.Explained.{told};

use super::Topic;

/// What is told of a chip without tables, by either words.
const NO_TABLES: &str =
    "The chip has no SFDP tables that norprog accepts; `sfdp` and the number says\n\
     what is wrong with them, as of a file (11: give --bits). If its data sheet says\n\
     that 20h erases 4 KiB and that a page has 256 bytes, and it has at most 16 MiB,\n\
     give its size by --uniform. Else write a sheet of it (--sheet) in the lines that\n\
     `norprog sfdp` prints. The chip is as it was.";

pub(crate) const TOPICS: &[Topic] = &[
    (
        "sfdp 1",
        "The --sfdp file doesn't begin with SFDP's signature, 53 46 44 50. It is another\n\
         file, or the dump began at another address. Read the tables again, from\n\
         address 0.",
    ),
    (
        "sfdp 2",
        "The --sfdp file ends too early: inside the headers, or inside a table that the\n\
         headers name. Read more of the tables; mostly 256 bytes are enough.",
    ),
    (
        "sfdp 3",
        "The --sfdp file has no basic table (ID FF00h) of major revision 1. Read the\n\
         tables again. If the file is right, norprog can't use them: give the chip's size\n\
         by --uniform, if it is at most 16 MiB and erases 4 KiB by 20, or a sheet.",
    ),
    (
        "sfdp 4",
        "The major revision of the SFDP header (byte 5) isn't 1. Read the bytes again.\n\
         norprog can't use tables of another revision.",
    ),
    (
        "sfdp 5",
        "The basic table has fewer than 9 DWORDs, or the four-byte table fewer than 2.\n\
         Read the bytes again.",
    ),
    (
        "sfdp 6",
        "The size that was given or read isn't a multiple of 4096, or is out of range:\n\
         --uniform takes 4096 to 16777216 bytes, and SFDP bytes say at most 256 MiB.\n\
         Past 16 MiB give --sfdp or --sheet. Else correct the size, or read the bytes\n\
         again.",
    ),
    (
        "sfdp 7",
        "The tables have the reserved value for the number of address bytes (DWORD 1,\n\
         bits 18 and 17 both set). Read the bytes again.",
    ),
    (
        "sfdp 8",
        "The tables name a page that isn't of 16 to 4096 bytes. Or they have fewer than\n\
         16 DWORDs, so they name none, and don't say that the chip can program 64 bytes\n\
         at once (DWORD 1, bit 2). Read the bytes again.",
    ),
    (
        "sfdp 9",
        "A kind of erase has a size that isn't a power of two from 256 bytes to 16 MiB,\n\
         or is smaller than the page. Read the bytes again.",
    ),
    (
        "sfdp 10",
        "The sector map is broken: a descriptor ends past its table, a command follows\n\
         a map, or there are more than 8 commands. Read the bytes again.",
    ),
    (
        "sfdp 11",
        "The configuration bits (--bits) must be one 0 or 1 for each detection command\n\
         of the sector map, the first command's bit first, and none without a map. Read\n\
         them from the chip as its tables say.",
    ),
    (
        "sfdp 12",
        "No map of the tables has the ID that the configuration bits give. Check --bits\n\
         and the order of its bits, or read the bytes again.",
    ),
    (
        "sfdp 13",
        "The regions of the sector map don't add up to the chip's size. Check --bits,\n\
         or read the bytes again.",
    ),
    (
        "sfdp 14",
        "Two kinds of erase have one opcode, or a kind has an opcode with another\n\
         meaning here, as 02 or 06. Read the bytes again. norprog doesn't use such\n\
         tables.",
    ),
    (
        "sfdp",
        "norprog can't use the tables of the --sfdp file, or the size of --uniform; the\n\
         number says why. Ask for the word with its number, 1 to 14.",
    ),
    (
        "sheet 1",
        "The line of the sheet begins with a word that no sheet has. The words are size,\n\
         page, address, erase, enter, leave, quadread, dedicated and region, in lower\n\
         case. A comment begins with #.",
    ),
    (
        "sheet 2",
        "What follows the first word of the line isn't of its form, or it has more than\n\
         five words. The forms: size N; page N or page N up; address three, both or four;\n\
         erase K N OO PP, PP an opcode or --; enter and leave absent, plain or latched;\n\
         quadread none or OO N; dedicated and any of 13 6c 12 34; region N K. N and K are\n\
         decimal, OO and PP two hexadecimal digits.",
    ),
    (
        "sheet 3",
        "A number on the line is out of its limits: a size is a multiple of 4096 up to 256\n\
         MiB, a page a power of two from 16 to 4096, an erase kind 1 to 4 and a power of\n\
         two from 256 bytes to 16 MiB, a quad read has at most 38 dummies, a region a\n\
         multiple of 256 bytes and a mask below 16. Or it is the 257th region.",
    ),
    (
        "sheet 4",
        "A line above says this already. Say it once; only regions have a line each.",
    ),
    (
        "sheet 5",
        "No line of the sheet says the size. Add `size N`, N the bytes in decimal.",
    ),
    (
        "sheet 6",
        "No line of the sheet says the page. Add `page N`, mostly `page 256`.",
    ),
    (
        "sheet 7",
        "No line of the sheet says how many bytes an address has. Add `address three`, or\n\
         `both` for a chip that can be switched to four, or `four`.",
    ),
    (
        "sheet 8",
        "An erase kind of the sheet is smaller than its page. Correct one of them.",
    ),
    (
        "sheet 9",
        "The regions of the sheet don't add up to its size. A chip that is erased alike\n\
         everywhere has one region of its size; the mask has bit K - 1 set for each erase\n\
         kind K that works there.",
    ),
    (
        "sheet 10",
        "The sheet says how four-byte mode is entered or left, but not `address both`.\n\
         Correct one of them.",
    ),
    (
        "sheet 11",
        "The sheet offers 6c, the quad read with four address bytes, but no quad read. Add\n\
         its `quadread OO N`, or take 6c away.",
    ),
    (
        "sheet 12",
        "An opcode of the sheet's quad read, or of an erase kind that some region allows,\n\
         has another meaning too, as 02 or 06, or stands there twice. Correct it.",
    ),
    (
        "sheet",
        "norprog can't use the sheet; the number says why, and the line is the one at\n\
         fault. Ask for the word with its number, 1 to 12.",
    ),
    ("no tables:", NO_TABLES),
    ("no tables", NO_TABLES),
    (
        "plan 1",
        "The byte at this address needs an erase: it must get a 1 where the chip holds a\n\
         0, or, with --erased-only, it must change and isn't FF. But no block that may\n\
         be erased holds it. Choose other regions, or an image that leaves the byte. The\n\
         output holds no script.",
    ),
    (
        "plan 2",
        "The byte at this address must change, but norprog can't reach past the chip's\n\
         first 16 MiB: the tables name neither four-byte opcodes nor a way to enter and\n\
         leave four-byte mode. If the chip is in that mode already, as an MX25L25635F\n\
         that flashrom left in it, give --mode4. Else choose regions below 16 MiB. The\n\
         output holds no script.",
    ),
    (
        "plan",
        "norprog can't plan the work; the number says why, and the digits are the lowest\n\
         address at fault. Ask for the word with its number, 1 or 2.",
    ),
];

/// These topics.
pub(crate) fn topics() -> &'static [Topic]
    ensures { told result.now ≡ map {B = List ℕ × List ℕ} (λ topic. (topic.0.now, topic.1.now))
        TOPICS.now }
{
    TOPICS
}
