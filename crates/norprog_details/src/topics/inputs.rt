//! Refusals of the command line, of files, and of what was asked for.

ghost use Rattle.std.specs.Prelude.{◌≡◌, ℕ, List, map};
ghost use Rattle.norprog_details.specs.Explained.{told};

use super::Topic;

pub(crate) const TOPICS: &[Topic] = &[
    (
        "usage",
        "A value isn't of its form, or options don't go together. Give exactly one of\n\
         --sfdp, --uniform and --sheet, --bits only with --sfdp, and --near with neither\n\
         --uniform nor --sheet; of a job one --hex or --bin at least, of `erase` either\n\
         --all or names of regions. Write numbers only in digits, and --status as six\n\
         hexadecimal digits. The command's --help has each form. Of explain: it has\n\
         nothing on these words; without words it lists what you can ask.",
    ),
    (
        "file hex",
        "norprog can't read the HEX file: it isn't there, you may not read it, it is a\n\
         folder, reading it failed, or it has more than 2^36 bytes. Check its name and\n\
         its rights. The output is as it was.",
    ),
    (
        "file layout",
        "norprog can't read the layout file: it isn't there, you may not read it, it is\n\
         a folder, reading it failed, or it has more than 2^36 bytes. Check its name and\n\
         its rights. The output is as it was.",
    ),
    (
        "file sfdp",
        "norprog can't read the file of SFDP bytes: it isn't there, you may not read it,\n\
         it is a folder, reading it failed, or it has more than 2^36 bytes. Check its\n\
         name and its rights. The output is as it was.",
    ),
    (
        "file sheet",
        "norprog can't read the sheet: it isn't there, you may not read it, it is a\n\
         folder, reading it failed, or it has more than 2^36 bytes. Check its name and\n\
         its rights. The output is as it was.",
    ),
    (
        "file content",
        "norprog can't open the file of what the chip holds: it isn't there, you may not\n\
         read it, or it is a folder. Check its name and its rights. The output is as it\n\
         was.",
    ),
    (
        "file script",
        "norprog can't read the script file: it isn't there, you may not read it, it is\n\
         a folder, reading it failed, or it has more than 2^36 bytes. Check its name and\n\
         its rights. The output is as it was.",
    ),
    (
        "file out",
        "norprog can't make or write the output, or the output is a folder, one of the\n\
         inputs, or the file that standard output goes to, by whatever name (a link\n\
         counts); or it holds something else than this command writes (of `run` another\n\
         number of bytes). Name another file, or say --force to replace what it holds.\n\
         The inputs are as they were.",
    ),
    (
        "file map",
        "norprog can't make or write the picture of the plan, or that file is a folder,\n\
         one of the inputs, or the one that standard output goes to, by whatever name (a\n\
         link counts); or it holds something else than a picture. Name another file, or\n\
         say --force to replace what it holds.",
    ),
    (
        "file device",
        "The device isn't there, you may not read and write it, or it is no terminal: no\n\
         line of /proc/tty/drivers has its numbers. Check its name and its rights.\n\
         norprog sent nothing to it.",
    ),
    (
        "file bin",
        "The raw image isn't there, may not be read, or is a folder; reading it failed,\n\
         or it hasn't the length that it had when it was opened, as a pipe hasn't.\n\
         What `norprog hex` wrote has no end record. In a job the name of the file is\n\
         what comes after the first `=` of --bin, if there is one; it has at most 2^36\n\
         bytes, and the output is as it was.",
    ),
    (
        "file log",
        "norprog can't read the log: it isn't there, you may not read it, it is a\n\
         folder, reading it failed, or it has more than 2^36 bytes. Check its name and\n\
         its rights. The output is as it was.",
    ),
    (
        "file tables",
        "A file of the name that --tables says is there, or can't be made or written.\n\
         None is written over. Name another file, or move that one away.",
    ),
    (
        "file before",
        "A file of the name that --before says is there, or can't be made or written.\n\
         None is written over, since it may be the only copy of what a chip held. This\n\
         time the chip isn't changed. Where the command has --resume, leave that as it\n\
         is, and give another name as --before: only the file of the first try has what\n\
         the chip held, with --near just the part around the image's bytes, as Intel HEX.\n\
         Else, if an earlier try with that file ended before its last line, as by Ctrl-C,\n\
         a closed terminal or a power cut, the chip may be half done: give that file as\n\
         --resume, and another as --before. Else what it held is lost. If there was no\n\
         such try, name another file.",
    ),
    (
        "file resume",
        "norprog can't use the file of --resume: it isn't there, you may not read it, or\n\
         reading it failed; or, with --near, it isn't Intel HEX of one part of a chip.\n\
         After the plan: the chip isn't the one of that file, since it holds other bytes\n\
         where the job changes nothing, in whole 64 KiB or in a block beside its own. The\n\
         file must be what --before kept at the first try on this chip, and image,\n\
         regions and --near the same as then. The chip isn't changed. To write all of a\n\
         file to a chip give it as --bin, without --resume.",
    ),
    (
        "file",
        "norprog can't use a file of the command line; the word after `file` says which\n\
         one: hex, layout, sfdp, content, script, out, map, device, bin, log, tables,\n\
         before or resume. Ask for the two words.",
    ),
    (
        "contradiction 1",
        "The command names regions, but no layout. Give the layout with --layout, or\n\
         name no region to take the whole chip; of `erase` say --all instead.",
    ),
    (
        "contradiction 2",
        "The command gives a status, but norprog doesn't know the status bits of a\n\
         generic part. Leave --status out. If the chip is a W25Q256JV, name it:\n\
         --part w25q256jv.",
    ),
    (
        "contradiction 3",
        "The command gives a status together with --mode4 or --quad. The status already\n\
         says both: leave the flags out.",
    ),
    (
        "contradiction 4",
        "The command gives a chip by --uniform or --sheet, and --part w25q256jv. Give the\n\
         chip's SFDP bytes with --sfdp, or leave --part out.",
    ),
    (
        "contradiction 5",
        "`flash`, `erase` or `compare` got a layout, but no name of a region, and the\n\
         whole chip would be taken. Name the regions at the end (of `erase` in place of\n\
         --all), or leave --layout out.",
    ),
    (
        "contradiction 6",
        "No chip of these tables has the page of --page: they say another, or an erase\n\
         of fewer bytes. Where `sfdp` prints `page 64 up`, take the page that the chip's\n\
         data sheet has; else leave the option out.",
    ),
    (
        "contradiction",
        "Two parts of the command line exclude each other; the number says which. Ask\n\
         for the word with its number, 1 to 6.",
    ),
    (
        "status 1",
        "The status says that the chip is busy (bit 0) with an erase or a program. Wait\n\
         until it is done, read the status again, and give the new one.",
    ),
    (
        "status 2",
        "The status says that the write enable latch is set (bit 1). Send 04 (write\n\
         disable) or power the chip up anew, and read its status again.",
    ),
    (
        "status 3",
        "The status says that an erase or a program is suspended (bit 15). Resume it\n\
         and let it end, or power the chip up anew; then read its status again.",
    ),
    (
        "status 4",
        "The status says that a part of the chip is protected: one of the bits 2 to 5\n\
         (block protection), 14 (CMP) or 18 (WPS) is set. norprog never unlocks a\n\
         chip: clear these bits with your own tool, and read the status again.",
    ),
    (
        "mode",
        "--mode4 or the status asks for four-byte address mode, but the chip takes only\n\
         three address bytes, as each chip of a bare size does. Leave --mode4 out, or\n\
         give the chip's SFDP bytes.",
    ),
    (
        "content size",
        "The length of the content file, or of that of --resume, isn't the size of the\n\
         chip. Correct the size, or read the whole chip again, from its first byte to\n\
         its last one. But what a chip holds that is half done is no file for --resume:\n\
         give the one that the first try saved. If that try had --near, add it, with the\n\
         same image and regions: the file has just the part around the image's bytes.",
    ),
    (
        "bin size:",
        "The raw image hasn't as many bytes as the chip or, where a name stands before\n\
         the `=` of --bin, as that region: first comes how many it has. It was cut on\n\
         its way, or it is another file. If it is only a part, name the address of its\n\
         first byte, five to eight hexadecimal digits: --bin ADDRESS=FILE. Where a --bin\n\
         of several files has no `=`, these are the bytes of all of them. If it is Intel\n\
         HEX, give it as --hex. The output is as it was, and so is the chip.",
    ),
    (
        "bin size",
        "The raw image's last byte would lie past address FFFFFFFF. Correct --at, or\n\
         in a job --base or the address before the `=` of --bin; or give a shorter\n\
         image. The output wasn't touched. Where numbers follow, ask for `bin size:`.",
    ),
    (
        "bin region",
        "The layout has no region of the name before the first `=` of --bin, or there\n\
         is no layout: give it by --layout. Spell the name as the layout does. An\n\
         address there has five to eight hexadecimal digits, without 0x. The output is\n\
         as it was, and so is the chip.",
    ),
    (
        "conflict at",
        "Two files of the image give this address of it different bytes; higher ones may\n\
         differ too. Is one of the files an older version? Is its address wrong: --base,\n\
         or what is before the `=` of --bin? Does it fill the place of the other file, as\n\
         with FF? Then leave these bytes out of it. The output is as it was, and so is\n\
         the chip.",
    ),
    (
        "empty region",
        "With --strict: the image gives this chosen region no byte. It is counted from 0,\n\
         in the order of the names; where no region is named, 0 is the whole chip.\n\
         `plan --regions` shows what each gets. Correct --base, the names or the layout,\n\
         or leave --strict out. The output holds no script; of `flash` the chip is as\n\
         it was.",
    ),
    (
        "partial region",
        "The image gives this named region only some of its bytes: so many of so many,\n\
         and the lowest address of the chip that gets none. The region is counted from 0,\n\
         in the order of the names. Was the file cut on its way, or made for another\n\
         address or region? Correct the image, --base or the names; or say that a part\n\
         is meant: with --partial of `flash` and `compare`, without --whole of the\n\
         others. Of `erase`: the region has to be all on the chip; correct the layout or\n\
         the names. The chip is as it was.",
    ),
    (
        "beyond",
        "So many bytes of the image lie off the chip, and the first of them is at this\n\
         address of the image. The image may be for a larger chip, or begin elsewhere:\n\
         --base names its address that goes to the chip's address 0. Correct that, or\n\
         say that these bytes are to be left out: with --beyond of `flash` and\n\
         `compare`, without --whole of the others. The chip is as it was.",
    ),
    (
        "image lands nowhere",
        "No byte of the image lies at a chosen address of the chip: there is nothing to\n\
         write or compare. Correct --base, the names or the layout. The chip is as it\n\
         was.",
    ),
    (
        "log line",
        "The line of the log with this number is none of a log. One has the bytes that\n\
         were sent, two hexadecimal digits each, as `02 00 00 00 a5`; after `>` the\n\
         bytes that were read, or their number, as `9f > 3 bytes`. Or it is `poll`. What\n\
         is after `#` doesn't count. With options of a chip the log is a listing: then\n\
         this isn't the line that the listing of such a chip has there. List the script\n\
         by the same options, or leave them out. The output is empty.",
    ),
    (
        "content short",
        "The content file ended before the length that it had when norprog opened it.\n\
         Make sure that nothing else writes it, and run the command again. The output\n\
         holds no script.",
    ),
    (
        "page",
        "As a refusal: no chip with these tables has the page of --page. Leave the\n\
         option out. As a line of sfdp: the number of bytes of the chip's page. With\n\
         `up` after it the chip may have a larger page, a power of two up to 4096: with\n\
         that of its data sheet, mostly --page 256, it is programmed in fewer steps. Too\n\
         large a page doesn't end as `ok`: what was written is read back.",
    ),
    (
        "read",
        "As a refusal: reading the content failed. Check the disk, and run the command\n\
         again. As a line of a listing: a read whose bytes are dropped; opcode, address\n\
         and number of bytes. As the last line of `read`: so many bytes came twice alike,\n\
         and the file of --out has them.",
    ),
    (
        "write",
        "Writing a file or standard output failed, or its last flush did. Make room on\n\
         the disk, and delete the output: it may be cut, or whole. Of `flash` and\n\
         `erase`: if no line `if this stops on the way` was printed, the chip is as it\n\
         was: delete the file of --before too, and give the command again. Else keep that\n\
         file, and give the command of that line.",
    ),
    (
        "memory",
        "norprog ran out of memory. Give it more memory, or smaller files. The output\n\
         holds no script.",
    ),
];

/// These topics.
pub(crate) fn topics() -> &'static [Topic]
    ensures { told result.now ≡ map {B = List ℕ × List ℕ} (λ topic. (topic.0.now, topic.1.now))
        TOPICS.now }
{
    TOPICS
}
