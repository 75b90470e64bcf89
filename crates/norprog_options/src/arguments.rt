//! The commands and their options, with help, as data.

ghost use Rattle.std.specs.Prelude.{◌≡◌, map};
ghost use Rattle.norprog_options.specs.Program.{commands};
ghost use Rattle.norprog_options.specs.Table.{command_of, each_of, option_of, options_of};

/// The version, the commit and the kit; `make build` writes the commit over the zeros of the
/// program that it has built.
pub(crate) const VERSION: &str =
    "1.0.0\ncommit 0000000000000000000000000000000000000000\nrattle-kit-13f logic dac8208d650f15bf";

/// What is written behind an option, with the name that the help has for it.
#[derive(Clone, Copy)]
pub(crate) enum Takes {
    /// Nothing: it is there or not.
    Nothing,
    /// A file's name.
    File,
    /// A file's name, of each use of the option.
    Files,
    /// Another value.
    Value(&'static str),
    /// No option, but any number of words.
    Words(&'static str),
}

/// An option of a command.
#[derive(Clone, Copy)]
pub(crate) struct Choice {
    pub name: &'static str,
    pub takes: Takes,
    pub required: bool,
    pub help: &'static str,
}

/// Options that commands have in common.
#[derive(Clone, Copy)]
pub(crate) enum Group {
    /// What is to stand on the chip.
    Image,
    /// What of it is to be erased.
    Erased,
    /// What the image has to give.
    Rules,
    /// The device that it is behind, and how it is read.
    Device,
    /// How work on it is done.
    Work,
    /// Which chip it is.
    Chip,
    /// What it holds.
    Content,
    /// How it stands.
    Start,
    /// How the chip in memory behaves.
    ChipBehaviour,
    /// Whether what is written is read back.
    Verify,
    /// The script's file.
    Script,
}

/// A command: its options in common with others, and then its own.
#[derive(Clone, Copy)]
pub(crate) struct Form {
    pub name: &'static str,
    pub about: &'static str,
    pub example: &'static str,
    pub groups: &'static [Group],
    pub choices: &'static [Choice],
}

const HEX: Choice = Choice {
    name: "hex",
    takes: Takes::Files,
    required: false,
    help: "The image, an Intel HEX file; any number of these and of --bin give one image",
};

const IMAGE_BIN: Choice = Choice {
    name: "bin",
    takes: Takes::Files,
    required: false,
    help: "A raw image, [PLACE=]FILE: at an address of five to eight hexadecimal digits, or all \
        of the layout's region of that name; without PLACE= all of the chip",
};

const LAYOUT: Choice = Choice {
    name: "layout",
    takes: Takes::File,
    required: false,
    help: "A flashrom layout file, needed to name REGIONS [default: none]",
};

const BASE: Choice = Choice {
    name: "base",
    takes: Takes::Value("H"),
    required: false,
    help: "The image's address that goes to chip address 0: 1 to 8 hexadecimal digits [default: 0]",
};

const REGIONS: Choice = Choice {
    name: "names",
    takes: Takes::Words("REGIONS"),
    required: false,
    help: "The names of the layout's regions to program [default: the whole chip]",
};

const ERASED_REGIONS: Choice = Choice {
    name: "names",
    takes: Takes::Words("REGIONS"),
    required: false,
    help: "The names of the layout's regions to erase [default: none]",
};

const SFDP: Choice = Choice {
    name: "sfdp",
    takes: Takes::File,
    required: false,
    help: "The chip's SFDP bytes, a binary file; this, --uniform or --sheet",
};

const UNIFORM: Choice = Choice {
    name: "uniform",
    takes: Takes::Value("N"),
    required: false,
    help: "A chip of N bytes without SFDP, with 4 KiB sectors: a decimal multiple of 4096 up to \
        16777216",
};

const SHEET: Choice = Choice {
    name: "sheet",
    takes: Takes::File,
    required: false,
    help: "A sheet: what the chip is, in the lines that `norprog sfdp` prints: a text file, or the \
        name of an installed one",
};

const BITS: Choice = Choice {
    name: "bits",
    takes: Takes::Value("T"),
    required: false,
    help: "Configuration bits of the SFDP sector map, 0 or 1 each; only with --sfdp [default: \
        none]",
};

const PART: Choice = Choice {
    name: "part",
    takes: Takes::Value("P"),
    required: false,
    help: "The chip's family: generic or w25q256jv [default: generic]",
};

const CONTENT_FILE: Choice = Choice {
    name: "content",
    takes: Takes::File,
    required: true,
    help: "What the chip holds now, a binary file of the chip's size in bytes",
};

const STATUS: Choice = Choice {
    name: "status",
    takes: Takes::Value("H"),
    required: false,
    help: "Status bits S23 to S0 of a w25q256jv: six hexadecimal digits [default: not read]",
};

const MODE4: Choice = Choice {
    name: "mode4",
    takes: Takes::Nothing,
    required: false,
    help: "The chip is in four-byte address mode [default: it isn't]",
};

const QUAD: Choice = Choice {
    name: "quad",
    takes: Takes::Nothing,
    required: false,
    help: "The chip's quad enable bit is set [default: it isn't]",
};

const ERASED_ONLY: Choice = Choice {
    name: "erased-only",
    takes: Takes::Nothing,
    required: false,
    help: "Only program erased bytes (some chips require it) [default: no]",
};

const BUSY: Choice = Choice {
    name: "busy",
    takes: Takes::Value("L"),
    required: false,
    help: "For how many status reads each program or erase is busy, in turn: decimal numbers \
        joined by commas [default: none]",
};

const EACH_BUSY: Choice = Choice {
    name: "each-busy",
    takes: Takes::Value("N"),
    required: false,
    help: "For how many status reads each program and each erase is busy, a decimal number; not \
        with --busy [default: none]",
};

const KEEP: Choice = Choice {
    name: "keep",
    takes: Takes::Nothing,
    required: false,
    help: "The chip keeps its write enable latch over a change of mode [default: it clears it]",
};

const LIMIT: Choice = Choice {
    name: "limit",
    takes: Takes::Value("N"),
    required: false,
    help: "The most status reads of one poll, and until the chip behind a device is idle at first: \
        a decimal number from 1 [default: 1000000]",
};

const PAGE: Choice = Choice {
    name: "page",
    takes: Takes::Value("N"),
    required: false,
    help: "How many bytes the chip's page has, decimal, from its data sheet, where its tables \
        leave that open [default: the least that they allow]",
};

const READ_BACK: Choice = Choice {
    name: "verify",
    takes: Takes::Nothing,
    required: false,
    help: "The script reads back each byte that it erases or programs [default: no]",
};

const SCRIPT_FILE: Choice = Choice {
    name: "script",
    takes: Takes::File,
    required: true,
    help: "The script, a text file",
};

const SCRIPT_OUT: Choice = Choice {
    name: "out",
    takes: Takes::File,
    required: true,
    help: "The script's file; norprog replaces what it held. It can't be one of the inputs",
};

const CONTENT_OUT: Choice = Choice {
    name: "out",
    takes: Takes::File,
    required: false,
    help: "A file for what the chip holds afterwards [default: none]",
};

const TABLES_OUT: Choice = Choice {
    name: "tables",
    takes: Takes::File,
    required: false,
    help: "The chip's SFDP bytes, in a new file [default: not written]",
};

const READ_OUT: Choice = Choice {
    name: "out",
    takes: Takes::File,
    required: false,
    help: "What the chip holds, in a new file [default: not read]",
};

const WAVEFORM_OUT: Choice = Choice {
    name: "out",
    takes: Takes::File,
    required: true,
    help: "The waveform's file; norprog replaces what it held. It can't be the script",
};

const BIN: Choice = Choice {
    name: "bin",
    takes: Takes::File,
    required: true,
    help: "The raw image: bytes at one address after another",
};

const AT: Choice = Choice {
    name: "at",
    takes: Takes::Value("H"),
    required: true,
    help: "The address of its first byte: 1 to 8 hexadecimal digits",
};

const HEX_OUT: Choice = Choice {
    name: "out",
    takes: Takes::File,
    required: true,
    help: "Intel HEX; what the file held is replaced. It can't be the raw image",
};

const LOG: Choice = Choice {
    name: "log",
    takes: Takes::File,
    required: true,
    help: "The log: a line for each transaction, as `02 00 00 00 a5`, `9f > 3 bytes` or `poll`. \
        With options of a chip: its listing",
};

const WITHOUT_IDENTITY: Choice = Choice {
    name: "without-identity",
    takes: Takes::Nothing,
    required: false,
    help: "Leave out of a log reads of an ID or a register: 9F, 15, 35, AB, 90, 5A [default: keep \
        them]",
};

const LOG_OUT: Choice = Choice {
    name: "out",
    takes: Takes::File,
    required: true,
    help: "The script; what the file held is replaced. It can't be an input",
};

const WITNESS: Choice = Choice {
    name: "witness",
    takes: Takes::Nothing,
    required: false,
    help: "After a no print a second line: the options of run for a chip that goes wrong so \
        [default: no]",
};

const TIMES: Choice = Choice {
    name: "times",
    takes: Takes::Nothing,
    required: false,
    help: "Print after the report how long the chip is busy, and the clocks on the bus [default: \
        no]",
};

const SHARES: Choice = Choice {
    name: "regions",
    takes: Takes::Nothing,
    required: false,
    help: "Print after all else a line for each chosen region: how many of its bytes the image \
        gives, and the first [default: no]",
};

const STRICT: Choice = Choice {
    name: "strict",
    takes: Takes::Nothing,
    required: false,
    help: "Refuse a job whose image gives a chosen region no byte [default: no]",
};

const WHOLE: Choice = Choice {
    name: "whole",
    takes: Takes::Nothing,
    required: false,
    help: "Refuse a job whose image gives a named region only in part, or has bytes off the chip \
        [default: no]",
};

const PARTIAL: Choice = Choice {
    name: "partial",
    takes: Takes::Nothing,
    required: false,
    help: "The image may give a named region only in part [default: each of its bytes]",
};

const BEYOND: Choice = Choice {
    name: "beyond",
    takes: Takes::Nothing,
    required: false,
    help: "Bytes of the image may lie off the chip [default: none]",
};

const NEAR: Choice = Choice {
    name: "near",
    takes: Takes::Nothing,
    required: false,
    help: "Read, save and program only around the image's bytes [default: no]",
};

const MAP: Choice = Choice {
    name: "map",
    takes: Takes::File,
    required: false,
    help: "A file for a picture of the chip, SVG; norprog replaces what it held. It can't be an \
        input [default: none]",
};

const FROM: Choice = Choice {
    name: "from",
    takes: Takes::Value("K"),
    required: false,
    help: "The first step to draw, counted from 0: a decimal number [default: 0]",
};

const STEPS: Choice = Choice {
    name: "steps",
    takes: Takes::Value("N"),
    required: false,
    help: "The most steps to draw: a decimal number [default: all]",
};

const DEVICE: Choice = Choice {
    name: "device",
    takes: Takes::File,
    required: true,
    help: "The device that speaks serprog, a tty; first set it by: stty -F DEVICE 115200 raw -echo \
        min 0 time 20",
};

const BEFORE: Choice = Choice {
    name: "before",
    takes: Takes::File,
    required: true,
    help: "What the chip holds before it is changed, in a new file",
};

const ALL: Choice = Choice {
    name: "all",
    takes: Takes::Nothing,
    required: false,
    help: "Erase all of the chip; this or REGIONS [default: no]",
};

const RESUME: Choice = Choice {
    name: "resume",
    takes: Takes::File,
    required: false,
    help: "To go on after a stop: the --before file of the first try. What the image doesn't give \
        comes from it [default: none]",
};

const DRY_RUN: Choice = Choice {
    name: "dry-run",
    takes: Takes::Nothing,
    required: false,
    help: "Print the whole plan and stop: no chip is changed, and no file made [default: no]",
};

const LIST: Choice = Choice {
    name: "list",
    takes: Takes::Nothing,
    required: false,
    help: "Print the whole plan, as --dry-run does [default: how many lines it has]",
};

const RAW: Choice = Choice {
    name: "raw",
    takes: Takes::Nothing,
    required: false,
    help: "The tty hands on each byte as it comes [default: what was read has to show it]",
};

const FRESH: Choice = Choice {
    name: "fresh",
    takes: Takes::Nothing,
    required: false,
    help: "The chip's power was just switched on: its address mode is the one it begins in \
        [default: no]",
};

const ANY_SIZE: Choice = Choice {
    name: "any-size",
    takes: Takes::Nothing,
    required: false,
    help: "The chip's tables may say another size than --uniform or the sheet [default: no]",
};

const REPEATS: Choice = Choice {
    name: "repeats",
    takes: Takes::Nothing,
    required: false,
    help: "The halves of what the chip holds are alike, and it is no smaller [default: no]",
};

const EXPECT_ID: Choice = Choice {
    name: "expect-id",
    takes: Takes::Value("H"),
    required: false,
    help: "Stop before anything else where the chip's identification is another: six hexadecimal \
        digits [default: any]",
};

const TRUST: Choice = Choice {
    name: "trust",
    takes: Takes::Nothing,
    required: false,
    help: "Don't check the chip's status, tables and content before the steps, nor read it back \
        after them [default: play does]",
};

const WORDS: Choice = Choice {
    name: "words",
    takes: Takes::Words("WORDS"),
    required: false,
    help: "What norprog printed, or the beginning of it [default: list all that you can ask]",
};

const DETAILS: Choice = Choice {
    name: "details",
    takes: Takes::Nothing,
    required: false,
    help: "After a refusal say more: which value, file or line it is about, and what to do \
        [default: at a terminal]",
};

const PLAIN: Choice = Choice {
    name: "plain",
    takes: Takes::Nothing,
    required: false,
    help: "Say no more than the line of a refusal, also at a terminal [default: no]",
};

const JSON: Choice = Choice {
    name: "json",
    takes: Takes::Nothing,
    required: false,
    help: "Print last how the command ended, a JSON object in one line [default: no]",
};

const FORCE: Choice = Choice {
    name: "force",
    takes: Takes::Nothing,
    required: false,
    help: "Replace the file that is there, whatever it holds [default: only one of the same kind]",
};

/// The options of every command but explain, which takes words only.
const EACH: &[Choice] = &[JSON, DETAILS, PLAIN];

const IMAGE: &[Choice] = &[HEX, IMAGE_BIN, LAYOUT, BASE, REGIONS];

const RULES: &[Choice] = &[STRICT, PARTIAL, BEYOND];

const BEHIND: &[Choice] = &[
    MODE4, PAGE, DEVICE, LIMIT, RAW, FRESH, ANY_SIZE, REPEATS, EXPECT_ID,
];

const WORK: &[Choice] = &[ERASED_ONLY, BEFORE, RESUME, DRY_RUN, LIST];

const ERASED: &[Choice] = &[LAYOUT, ERASED_REGIONS];

const CHIP: &[Choice] = &[SFDP, UNIFORM, SHEET, BITS, PART];

const CONTENT: &[Choice] = &[CONTENT_FILE, PAGE];

const START: &[Choice] = &[STATUS, MODE4, QUAD, ERASED_ONLY];

const BENCH: &[Choice] = &[BUSY, EACH_BUSY, KEEP, LIMIT];

const VERIFY: &[Choice] = &[READ_BACK];

const SCRIPT: &[Choice] = &[SCRIPT_FILE];

/// The commands, in the order of the help.
static FORMS: [Form; 15] = [
    Form {
        name: "build",
        about: "Writes the script that programs the chip, and prints a report of it",
        example: "Example: norprog build --hex app.hex --base 8000000 --uniform 8192 --content \
            now.bin --out app.script",
        groups: &[
            Group::Image,
            Group::Chip,
            Group::Content,
            Group::Start,
            Group::Verify,
        ],
        choices: &[STRICT, WHOLE, SCRIPT_OUT, FORCE],
    },
    Form {
        name: "plan",
        about: "Prints what build would erase and why, what it would program, and its report",
        example: "Example: norprog plan --hex app.hex --base 8000000 --uniform 8192 --content \
            now.bin",
        groups: &[
            Group::Image,
            Group::Chip,
            Group::Content,
            Group::Start,
            Group::Verify,
        ],
        choices: &[STRICT, WHOLE, TIMES, SHARES, MAP, FORCE],
    },
    Form {
        name: "check",
        about: "Says whether a script, from anybody, does the job on every chip that the options \
            describe",
        example: "Example: norprog check --hex app.hex --base 8000000 --uniform 8192 --content \
            now.bin --script app.script",
        groups: &[
            Group::Image,
            Group::Chip,
            Group::Content,
            Group::Start,
            Group::Script,
        ],
        choices: &[STRICT, WHOLE, WITNESS],
    },
    Form {
        name: "run",
        about: "Plays a script on a chip in memory, and says how it ends",
        example: "Example: norprog run --uniform 8192 --content now.bin --script app.script --busy \
            1,2 --out after.bin",
        groups: &[
            Group::Chip,
            Group::Content,
            Group::Start,
            Group::Script,
            Group::ChipBehaviour,
        ],
        choices: &[CONTENT_OUT, FORCE],
    },
    Form {
        name: "list",
        about: "Prints what each step of a script does on the chip",
        example: "Example: norprog list --uniform 8192 --script app.script",
        groups: &[Group::Chip, Group::Start, Group::Script],
        choices: &[],
    },
    Form {
        name: "draw",
        about: "Draws a script as a waveform, a Value Change Dump",
        example: "Example: norprog draw --script app.script --out app.vcd",
        groups: &[Group::Script],
        choices: &[FROM, STEPS, WAVEFORM_OUT, FORCE],
    },
    Form {
        name: "play",
        about: "Plays a script on a chip through a serprog device, and says how it ends",
        example: "Example: norprog play --uniform 8388608 --content now.bin --script app.script \
            --device /dev/ttyACM0",
        groups: &[Group::Chip, Group::Content, Group::Start, Group::Script],
        choices: &[DEVICE, LIMIT, TRUST],
    },
    Form {
        name: "read",
        about: "Reads the chip behind a serprog device twice: its tables and its content",
        example: "Example: norprog read --device /dev/ttyACM0 --tables now.sfdp --out now.bin",
        groups: &[Group::Chip, Group::Device],
        choices: &[TABLES_OUT, READ_OUT],
    },
    Form {
        name: "flash",
        about: "Programs the chip behind a serprog device: reads it twice, keeps what it holds, \
            prints the plan, programs it and reads it back",
        example: "Example: norprog flash --device /dev/ttyACM0 --hex app.hex --base 8000000 \
            --before before.bin",
        groups: &[
            Group::Image,
            Group::Chip,
            Group::Rules,
            Group::Device,
            Group::Work,
        ],
        choices: &[NEAR],
    },
    Form {
        name: "erase",
        about: "Erases regions of the chip behind a serprog device, or all of it, as flash does \
            its work",
        example: "Example: norprog erase --device /dev/ttyACM0 --all --before before.bin",
        groups: &[Group::Erased, Group::Chip, Group::Device, Group::Work],
        choices: &[ALL],
    },
    Form {
        name: "compare",
        about: "Reads the chip behind a serprog device twice, and says whether it holds the image",
        example: "Example: norprog compare --device /dev/ttyACM0 --hex app.hex --base 8000000",
        groups: &[Group::Image, Group::Chip, Group::Rules, Group::Device],
        choices: &[],
    },
    Form {
        name: "sfdp",
        about: "Prints what the chip's SFDP tables mean",
        example: "Example: norprog sfdp --sfdp /sys/bus/spi/devices/spi0.0/spi-nor/sfdp",
        groups: &[Group::Chip],
        choices: &[],
    },
    Form {
        name: "hex",
        about: "Writes a raw image as Intel HEX, which build reads",
        example: "Example: norprog hex --bin app.bin --at 8000000 --out app.hex",
        groups: &[],
        choices: &[BIN, AT, HEX_OUT, FORCE],
    },
    Form {
        name: "script",
        about: "Writes the script of a log of transactions, as other tools print them, or of what \
            list printed",
        example: "Example: norprog script --log log.txt --out app.script",
        groups: &[Group::Chip, Group::Start],
        choices: &[LOG, WITHOUT_IDENTITY, LOG_OUT, FORCE],
    },
    Form {
        name: "explain",
        about: "Says what a text that norprog printed means, and what to do",
        example: "Example: norprog explain hex 4",
        groups: &[],
        choices: &[WORDS],
    },
];

/// The commands' forms.
pub(crate) fn forms() -> &'static [Form]
    ensures { map command_of result.now ≡ commands }
{
    &FORMS
}

/// The options of a group.
pub(crate) fn choices_of(group: Group) -> &'static [Choice]
    ensures { map option_of result.now ≡ options_of group }
{
    match group {
        Group::Image => IMAGE,
        Group::Erased => ERASED,
        Group::Rules => RULES,
        Group::Device => BEHIND,
        Group::Work => WORK,
        Group::Chip => CHIP,
        Group::Content => CONTENT,
        Group::Start => START,
        Group::ChipBehaviour => BENCH,
        Group::Verify => VERIFY,
        Group::Script => SCRIPT,
    }
}

/// The options that a command has as every other.
pub(crate) fn each_has(form: &Form) -> &'static [Choice]
    ensures { map option_of result.now ≡ each_of form.now.name.now }
{
    if form.name == "explain" { &[] } else { EACH }
}
