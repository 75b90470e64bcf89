//! What `--details` says of refusals that no file brings about.

use crate::same::holds;
use nor_base::IntoWrite;
use norprog_details::{CommandLine, Typed, write_details};
use norprog_files::{Places, System};
use std::test::Fail;

/// A line of a command. Each option has a file of its own, which is there, so no word of the system
/// comes after it.
const LINE: CommandLine<'static> = CommandLine {
    command: "flash",
    typed: &[
        Typed {
            name: "content",
            value: "/dev/null",
        },
        Typed {
            name: "device",
            value: "/dev/zero",
        },
        Typed {
            name: "tables",
            value: "/dev/full",
        },
        Typed {
            name: "before",
            value: "/dev/random",
        },
    ],
    regions: &[],
};

/// Each refusal, with the lines that come first.
static REFUSED: [(&str, &str); 10] = [
    (
        "norprog: device nak",
        "--device /dev/zero\n\
            The device refused a command of the handshake that it says it has. Check its\n",
    ),
    (
        "norprog: device read",
        "--device /dev/zero\n\
            Reading from the device failed in the handshake or in the test of its line.\n",
    ),
    (
        "norprog: device version",
        "--device /dev/zero\n\
            The device speaks serprog, but not version 1. Give it another firmware. The\n",
    ),
    (
        "norprog: device operation",
        "--device /dev/zero\n\
            The device speaks serprog, but has no SPI operations (13h): its firmware is for\n",
    ),
    (
        "norprog: device line",
        "--device /dev/zero\n\
            Bytes don't reach the device as norprog sends them: on the way some are lost,\n",
    ),
    (
        "norprog: file tables",
        "--tables /dev/full\n\
            A file of the name that --tables says is there, or can't be made or written.\n",
    ),
    (
        "norprog: file before",
        "--before /dev/random\n\
            A file of the name that --before says is there, or can't be made or written.\n",
    ),
    (
        "norprog: content short",
        "--content /dev/null\n\
            The content file ended before the length that it had when norprog opened it.\n",
    ),
    (
        "norprog: read",
        "As a refusal: reading the content failed. Check the disk, and run the command\n",
    ),
    (
        "norprog: memory",
        "norprog ran out of memory. Give it more memory, or smaller files. The output\n",
    ),
];

#[test]
fn details_name_the_option_and_explain(rt: HostRuntime) -> Result<(), Fail> {
    for (refusal, begin) in &REFUSED {
        let mut told = IntoWrite::new(Vec::new(rt.alloc()));
        write_details(
            rt.alloc(),
            &System::new(&rt),
            &mut Places::new(rt.alloc()),
            LINE,
            refusal.as_bytes(),
            &mut told,
        );
        let told = told.inner.as_slice();
        holds(&rt, refusal, told.starts_with(begin.as_bytes()));
    }
    Ok(())
}
