//! The lines that tell how a script ends on a device.

use crate::same::holds;
use nor_base::{IntoWrite, Wrong};
use nor_check::Why;
use nor_reader::{Difference, Mismatch};
use nor_serprog::Fault;
use norprog_player::{Ending, Failure, Unlike, write_ending};
use test_samples::Held;

/// At 1FEh the chip gives A5h, and 5Ah was wanted.
const OTHER: Difference = Difference {
    address: 0x1FE,
    chip: 0xA5,
    want: 0x5A,
};

/// Endings, and the line of each.
static LINES: [(Ending, &[u8]); 22] = [
    (
        Ending::Done {
            transactions: 3,
            blank: false,
        },
        b"ok 3\n",
    ),
    (
        Ending::Done {
            transactions: 12,
            blank: true,
        },
        b"blank\nok 12\n",
    ),
    (
        Ending::Wrong {
            step: 12,
            why: Wrong::Mismatch,
        },
        b"wrong 5 at 12\n",
    ),
    (
        Ending::No {
            step: 12,
            why: Why::Differs(0x1FE),
        },
        b"no at 12 differs 000001fe\n",
    ),
    (Ending::Unlike { why: Unlike::Busy }, b"unlike busy\n"),
    (
        Ending::Unlike {
            why: Unlike::Asking(Fault::Nak),
        },
        b"unlike nak\n",
    ),
    (
        Ending::Unlike {
            why: Unlike::Status(0x0C),
        },
        b"unlike status 0c\n",
    ),
    (
        Ending::Unlike {
            why: Unlike::Registers(0x01_020C),
        },
        b"unlike status 01020c\n",
    ),
    (
        Ending::Unlike {
            why: Unlike::Tables(Mismatch::Exchange(Fault::Silent)),
        },
        b"unlike silent\n",
    ),
    (
        Ending::Unlike {
            why: Unlike::Tables(Mismatch::Differs(OTHER)),
        },
        b"unlike tables at 000001fe chip a5 file 5a\n",
    ),
    (
        Ending::Unlike {
            why: Unlike::Moved(0x01),
        },
        b"unlike register 01\n",
    ),
    (
        Ending::Unlike {
            why: Unlike::Content(Mismatch::Exchange(Fault::Differs)),
        },
        b"unlike differs\n",
    ),
    (
        Ending::Unlike {
            why: Unlike::Content(Mismatch::Differs(OTHER)),
        },
        b"unlike differs at 000001fe chip a5 dump 5a\n",
    ),
    (
        Ending::Failed {
            step: 12,
            why: Failure::Exchange(Fault::Nak),
        },
        b"failed at 12 nak\n",
    ),
    (
        Ending::Failed {
            step: 12,
            why: Failure::Exchange(Fault::Silent),
        },
        b"failed at 12 silent\n",
    ),
    (
        Ending::Failed {
            step: 12,
            why: Failure::Exchange(Fault::Differs),
        },
        b"failed at 12 differs\n",
    ),
    (
        Ending::Failed {
            step: 12,
            why: Failure::Exchange(Fault::Read),
        },
        b"failed at 12 read\n",
    ),
    (
        Ending::Failed {
            step: 12,
            why: Failure::Exchange(Fault::Write),
        },
        b"failed at 12 write\n",
    ),
    (
        Ending::Failed {
            step: 12,
            why: Failure::Carried,
        },
        b"failed at 12 carried\n",
    ),
    (
        Ending::Failed {
            step: 12,
            why: Failure::Busy,
        },
        b"wrong 6 at 12\n",
    ),
    (
        Ending::Failed {
            step: 12,
            why: Failure::Differs(OTHER),
        },
        b"failed at 12 differs at 000001fe chip a5 want 5a\n",
    ),
    (
        Ending::Failed {
            step: 12,
            why: Failure::Gives {
                chip: 0x80,
                want: 0x00,
            },
        },
        b"failed at 12 differs chip 80 want 00\n",
    ),
];

/// The line of each kind of ending.
#[test]
fn endings_are_told(rt: HostRuntime) {
    for (ending, line) in &LINES {
        let mut out = IntoWrite::new(Held::new(rt.alloc(), 100));
        holds(&rt, "told", write_ending(ending, &mut out).is_ok());
        holds(&rt, "line", out.inner.bytes.as_slice() == *line);
    }
}
