//! An image as Intel HEX, and read back.

use crate::devices::{SlowWriter, writer};
use crate::same::{holds, same};
use nor_base::IntoWrite;
use nor_hex::{read_back, write_hex};
use std::alloc::Global;
use std::process::Abort;

/// Four bytes, two at the end of the first 64 KiB and two at the beginning of the next.
const HEX: &str =
    ":020000040000FA\n:02FFFE000102FE\n:020000040001F9\n:020000000304F7\n:00000001FF\n";

/// Writes them.
fn written(rt: &impl Abort, alloc: Global) -> IntoWrite<SlowWriter> {
    let mut out = IntoWrite::new(writer(alloc, 7));
    holds(
        rt,
        "writes",
        write_hex(0xFFFE, &[1, 2, 3, 4], &mut out).is_ok(),
    );
    out
}

/// The text, by hand, and its bytes at their addresses.
#[test]
fn an_image_is_written_and_read_back(rt: HostRuntime) {
    let out = written(&rt, rt.alloc());
    let text = out.inner.held.as_slice();
    holds(&rt, "the text", text == HEX.as_bytes());
    match read_back(rt.alloc(), text) {
        Ok(image) => {
            same(&rt, "how many", image.count(), 4);
            same(&rt, "the last", image.at(0x1_0001), Some(4));
            same(&rt, "none before", image.at(0xFFFD), None);
        }
        Err(_) => holds(&rt, "memory", false),
    }
}
