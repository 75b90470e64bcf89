//! Steps that are packed and unpacked.

use super::PackedSteps;
use nor_base::Step;
use nor_script::{StepView, read};
use nor_serprog::Limits;
use std::alloc::Global;
use std::process::Abort;
use std::test::Fail;

/// A write enable; a program of three bytes and its poll; a verify; and one on four lanes, which is
/// no operation.
const TEXT: &str = "norscript 1
x 00000110
x 00000010000000000000000100000000101001010000111111000011
p 00000101........
v 00000011000000000000000100000000................ a50f
v 01101011--==== 0fa5
end 5
";

/// How many bytes of those steps go over the bus: 1, 7, 2, 6, and the eight clocks of one.
const BUS: u64 = 17;

/// How many bytes are kept of them: 1, 7, 1, four and the two expected, and the last one's fourteen
/// clocks and two bytes.
const KEPT: usize = 31;

/// A device that can do all of them but the last.
const LIMITS: Limits = Limits {
    sent: 7,
    asked: 2,
    ahead: 0,
    pins: false,
};

/// Borrows a step.
fn view(step: &Step) -> StepView<'_> {
    match step {
        Step::Send { clocks } => StepView::Send {
            clocks: clocks.as_slice(),
        },
        Step::Poll { clocks } => StepView::Poll {
            clocks: clocks.as_slice(),
        },
        Step::Verify { clocks, expect } => StepView::Verify {
            clocks: clocks.as_slice(),
            expect: expect.as_slice(),
        },
    }
}

/// Whether two steps are of one kind, with the same clocks and the same bytes.
fn are_same(step: &Step, other: &Step) -> bool {
    let kinds = matches!(
        (step, other),
        (Step::Send { .. }, Step::Send { .. })
            | (Step::Poll { .. }, Step::Poll { .. })
            | (Step::Verify { .. }, Step::Verify { .. })
    );
    kinds && step.clocks() == other.clocks() && step.expected() == other.expected()
}

/// Ends the test unless just these steps are unpacked.
fn unpacks(
    rt: &impl Abort,
    alloc: Global,
    packed: &PackedSteps,
    steps: &[Step],
) -> Result<(), Fail> {
    let mut unpacker = packed.unpack();
    let again = unpacker.next_window(alloc)?;
    assert!(rt; !unpacker.has_more(), "more than one window");
    assert!(rt; again.len() == steps.len(), "steps unpacked");
    for (step, other) in again.iter().zip(steps) {
        assert!(rt; are_same(step, other), "a step unpacked");
    }
    Ok(())
}

/// Steps of each kind are unpacked as they were packed, and of those that are one operation its
/// bytes are kept.
#[test]
fn packed_and_unpacked(rt: HostRuntime) -> Result<(), Fail> {
    let alloc = rt.alloc();
    let steps = read(alloc, TEXT.as_bytes())?;
    let mut packed = PackedSteps::new(alloc);
    for step in &steps {
        packed.push(view(step))?;
    }
    assert!(rt; packed.bytes.len() == KEPT, "bytes kept");
    assert!(rt; packed.bus_bytes() == BUS, "bytes on the bus");
    assert!(rt; packed.are_doable(alloc)?, "doable steps");
    assert!(rt;
        packed.first_not_carried(alloc, &LIMITS)? == Some(4),
        "the first not carried"
    );
    unpacks(&rt, alloc, &packed, steps.as_slice())
}
