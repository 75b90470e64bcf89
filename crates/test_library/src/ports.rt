//! A chip that is unplugged.

ghost use Rattle.std.specs.Prelude.{⊤};

use crate::same::{holds, same};
use nor_base::{Meaning, PortFault, Start, Width, Wrong, sampled};
use nor_chip::{Chip, Port};
use std::alloc::{AllocError, Global};
use std::process::Abort;
use std::test::Fail;
use test_samples::{BLANK, small_chip};

/// In three-byte mode, without the quad setting.
pub(crate) const PLAIN: Start = Start {
    mode4: false,
    quad: false,
};

/// A port over a chip that is unplugged after so many transactions.
#[derive(Drop)]
pub(crate) struct Unplugged<'a> {
    chip: Chip<'a>,
    left: u64,
    failed: u64,
}

impl<'a> Port for Unplugged<'a> {
    ghost shown = { λ port. port.chip };

    ghost count = { λ port. port.failed };

    ghost asked = { λ _ _. ⊤ };

    #[tactic(auto, unfolding(nor_base::specs::Device::one_more))]
    fn transact(&mut self, clocks: &[u8], out: &mut [u8]) -> Result<(), PortFault> {
        if self.left == 0 {
            self.failed = self.failed.saturating_add(1);
            return Err(PortFault::Failed);
        }
        self.left -= 1;
        self.chip.transact(clocks, out)
    }

    fn settled(&self) -> bool {
        self.chip.settled()
    }

    fn failures(&self) -> u64 {
        self.failed
    }
}

impl<'a> Unplugged<'a> {
    /// A port over a chip that holds FFh and has these busy times.
    pub(crate) fn new(
        rt: &impl Abort,
        alloc: Global,
        meaning: &'a Meaning,
        busy: &[u32],
        left: u64,
    ) -> Result<Unplugged<'a>, AllocError> {
        let busy = Vec::from_slice(alloc, busy)?;
        let content = Vec::from_slice(alloc, &BLANK)?;
        let fits = content.len() == meaning.size as usize;
        holds(
            rt,
            "a chip of 8 KiB and both modes",
            fits && meaning.width != Width::Four,
        );
        let chip = Chip::new(meaning, PLAIN, content, busy, false);
        Ok(Unplugged {
            chip,
            left,
            failed: 0,
        })
    }
}

/// Transactions and what they read: a program of A5h at 0, the end of a busy time of one status
/// read, and a read.
static JOB: [(&[u8], &[u8]); 5] = [
    (b"00000110", &[]),
    (b"0000001000000000000000000000000010100101", &[]),
    (b"00000101........", &[0x03]),
    (b"00000101........", &[0x00]),
    (
        b"00000011000000000000000000000000................",
        &[0xA5, 0xFF],
    ),
];

/// A read past the chip's end.
static WRONG: [(&[u8], &[u8]); 1] = [(b"00000011000000000001111111111111................", &[])];

/// Does transactions up to the first that isn't done, which reads nothing: how many were, and the
/// fault.
fn until_fault<P: Port>(
    rt: &impl Abort,
    port: &mut P,
    rows: &[(&[u8], &[u8])],
) -> (usize, Option<PortFault>) {
    for (done, (clocks, gives)) in rows.iter().enumerate() {
        let mut buffer = [0xEEu8; 2];
        let (out, _) = buffer.split_at_mut(sampled(clocks).min(2));
        holds(rt, "room", out.len() == sampled(clocks));
        if let Err(fault) = port.transact(clocks, out) {
            holds(rt, "nothing", buffer == [0xEE; 2]);
            return (done, Some(fault));
        }
        holds(rt, "what is read", &*out == *gives);
    }
    (rows.len(), None)
}

/// Unplugs the chip after each number of transactions. It stays as it was then and, plugged in
/// again, goes on.
#[test]
fn a_port_counts_its_failures(rt: HostRuntime) -> Result<(), Fail> {
    let meaning = small_chip();
    for done in 0..=JOB.len() {
        let mut port = Unplugged::new(&rt, rt.alloc(), &meaning, &[1], done as u64)?;
        fails_after(&rt, &mut port, done);
    }
    Ok(())
}

/// A port that is unplugged after so many transactions.
fn fails_after(rt: &impl Abort, port: &mut Unplugged<'_>, done: usize) {
    let fails = done < JOB.len();
    let met = until_fault(rt, port, &JOB);
    let fault = fails.then_some(PortFault::Failed);
    same(rt, "until the fault", met, (done, fault));
    same(rt, "settled", port.settled(), done == 0 || done > 2);
    same(rt, "failures", port.failures(), u64::from(fails));
    port.left = 10;
    let (_, rest) = JOB.split_at(done.min(JOB.len()));
    let met = until_fault(rt, port, rest);
    same(rt, "the rest", met, (rest.len(), None));
    let met = until_fault(rt, port, &WRONG);
    let past = Some(PortFault::Wrong(Wrong::OutOfRange));
    same(rt, "a read past the end", met, (0, past));
    same(rt, "failures", port.failures(), u64::from(fails));
    holds(rt, "held", port.chip.content().starts_with(&[0xA5, 0xFF]));
    holds(rt, "settled at the end", port.settled());
}
