//! How one step is kept: its bytes, and a mark that says what they are.

ghost use Rattle.std.specs.Prelude.{◌≡◌, ◌<◌, ◌≤◌, ◌++◌, true, false, [], ℕ, List, length, take};
ghost use Rattle.std.specs.Prelude.{slice_index, IfOk, IfSome};
ghost use Rattle.std.specs.List.{position, position_or_len};
ghost use Rattle.nor_base.specs.Decoding.{bytes_of_bits};
ghost use Rattle.nor_serprog.specs.Carried.{operation_clocks, is_sample};
ghost use Rattle.nor_script.specs.View.{step_of};
ghost use Rattle.nor_flasher.specs.Packed.{expects as kind_expects, clocks_by, kept_count};
ghost use Rattle.nor_flasher.specs.Packed.{mark_bytes, step_by, step_with, packed_mark};
ghost use Rattle.nor_flasher.specs.Packed.{symbols_mark, Keeps};

use nor_base::{Bytes, Step, What};
use nor_decode::Seen;
use nor_frames::spread1;
use nor_script::StepView;
use nor_serprog::{Limits, is_carried};
use std::alloc::{AllocError, Global};

/// The widest limits that a device can have.
const WIDEST: Limits = Limits {
    sent: 0xFFFFFF,
    asked: 0xFFFFFF,
    ahead: 0,
    pins: false,
};

/// The kind of a step.
#[derive(Clone, Copy)]
pub(crate) enum Kind {
    Send,
    Poll,
    Verify,
}

impl Kind {
    /// Whether a step of this kind expects bytes.
    fn expects(self) -> bool
        ensures { result ≡ kind_expects self }
    {
        match self {
            Kind::Send | Kind::Poll => false,
            Kind::Verify => true,
        }
    }
}

/// What is kept of a step besides its bytes.
#[derive(Clone, Copy)]
pub(crate) struct Mark {
    kind: Kind,
    /// The bytes that its operation sends are kept, and not the symbols of its clocks.
    packed: bool,
    /// How many bytes are kept of its clocks.
    clocks: u32,
    /// How many bytes it samples, if packed, and how many it expects, if a [`Kind::Verify`].
    asked: u32,
}

impl Mark {
    /// How many bytes are kept of the step.
    pub(crate) fn kept_count(&self) -> usize
        ensures { result ≡ kept_count self.now }
    {
        if self.kind.expects() {
            self.clocks as usize + self.asked as usize
        } else {
            self.clocks as usize
        }
    }

    /// How many bytes of the step go over the bus.
    pub(crate) fn bus_bytes(&self) -> u64
        ensures { result ≡ mark_bytes self.now }
    {
        if self.packed {
            u64::from(self.clocks) + u64::from(self.asked)
        } else {
            u64::from(self.clocks) / 8
        }
    }

    /// The step of which these bytes are kept.
    pub(crate) fn unpack(&self, alloc: Global, kept: &[u8]) -> Result<Step, AllocError>
        requires { length kept.now ≡ kept_count self.now }
        ensures { IfOk result (λ step. step ≡ step_by self.now kept.now) }
    {
        let (clocks, expect) = kept.split_at(self.clocks as usize);
        let clocks = self.unpack_clocks(alloc, clocks)?;
        let expect = copied(alloc, expect)?;
        Ok(match self.kind {
            Kind::Send => Step::Send { clocks },
            Kind::Poll => Step::Poll { clocks },
            Kind::Verify => Step::Verify { clocks, expect },
        })
    }

    /// The clocks of which these bytes are kept.
    fn unpack_clocks(&self, alloc: Global, kept: &[u8]) -> Result<Bytes, AllocError>
        ensures { IfOk result (λ clocks. clocks ≡ clocks_by self.now kept.now) }
    {
        if self.packed {
            operation(alloc, kept, self.asked)
        } else {
            copied(alloc, kept)
        }
    }
}

/// Appends what is kept of a step. Where a growth is refused, a part of it may stand there.
pub(crate) fn keep(bytes: &mut Vec<u8>, step: StepView<'_>) -> Result<Mark, AllocError>
    ensures kept { IfOk result (λ mark. (kept : List ℕ)
        × (bytes.new.items ≡ bytes.old.items ++ kept) × Keeps mark kept (step_of step.entry)) }
    ensures before { take (length bytes.old.items) bytes.new.items ≡ bytes.old.items }
{
    let (kind, clocks, expect) = parts(step);
    let expected = narrow(expect.len())?;
    let mark = match packable(kind, clocks, expected) {
        Some((bits, asked)) => keep_operation(bytes, kind, bits, asked)?,
        None => keep_symbols(bytes, kind, clocks, expected)?,
    };
    bytes.extend_from_slice(expect)?;
    Ok(mark)
}

/// The kind of a step, its clocks, and the bytes that it expects.
fn parts<'a>(step: StepView<'a>) -> (Kind, &'a [u8], &'a [u8])
    ensures step { step_of step.entry ≡ step_with result.0 result.1.now result.2.now }
    ensures none { kind_expects result.0 ≡ false → result.2.now ≡ [] }
{
    match step {
        StepView::Send { clocks } => (Kind::Send, clocks, &[]),
        StepView::Poll { clocks } => (Kind::Poll, clocks, &[]),
        StepView::Verify { clocks, expect } => (Kind::Verify, clocks, expect),
    }
}

/// A length that is below 2^32.
fn narrow(length: usize) -> Result<u32, AllocError>
    ensures { IfOk result (λ narrow. narrow ≡ length) }
{
    u32::try_from(length).map_err(|_| AllocError)
}

/// The clocks that send, and how many bytes the others sample, where a step can be packed: its
/// clocks are one operation, and it expects none or as many bytes as they sample.
fn packable<'a>(kind: Kind, clocks: &'a [u8], expected: u32) -> Option<(&'a [u8], u32)>
    ensures spelled { IfSome result
        (λ parts. clocks.now ≡ operation_clocks (bytes_of_bits parts.0.now) parts.1) }
    ensures asked { IfSome result (λ parts. kind_expects kind ≡ true → parts.1 ≡ expected) }
{
    let (bits, asked) = operation_of(clocks)?;
    if kind.expects() && asked != expected {
        None
    } else {
        Some((bits, asked))
    }
}

/// The clocks that send, and how many bytes the others sample, where the clocks are one operation.
fn operation_of<'a>(clocks: &'a [u8]) -> Option<(&'a [u8], u32)>
    ensures { IfSome result
        (λ parts. clocks.now ≡ operation_clocks (bytes_of_bits parts.0.now) parts.1) }
{
    if !is_carried(clocks, &WIDEST) {
        return None;
    }
    let (bits, samples) = clocks.split_at(count_bits(clocks));
    Some((bits, (samples.len() / 8) as u32))
}

/// How many clocks stand before the first that samples.
fn count_bits(clocks: &[u8]) -> usize
    ensures count { result ≡ position_or_len is_sample clocks.now }
    ensures within { result ≤ length clocks.now }
{
    first_sample(clocks).unwrap_or(clocks.len())
}

/// The place of the first clock that samples.
fn first_sample(clocks: &[u8]) -> Option<usize>
    ensures { result ≡ position is_sample clocks.now }
{
    clocks.iter().position(|symbol| *symbol == b'.')
}

/// Appends the bytes that an operation sends, and marks them.
fn keep_operation(
    bytes: &mut Vec<u8>,
    kind: Kind,
    bits: &[u8],
    asked: u32,
) -> Result<Mark, AllocError>
    ensures mark { IfOk result (λ mark. mark ≡ packed_mark kind (bytes_of_bits bits.now) asked) }
    ensures bytes { IfOk result
        (λ _. bytes.new.items ≡ bytes.old.items ++ bytes_of_bits bits.now) }
    ensures before { take (length bytes.old.items) bytes.new.items ≡ bytes.old.items }
{
    let clocks = narrow(count_sent(bits))?;
    keep_sent(bytes, bits)?;
    Ok(Mark {
        kind,
        packed: true,
        clocks,
        asked,
    })
}

/// Appends the symbols of clocks, and marks them.
fn keep_symbols(
    bytes: &mut Vec<u8>,
    kind: Kind,
    clocks: &[u8],
    asked: u32,
) -> Result<Mark, AllocError>
    ensures mark { IfOk result (λ mark. mark ≡ symbols_mark kind clocks.now asked) }
    ensures bytes { IfOk result (λ _. bytes.new.items ≡ bytes.old.items ++ clocks.now) }
    ensures before { take (length bytes.old.items) bytes.new.items ≡ bytes.old.items }
{
    let count = narrow(clocks.len())?;
    bytes.extend_from_slice(clocks)?;
    Ok(Mark {
        kind,
        packed: false,
        clocks: count,
        asked,
    })
}

/// Appends the bytes that clocks send.
fn keep_sent(bytes: &mut Vec<u8>, bits: &[u8]) -> Result<(), AllocError>
    ensures bytes { IfOk result
        (λ _. bytes.new.items ≡ bytes.old.items ++ bytes_of_bits bits.now) }
    ensures before { take (length bytes.old.items) bytes.new.items ≡ bytes.old.items }
{
    for place in 0..count_sent(bits) {
        bytes.push(byte_sent(bits, place))?;
    }
    Ok(())
}

/// How many bytes clocks send.
#[tactic(auto, using(crate::proofs::OperationLemmas::length_of_bytes))]
fn count_sent(bits: &[u8]) -> usize
    ensures { result ≡ length (bytes_of_bits bits.now) }
{
    bits.len() / 8
}

/// A byte that clocks send, by its place.
fn byte_sent(bits: &[u8], place: usize) -> u8
    requires { place < length (bytes_of_bits bits.now) }
    ensures { result ≡ slice_index (bytes_of_bits bits.now) place }
{
    // what a device sends for it a program on one lane has as its data
    let program = Seen {
        what: What::Program,
        address: 0,
        body: bits,
    };
    program.byte(place)
}

/// The clocks of an operation that sends these bytes and samples so many.
fn operation(alloc: Global, sent: &[u8], asked: u32) -> Result<Bytes, AllocError>
    ensures { IfOk result (λ clocks. clocks ≡ operation_clocks sent.now asked) }
{
    let bits = sent.len().checked_mul(8).ok_or(AllocError)?;
    let all = bits.checked_add(8 * asked as usize).ok_or(AllocError)?;
    let mut clocks = Vec::new(alloc);
    clocks.resize(all, b'.')?;
    let (front, _samples) = clocks.split_at_mut(bits);
    spread1(sent, front);
    Ok(Bytes::new(clocks))
}

/// A copy of some bytes.
fn copied(alloc: Global, bytes: &[u8]) -> Result<Bytes, AllocError>
    ensures { IfOk result (λ copy. copy ≡ bytes.now) }
{
    Ok(Bytes::new(Vec::from_slice(alloc, bytes)?))
}
