//! The clocks of an instruction.

ghost use Rattle.std.specs.Prelude.{◌≡◌, ◌≤◌, ◌+◌, ◌++◌, length, IfOk, IfErr, IfSome};
ghost use Rattle.nor_select.specs.View.{coded_of, load_in};
ghost use Rattle.nor_frames.specs.Frames.{load_clocks, load_len, head_of, frame, SpellsCoded};

use crate::fault::FramesFault;
use crate::spread::{spread1, spread4};
use arrayvec::ArrayVec;
use nor_laws::spelling;
use nor_select::{Body, Instr};
use std::alloc::AllocError;

/// The opcode of an instruction and its address bytes, the highest first. It has at most four of
/// them.
pub fn head(instr: &Instr<'_>) -> ArrayVec<u8, 5>
    requires { instr.now.width ≤ 4 }
    ensures { result.items ≡ head_of (coded_of instr.now) }
{
    let mut bytes = ArrayVec::new();
    bytes.push(instr.op);
    let address = instr.address.to_be_bytes();
    for byte in &address[4 - usize::from(instr.width)..] {
        bytes.push(*byte);
    }
    bytes
}

/// Appends the clocks of an instruction: opcode, address, dummies, data. They spell the
/// instruction, wherever its opcode has a row that agrees with it and it fits its clocks. It has at
/// most four address bytes. It asks for their memory at once.
///
/// `Memory` where the growth is refused; the vector is as it was then.
pub fn clocks_into(instr: &Instr<'_>, clocks: &mut Vec<u8>) -> Result<(), FramesFault>
    requires { instr.now.width ≤ 4 }
    ensures clocks { IfOk result (λ _. clocks.new.items
        ≡ clocks.old.items ++ frame (coded_of instr.now)) }
    ensures stays { IfErr result (λ _. clocks.new.items ≡ clocks.old.items) }
    ensures spells { SpellsCoded (coded_of instr.now) }
{
    spelling();
    let head = head(instr);
    let start = clocks.len();
    let lead = head.len() * 8;
    let dummies = usize::from(instr.dummies);
    let end = end_after(start, lead, dummies, &instr.body).ok_or(AllocError)?;
    clocks.resize(end, b'-')?;
    let (_before, after) = clocks.split_at_mut(start);
    let (front, rest) = after.split_at_mut(lead);
    let (middle, last) = rest.split_at_mut(dummies);
    spread1(head.as_slice(), front);
    middle.fill(b'-');
    put_data(&instr.body, last);
    Ok(())
}

/// Puts the clocks of the data into the place for them.
fn put_data(body: &Body<'_>, place: &mut [u8])
    requires { length place.old ≡ load_len (load_in body.now) }
    ensures { place.new ≡ load_clocks (load_in body.now) }
{
    match *body {
        Body::Plain => {}
        Body::Poll | Body::Read1(_) => place.fill(b'.'),
        Body::Read4(_) => place.fill(b'='),
        Body::Write1(bytes) => spread1(bytes, place),
        Body::Write4(bytes) => spread4(bytes, place),
    }
}

/// Where the clocks of an instruction end that begins there, with so many for opcode and address
/// and so many dummies; `None` where that is more than a block of memory can have.
fn end_after(start: usize, lead: usize, dummies: usize, body: &Body<'_>) -> Option<usize>
    ensures { IfSome result (λ end. end ≡ start
        + (lead + (dummies + load_len (load_in body.now)))) }
{
    start.checked_add(lead.checked_add(dummies.checked_add(body_len(body)?)?)?)
}

/// How many clocks the data takes; `None` where they are more than a block of memory can have.
fn body_len(body: &Body<'_>) -> Option<usize>
    ensures { IfSome result (λ len. len ≡ load_len (load_in body.now)) }
{
    match body {
        Body::Plain => Some(0),
        Body::Poll => Some(8),
        Body::Write1(bytes) | Body::Read1(bytes) => bytes.len().checked_mul(8),
        Body::Write4(bytes) | Body::Read4(bytes) => bytes.len().checked_mul(2),
    }
}
