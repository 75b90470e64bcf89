//! The rules by which a chip doesn't take an instruction: which applies first, and each by itself.

ghost use Rattle.std.specs.Prelude.{◌≡◌, ◌+◌, ◌^◌, ◌&&◌, nat_lt, min, length, true};
ghost use Rattle.nor_base.specs.Chip.{Setting, Chip, may_page};
ghost use Rattle.nor_base.specs.Effect.{effect_of, wrong_of, has_address, is_broken, is_status};
ghost use Rattle.nor_base.specs.Effect.{is_read, starts_no_block, needs_latch, is_out_of_range};
ghost use Rattle.nor_base.specs.Effect.{is_program, is_quad};
ghost use Rattle.nor_chip.specs.Sent.{instruction_of};
ghost use Rattle.nor_chip.specs.State.{IsIn};

use crate::program::{barred, is_barred};
use nor_base::{Meaning, Switch, What, Wrong};
use nor_decode::Seen;
use nor_geometry::is_legal;

/// What of a chip decides whether it takes an instruction.
#[derive(Clone, Copy)]
pub struct State<'a> {
    /// Its meaning.
    pub meaning: &'a Meaning,
    /// Its quad enable bit is set.
    pub quad: bool,
    /// Bytes of its page.
    pub page: u32,
    /// It is busy: some status reads are left.
    pub busy: bool,
    /// Its write enable latch is set.
    pub latch: bool,
    /// The bytes that it holds, by their addresses from 0 on.
    pub array: &'a [u8],
}

/// Why a chip in this state doesn't take an instruction, by the first rule that applies (W25Q256JV
/// datasheet): `Ignored`, then `OutOfRange`, then `Raised` or, under the profile that programs only
/// erased bytes, `NotErased`.
#[tactic(auto, unfolding(nor_base::specs::Effect::effect_of))]
pub fn refusal(state: &State<'_>, seen: &Seen<'_>) -> Option<Wrong>
    requires size { length state.now.array.now ≡ state.now.meaning.now.size }
    requires page { may_page state.now.meaning.now state.now.page ≡ true }
    ensures { (s : Setting) → (c : Chip) → IsIn state.now s c
        → result ≡ wrong_of (effect_of s c (instruction_of seen.now)) }
{
    let meaning = state.meaning;
    if is_broken(seen.what) {
        return Some(Wrong::Ignored);
    }
    if !is_status(seen.what) && state.busy {
        return Some(Wrong::Ignored);
    }
    if is_quad(seen.what) && !state.quad {
        return Some(Wrong::Ignored);
    }
    if needs_latch(meaning, seen.what) && !state.latch {
        return Some(Wrong::Ignored);
    }
    if is_out_of_range(meaning, seen) {
        return Some(Wrong::OutOfRange);
    }
    meaning.acceptance();
    if is_program(seen.what) && is_barred(meaning, state.page, seen, state.array) {
        return Some(barred(meaning));
    }
    None
}

/// The opcode is known, and its clocks aren't those of its instruction.
fn is_broken(what: What) -> bool
    ensures { result ≡ is_broken what }
{
    matches!(what, What::Broken)
}

/// A busy chip takes only status reads.
fn is_status(what: What) -> bool
    ensures { result ≡ is_status what }
{
    matches!(what, What::Status)
}

/// Four lanes need the quad enable setting.
fn is_quad(what: What) -> bool
    ensures { result ≡ is_quad what }
{
    matches!(what, What::QuadProgram | What::QuadRead)
}

/// It writes to a page.
pub fn is_program(what: What) -> bool
    ensures { result ≡ is_program what }
{
    matches!(what, What::Program | What::QuadProgram)
}

/// Erases, programs, and switches of a chip that asks for it need the write enable latch.
fn needs_latch(meaning: &Meaning, what: What) -> bool
    ensures { result ≡ needs_latch meaning.now what }
{
    match what {
        What::Erase(_) | What::Program | What::QuadProgram => true,
        What::Enter => meaning.enter == Switch::Latched,
        What::Leave => meaning.leave == Switch::Latched,
        _ => false,
    }
}

/// An address at or past the size, a byte read past it, or an erase that starts no legal block.
#[tactic(auto, unfolding(nor_base::specs::Effect::is_out_of_range))]
fn is_out_of_range(meaning: &Meaning, seen: &Seen<'_>) -> bool
    ensures { result ≡ is_out_of_range meaning.now (instruction_of seen.now) }
{
    let size = meaning.size;
    (has_address(seen.what) && size <= seen.address)
        || (reads_past(size, seen) || starts_no_block(meaning, seen.what, seen.address))
}

/// It names an address.
fn has_address(what: What) -> bool
    ensures { result ≡ has_address what }
{
    matches!(
        what,
        What::Erase(_) | What::Program | What::QuadProgram | What::Read | What::QuadRead
    )
}

/// It gives bytes of the array.
fn is_read(what: What) -> bool
    ensures { result ≡ is_read what }
{
    matches!(what, What::Read | What::QuadRead)
}

/// How many bytes a read samples; more than any chip has are reported as 2^32.
fn count_asked(seen: &Seen<'_>) -> u64
    requires { is_read seen.now.what ≡ true }
    ensures { result ≡ min (instruction_of seen.now).asked (2 ^ 32) }
{
    (seen.count() as u64).min(1 << 32)
}

/// A byte is read past the size.
fn reads_past(size: u32, seen: &Seen<'_>) -> bool
    ensures { result ≡ is_read seen.now.what && nat_lt size
        (seen.now.address + (instruction_of seen.now).asked) }
{
    is_read(seen.what) && u64::from(size) < u64::from(seen.address) + count_asked(seen)
}

/// An erase from where no legal block of its kind starts.
fn starts_no_block(meaning: &Meaning, what: What, address: u32) -> bool
    ensures { result ≡ starts_no_block meaning.now what address }
{
    match what {
        What::Erase(kind) => !is_legal(meaning, kind, address),
        _ => false,
    }
}
