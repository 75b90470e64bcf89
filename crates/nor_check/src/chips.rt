//! All chips of one page together.

ghost use Rattle.std.specs.Prelude.{◌≡◌, ◌<◌, ◌≤◌, ◌+◌, true, false, [], length, slice_range, None};
ghost use Rattle.std.specs.Prelude.{IfOk};
ghost use Rattle.std.specs.Str.{bytes_eq};
ghost use Rattle.nor_base.specs.declared.step.Step.TheVariants.{Send, Poll, Verify};
ghost use Rattle.nor_base.specs.Accepted.{IsAccepted};
ghost use Rattle.nor_base.specs.Blocks.{is_legal as is_legal_block};
ghost use Rattle.nor_base.specs.Chip.{is_busy, is_settled, may_page};
ghost use Rattle.nor_base.specs.Parameters.{block_size};
ghost use Rattle.nor_base.specs.Effect.{answer, erased, programmed, is_program, is_status};
ghost use Rattle.nor_chip.specs.Sent.{instruction_of, sent};
ghost use Rattle.nor_check.specs.Chips.{one_like, latch_of, some_left, least_able, last_settled};
ghost use Rattle.nor_check.specs.Chips.{switched, begun};
ghost use Rattle.nor_check.specs.declared.chips.Latches.TheVariants.{Clear};
ghost use Rattle.nor_check.specs.Judged.{StepsAll, all_does, all_refusal, accepted, is_other_page};
ghost use Rattle.nor_check.specs.Outcome.{at_end, first_difference};
ghost use Rattle.nor_check.specs.Apart.{lies_in_page, leaves_page, tells_apart};
ghost use Rattle.nor_check.specs.Pages.{with_page};
ghost use Rattle.nor_check.specs.View.{step_of};
ghost use Rattle.nor_base.specs.Decoding.{decode as decode_of};

use crate::verdict::{Verdict, Why};
use crate::view::StepView;
use nor_base::{Meaning, Start, What, Wrong};
use nor_chip::erase::fill_block;
use nor_chip::program::program;
use nor_chip::rules::{State, is_program, refusal};
use nor_decode::{POLL, Seen, decode, is_verify};
use nor_laws::verifying_reads;
use std::alloc::{AllocError, Global};
use std::marker::Model;

/// The write enable latches of all chips of a page.
#[derive(Clone, Copy, Drop)]
pub(crate) enum Latches {
    /// Clear on each.
    Clear,
    /// Set on each.
    Set,
    /// Set on the chips that keep a set latch where the address mode changes, clear on the others.
    Either,
}

/// All chips of a meaning and a start with one page, after some steps: what they have in common.
///
/// It acts on its vector in place, asks for no memory, and takes time proportional to a
/// transaction's clocks and the bytes that it touches; an erase also looks at the regions of the
/// meaning.
#[derive(Drop)]
pub(crate) struct AllChips<'a> {
    meaning: &'a Meaning,
    start: Start,
    page: u32,
    array: Vec<u8>,
    mode4: bool,
    /// On each chip any number of status reads may be left; else none is.
    busy: bool,
    latches: Latches,
}

impl<'a> Model for AllChips<'a> {
    ghost use Rattle.nor_check.specs.Chips.{Together};

    ghost Value = { Together };

    ghost use Rattle.std.specs.Prelude.{◌≡◌, true, length};
    ghost use Rattle.nor_base.specs.Chip.{may_page};

    ghost view = { λ c. record {
      kind = record { meaning = c.meaning.now; start = c.start; page = c.page };
      chips = record { array = c.array.items; mode4 = c.mode4; busy = c.busy; latches = c.latches };
    } };

    ghost invariant = { λ c. (length c.array.items ≡ c.meaning.now.size)
        × (may_page c.meaning.now c.page ≡ true) };
}

impl<'a> AllChips<'a> {
    /// All ready chips with the meaning's own page and this content.
    pub(crate) fn new(meaning: &'a Meaning, start: Start, content: Vec<u8>) -> AllChips<'a>
        requires { length content.items ≡ meaning.now.size }
        ensures { result ≡ begun meaning.now start meaning.now.page content.items }
    {
        AllChips {
            meaning,
            start,
            page: meaning.page,
            array: content,
            mode4: meaning.begins4(&start),
            busy: false,
            latches: Latches::Clear,
        }
    }

    /// The same chips with a page of another size.
    pub(crate) fn with_page(&self, alloc: Global, page: u32) -> Result<AllChips<'a>, AllocError>
        requires { may_page self.now.kind.meaning page ≡ true }
        ensures { IfOk result (λ chips. chips ≡ with_page self.now page) }
    {
        let array = Vec::from_slice(alloc, self.array.as_slice())?;
        Ok(AllChips {
            meaning: self.meaning,
            start: self.start,
            page,
            array,
            mode4: self.mode4,
            busy: self.busy,
            latches: self.latches,
        })
    }

    /// Whether a page is another one than the meaning's own, and some chip may have it.
    pub(crate) fn has_other_page(&self, page: u32) -> bool
        ensures { result ≡ is_other_page self.now.kind.meaning page }
    {
        let meaning = self.meaning;
        page != meaning.page && meaning.may_page(page)
    }

    /// Their page.
    pub(crate) fn page(&self) -> u32
        ensures { result ≡ self.now.kind.page }
    {
        self.page
    }

    /// What they hold.
    pub(crate) fn array(&self) -> &[u8]
        ensures array { result.now ≡ self.now.chips.array }
        ensures size { length result.now ≡ self.now.kind.meaning.size }
    {
        self.array.as_slice()
    }

    /// What they hold, moved out.
    pub(crate) fn into_array(self) -> Vec<u8>
        ensures { result.items ≡ self.entry.chips.array }
    {
        self.array
    }

    /// Whether the one that takes the fewest instructions is busy.
    fn may_be_busy(&self) -> bool
        ensures { result ≡ is_busy (some_left self.now.chips.busy) }
    {
        self.busy
    }

    /// Whether the latch is set on each.
    fn is_set(&self) -> bool
        ensures { result ≡ latch_of self.now.chips.latches false }
    {
        matches!(self.latches, Latches::Set)
    }

    /// Whether the latch may be set on some.
    fn may_be_set(&self) -> bool
        ensures { result ≡ latch_of self.now.chips.latches true }
    {
        !matches!(self.latches, Latches::Clear)
    }

    /// Why some chip doesn't take an instruction, by the first rule that applies to one.
    fn refusal(&self, seen: &Seen<'_>) -> Option<Wrong>
        ensures { result ≡ all_refusal self.now.kind self.now.chips (instruction_of seen.now) }
    {
        let state = State {
            meaning: self.meaning,
            quad: self.start.quad,
            page: self.page,
            busy: self.may_be_busy(),
            latch: self.is_set(),
            array: self.array.as_slice(),
        };
        refusal(&state, seen)
    }

    /// Does an instruction that each chip takes.
    fn take(&mut self, seen: &Seen<'_>)
        requires taken { all_refusal self.old.kind self.old.chips (instruction_of seen.now) ≡ None }
        ensures chips { self.new.chips ≡ all_does self.old.kind self.old.chips
            (instruction_of seen.now) seen.now.what }
        ensures stays { self.new.kind ≡ self.old.kind }
    {
        let _ = &self.meaning;
        match seen.what {
            What::Enable => self.set_latches(Latches::Set),
            What::Disable => self.set_latches(Latches::Clear),
            What::Enter => self.switch_mode(true),
            What::Leave => self.switch_mode(false),
            What::Erase(kind) => self.erase(kind, seen.address),
            What::Program | What::QuadProgram => self.program(seen),
            What::Status => {}
            What::Read => {}
            What::QuadRead => {}
            What::Broken => {}
        }
    }

    /// Write enable and write disable (06h, 04h).
    fn set_latches(&mut self, latches: Latches)
        ensures chips { self.new.chips ≡ record self.old.chips { latches = latches } }
        ensures stays { self.new.kind ≡ self.old.kind }
    {
        self.latches = latches;
    }

    /// Enters or leaves the four-byte address mode (B7h, E9h): a set latch stays just where it is
    /// kept.
    fn switch_mode(&mut self, mode4: bool)
        ensures chips { self.new.chips ≡ record self.old.chips
            { mode4 = mode4; latches = switched self.old.chips.latches } }
        ensures stays { self.new.kind ≡ self.old.kind }
    {
        self.mode4 = mode4;
        if self.may_be_set() {
            self.latches = Latches::Either;
        }
    }

    /// FFh over a legal block.
    fn erase(&mut self, kind: u8, start: u32)
        requires { is_legal_block self.old.kind.meaning kind start ≡ true }
        ensures chips { self.new.chips
            ≡ accepted self.old.chips
            (erased start (block_size self.old.kind.meaning kind) self.old.chips.array) }
        ensures stays { self.new.kind ≡ self.old.kind }
    {
        let meaning = self.meaning;
        meaning.acceptance();
        let size = meaning.block_size(kind);
        fill_block(self.array.as_mut_slice(), start as usize, size as usize);
        self.accept();
    }

    /// Clears bits of one page.
    fn program(&mut self, seen: &Seen<'_>)
        requires program { is_program seen.now.what ≡ true }
        requires inside { seen.now.address < length self.old.chips.array }
        ensures chips { self.new.chips
            ≡ accepted self.old.chips
            (programmed self.old.kind.page seen.now.address (sent seen.now)
            self.old.chips.array) }
        ensures stays { self.new.kind ≡ self.old.kind }
    {
        let meaning = self.meaning;
        meaning.acceptance();
        program(self.page, seen, self.array.as_mut_slice());
        self.accept();
    }

    /// The latch is clear on each, and any may be busy for any number of status reads.
    fn accept(&mut self)
        ensures chips { self.new.chips ≡ accepted self.old.chips self.old.chips.array }
        ensures stays { self.new.kind ≡ self.old.kind }
    {
        self.latches = Latches::Clear;
        self.busy = true;
    }

    /// Whether an instruction other than a status read, which each chip takes, gives just these
    /// bytes.
    fn gives(&self, seen: &Seen<'_>, expect: &[u8]) -> bool
        requires taken { all_refusal self.now.kind self.now.chips (instruction_of seen.now) ≡ None }
        requires quiet { is_status seen.now.what ≡ false }
        ensures { result ≡ bytes_eq
            (answer (least_able self.now.chips) (instruction_of seen.now) seen.now.what)
            expect.now }
    {
        let _ = &self.meaning;
        match seen.what {
            What::Read | What::QuadRead => self.holds(seen.address, seen.count(), expect),
            _ => expect.is_empty(),
        }
    }

    /// Whether so many bytes from an address on are these.
    fn holds(&self, address: u32, count: usize, expect: &[u8]) -> bool
        requires { address + count ≤ length self.now.chips.array }
        ensures { result ≡ bytes_eq (slice_range self.now.chips.array address (address + count))
            expect.now }
    {
        let from = address as usize;
        &self.array[from..from + count] == expect
    }

    /// Whether a step has a program that leaves the meaning's page: chips with a larger one may do
    /// otherwise.
    pub(crate) fn tells_apart(&self, step: StepView<'_>) -> bool
        ensures apart { result ≡ tells_apart self.now.kind.meaning self.now.chips.mode4
            (step_of step.entry) }
        ensures accepted { IsAccepted self.now.kind.meaning }
    {
        let meaning = self.meaning;
        meaning.acceptance();
        match step {
            StepView::Send(clocks) | StepView::Verify(clocks, _) => self.leaves_page(clocks),
            StepView::Poll(_) => false,
        }
    }

    /// Whether clocks are a program that leaves the meaning's page.
    fn leaves_page(&self, clocks: &[u8]) -> bool
        ensures { result ≡ leaves_page self.now.kind.meaning.page
            (decode_of self.now.kind.meaning self.now.chips.mode4 clocks.now) }
    {
        let meaning = self.meaning;
        meaning.acceptance();
        match decode(clocks, meaning, self.mode4) {
            Some(seen) => is_program(seen.what) && !lies_in_page(meaning.page, &seen),
            None => false,
        }
    }

    /// One step of a script.
    pub(crate) fn step(&mut self, step: StepView<'_>) -> Result<(), Wrong>
        ensures { StepsAll self.old self.new result (step_of step.entry) }
    {
        match step {
            StepView::Send(clocks) => self.send(clocks),
            StepView::Poll(clocks) => self.poll(clocks),
            StepView::Verify(clocks, expect) => self.verify(clocks, expect),
        }
    }

    /// Clocks sent once.
    fn send(&mut self, clocks: &[u8]) -> Result<(), Wrong>
        ensures { StepsAll self.old self.new result (Send clocks.now) }
    {
        let seen = match decode(clocks, self.meaning, self.mode4) {
            Some(seen) => seen,
            None => return Err(Wrong::Unknown),
        };
        match self.refusal(&seen) {
            Some(why) => Err(why),
            None => {
                self.take(&seen);
                Ok(())
            }
        }
    }

    /// Status reads until a chip says idle: then none is left on any.
    fn poll(&mut self, clocks: &[u8]) -> Result<(), Wrong>
        ensures { StepsAll self.old self.new result (Poll clocks.now) }
    {
        if clocks != POLL.as_slice() {
            return Err(Wrong::Unknown);
        }
        self.busy = false;
        Ok(())
    }

    /// Clocks sent once, and their bytes compared: all chips give the same.
    fn verify(&mut self, clocks: &[u8], expect: &[u8]) -> Result<(), Wrong>
        ensures { StepsAll self.old self.new result (Verify clocks.now expect.now) }
    {
        // so it is no status read
        verifying_reads();
        if !is_verify(clocks) {
            return Err(Wrong::Unknown);
        }
        let seen = match decode(clocks, self.meaning, self.mode4) {
            Some(seen) => seen,
            None => return Err(Wrong::Unknown),
        };
        if let Some(why) = self.refusal(&seen) {
            return Err(why);
        }
        if !self.gives(&seen, expect) {
            return Err(Wrong::Mismatch);
        }
        self.take(&seen);
        Ok(())
    }

    /// The verdict after so many steps, none of which went wrong on any chip.
    pub(crate) fn verdict(&self, steps: u64, target: &[u8]) -> Verdict
        requires { length target.now ≡ self.now.kind.meaning.size }
        ensures { result ≡ at_end (one_like self.now.kind [] true) target.now steps
            (last_settled self.now.chips) }
    {
        if !self.settled() {
            let why = Why::Wrong(Wrong::NotIdleAtEnd);
            return Verdict::No { step: steps, why };
        }
        match self.difference(target) {
            None => Verdict::Yes,
            Some(address) => Verdict::No {
                step: steps,
                why: Why::Differs(address),
            },
        }
    }

    /// Whether each chip is idle, with its latch clear, in its first address mode.
    #[tactic(auto, unfolding(nor_base::specs::Chip::is_settled))]
    fn settled(&self) -> bool
        ensures { result ≡ is_settled (one_like self.now.kind [] true)
            (last_settled self.now.chips) }
    {
        let meaning = self.meaning;
        let first = meaning.begins4(&self.start);
        !self.may_be_busy() && (!self.may_be_set() && self.mode4 == first)
    }

    /// The lowest address at which the array isn't the target.
    fn difference(&self, target: &[u8]) -> Option<u32>
        requires { length target.now ≡ self.now.kind.meaning.size }
        ensures { result ≡ first_difference self.now.chips.array target.now }
    {
        if self.array.as_slice() == target {
            return None;
        }
        let meaning = self.meaning;
        for address in 0..meaning.size {
            if self.array[address as usize] != target[address as usize] {
                return Some(address);
            }
        }
        None
    }
}

/// Whether the bytes of a program lie in one page of this size.
fn lies_in_page(page: u32, seen: &Seen<'_>) -> bool
    requires page { 0 < page }
    requires program { is_program seen.now.what ≡ true }
    ensures { result ≡ lies_in_page page seen.now.address (sent seen.now) }
{
    seen.count() <= (page - seen.address % page) as usize
}
