//! A chip in memory, which answers as the definition of an instruction's effect says.

ghost use Rattle.std.specs.Prelude.{◌≡◌, ◌<◌, ◌≤◌, ◌+◌, ⊤, pred, true, length, replicate};
ghost use Rattle.std.specs.Prelude.{slice_range, None, Ok, OnErr};
ghost use Rattle.nor_base.specs.Sample.{sampled_count};
ghost use Rattle.nor_base.specs.Chip.{chip_of, may_page, is_settled, IsPossible};
ghost use Rattle.nor_base.specs.Blocks.{is_legal as is_legal_block};
ghost use Rattle.nor_base.specs.Parameters.{block_size};
ghost use Rattle.nor_base.specs.Effect.{effect_of, wrong_of, is_program, programmed, erased};
ghost use Rattle.nor_base.specs.Effect.{accepting, switching, status};
ghost use Rattle.nor_base.specs.Port.{Shown, Transacts, CountsTransact};
ghost use Rattle.nor_chip.specs.Busy.{times_of};
ghost use Rattle.nor_chip.specs.Ready.{paged, ready_chip};
ghost use Rattle.nor_chip.specs.Sent.{instruction_of, sent};

use crate::busy::BusyTimes;
use crate::erase::fill_block;
use crate::port::Port;
use crate::program::program;
use crate::rules::{State, refusal};
use nor_base::{Meaning, PortFault, Start, What, Wrong};
use nor_decode::{Seen, decode};
use std::marker::Model;

/// A chip: its meaning, start and page, what it holds, and its state.
///
/// It is to software what the W25Q256JV datasheet and JESD216B say of a chip with that meaning. It
/// acts on its vector in place, asks for no memory, and takes time proportional to a transaction's
/// clocks and the bytes that it changes or gives, never to its size; an erase also looks at the
/// regions of its meaning.
#[derive(Drop)]
pub struct Chip<'a> {
    meaning: &'a Meaning,
    start: Start,
    page: u32,
    busy: BusyTimes,
    keeps: bool,
    array: Vec<u8>,
    latch: bool,
    mode4: bool,
    left: u32,
    next: usize,
}

impl<'a> Model for Chip<'a> {
    ghost use Rattle.nor_base.specs.Port.{Shown};

    ghost Value = { Shown };

    ghost use Rattle.std.specs.Prelude.{◌≡◌, ◌≤◌, true, length, drop};
    ghost use Rattle.nor_base.specs.Chip.{may_page};
    ghost use Rattle.nor_chip.specs.Busy.{times_of};

    ghost view = { λ c. record {
      setting = record {
        meaning = c.meaning.now;
        start = c.start;
        page = c.page;
        busy = times_of
            c.busy;
        keeps = c.keeps;
      };
      chip = record {
        array = c.array.items;
        latch = c.latch;
        mode4 = c.mode4;
        left = c.left;
        to_come = drop c.next (times_of c.busy);
      };
    } };

    ghost invariant = { λ c. (length c.array.items ≡ c.meaning.now.size)
        × ((c.next ≤ length (times_of c.busy)) × (may_page c.meaning.now c.page ≡ true)) };
}

impl<'a> Chip<'a> {
    /// A ready chip with the meaning's own page. `content` begins at address 0.
    ///
    /// Each program and each erase keeps it busy for the next number of status reads in `busy`, and
    /// for none past the list's end. `keeps`: a set write enable latch stays set where the address
    /// mode is entered or left.
    pub fn new(
        meaning: &'a Meaning,
        start: Start,
        content: Vec<u8>,
        busy: Vec<u32>,
        keeps: bool,
    ) -> Chip<'a>
        requires size { length content.items ≡ meaning.now.size }
        requires mode { IsPossible meaning.now start }
        ensures { result ≡ ready_chip (chip_of meaning.now start busy.items keeps) content.items }
    {
        let page = meaning.page;
        let busy = BusyTimes::Listed(busy);
        Chip::with_page(meaning, start, content, busy, keeps, page)
    }

    /// The same with a page of so many bytes, one that [`Meaning::may_page`] allows: a chip whose
    /// SFDP is that of the first JESD216 may have a larger one than the meaning's, which is only
    /// the least.
    pub fn with_page(
        meaning: &'a Meaning,
        start: Start,
        content: Vec<u8>,
        busy: BusyTimes,
        keeps: bool,
        page: u32,
    ) -> Chip<'a>
        requires size { length content.items ≡ meaning.now.size }
        requires mode { IsPossible meaning.now start }
        requires page { may_page meaning.now page ≡ true }
        ensures { result ≡ ready_chip (paged (chip_of meaning.now start (times_of busy) keeps) page)
            content.items }
    {
        Chip {
            meaning,
            start,
            page,
            busy,
            keeps,
            array: content,
            latch: false,
            mode4: meaning.begins4(&start),
            left: 0,
            next: 0,
        }
    }

    /// The bytes that it holds, by their addresses from 0 on.
    pub fn content(&self) -> &[u8]
        ensures { result.now ≡ self.now.chip.array }
    {
        self.array.as_slice()
    }

    /// Why the chip doesn't take an instruction, by the first rule that applies.
    fn refusal(&self, seen: &Seen<'_>) -> Option<Wrong>
        ensures { result ≡ wrong_of
            (effect_of self.now.setting self.now.chip (instruction_of seen.now)) }
    {
        let state = State {
            meaning: self.meaning,
            quad: self.start.quad,
            page: self.page,
            busy: self.left > 0,
            latch: self.latch,
            array: self.array.as_slice(),
        };
        refusal(&state, seen)
    }

    /// Does an instruction that the chip takes, and fills `out` with the bytes that it gives.
    fn take(&mut self, seen: &Seen<'_>, out: &mut [u8])
        requires taken { wrong_of
            (effect_of self.old.setting self.old.chip (instruction_of seen.now)) ≡ None }
        requires room { length out.old ≡ (instruction_of seen.now).asked }
        ensures effect { effect_of self.old.setting self.old.chip (instruction_of seen.now)
            ≡ Ok (self.new.chip, out.new) }
        ensures stays { self.new.setting ≡ self.old.setting }
    {
        let _ = &self.meaning;
        match seen.what {
            What::Enable => self.set_latch(true),
            What::Disable => self.set_latch(false),
            What::Enter => self.switch_mode(true),
            What::Leave => self.switch_mode(false),
            What::Status => self.read_status(out),
            What::Read | What::QuadRead => self.read(seen.address, out),
            What::Erase(kind) => self.erase(kind, seen.address),
            What::Program | What::QuadProgram => self.program(seen),
            What::Broken => {}
        }
    }

    /// Write enable and write disable (06h, 04h).
    fn set_latch(&mut self, latch: bool)
        ensures chip { self.new.chip ≡ record self.old.chip { latch = latch } }
        ensures stays { self.new.setting ≡ self.old.setting }
    {
        self.latch = latch;
    }

    /// Enters or leaves the four-byte address mode (B7h, E9h).
    fn switch_mode(&mut self, mode4: bool)
        ensures chip { self.new.chip ≡ switching self.old.setting self.old.chip mode4 }
        ensures stays { self.new.setting ≡ self.old.setting }
    {
        self.mode4 = mode4;
        self.latch = self.latch && self.keeps;
    }

    /// Status register 1 (05h), in each byte alike: bit 0 is busy, bit 1 the write enable latch.
    fn read_status(&mut self, out: &mut [u8])
        ensures chip { self.new.chip ≡ record self.old.chip { left = pred self.old.chip.left } }
        ensures stays { self.new.setting ≡ self.old.setting }
        ensures bytes { out.new ≡ replicate (length out.old) (status self.old.chip) }
    {
        let status = if self.left > 0 {
            3
        } else if self.latch {
            2
        } else {
            0
        };
        out.fill(status);
        self.left = self.left.saturating_sub(1);
    }

    /// The bytes from an address on.
    fn read(&self, address: u32, out: &mut [u8])
        requires { address + length out.old ≤ length self.now.chip.array }
        ensures { out.new ≡ slice_range self.now.chip.array address (address + length out.old) }
    {
        let from = address as usize;
        out.copy_from_slice(&self.array[from..from + out.len()]);
    }

    /// FFh over a legal block.
    fn erase(&mut self, kind: u8, start: u32)
        requires { is_legal_block self.old.setting.meaning kind start ≡ true }
        ensures chip { self.new.chip
            ≡ accepting self.old.chip
            (erased start (block_size self.old.setting.meaning kind) self.old.chip.array) }
        ensures stays { self.new.setting ≡ self.old.setting }
    {
        let meaning = self.meaning;
        meaning.acceptance();
        let size = meaning.block_size(kind);
        fill_block(self.array.as_mut_slice(), start as usize, size as usize);
        self.accept();
    }

    /// Clears bits of one page.
    fn program(&mut self, seen: &Seen<'_>)
        requires program { is_program seen.now.what ≡ true }
        requires inside { seen.now.address < length self.old.chip.array }
        ensures chip { self.new.chip
            ≡ accepting self.old.chip
            (programmed self.old.setting.page seen.now.address (sent seen.now)
            self.old.chip.array) }
        ensures stays { self.new.setting ≡ self.old.setting }
    {
        let meaning = self.meaning;
        meaning.acceptance();
        program(self.page, seen, self.array.as_mut_slice());
        self.accept();
    }

    /// The latch is clear, and the chip is busy for the next of its busy times.
    fn accept(&mut self)
        ensures chip { self.new.chip ≡ accepting self.old.chip
            self.old.chip.array }
        ensures stays { self.new.setting ≡ self.old.setting }
    {
        self.latch = false;
        self.left = 0;
        if self.next < self.busy.count() {
            self.left = self.busy.at(self.next);
            self.next += 1;
        }
    }
}

/// It never fails: each transaction is done, or refused with the [`Wrong`] of the first rule that
/// applies, and then neither the chip nor `out` is changed.
impl<'a> Port for Chip<'a> {
    ghost shown = { λ chip. chip };

    ghost count = { λ _. 0 };

    ghost asked = { λ _ _. ⊤ };

    fn transact(&mut self, clocks: &[u8], out: &mut [u8]) -> Result<(), PortFault>
        requires { length out.old ≡ sampled_count clocks.now }
        ensures effect { Transacts self.old self.new result clocks.now out.new }
        ensures count { CountsTransact 0 0 result }
        ensures unchanged { OnErr result (out.new ≡ out.old) }
    {
        let seen = match decode(clocks, self.meaning, self.mode4) {
            Some(seen) => seen,
            None => return Err(PortFault::Wrong(Wrong::Unknown)),
        };
        match self.refusal(&seen) {
            Some(why) => Err(PortFault::Wrong(why)),
            None => {
                self.take(&seen, out);
                Ok(())
            }
        }
    }

    fn wait_busy(&mut self, most: u64) -> u64 {
        let _ = &self.meaning;
        let done = u64::from(self.left).min(most);
        self.left -= done as u32;
        done
    }

    #[tactic(auto, unfolding(nor_base::specs::Chip::is_settled))]
    fn settled(&self) -> bool {
        let meaning = self.meaning;
        let first = meaning.begins4(&self.start);
        !(self.left > 0) && (!self.latch && self.mode4 == first)
    }

    fn failures(&self) -> u64 {
        0
    }
}
