//! What a chip's SFDP parameters say of it.

ghost use Rattle.std.specs.Prelude.{◌≡◌, ◌↔◌, ◌<◌, ◌≤◌, ◌%◌, IsSome, IfSome, ◌==◌};
ghost use Rattle.std.specs.List.{list_any};
ghost use Rattle.nor_base.specs.Parameters.{allows, block_size, erase_kind, erased_only_set};
ghost use Rattle.nor_base.specs.Chip.{begins4, may_page, page_sizes};
ghost use Rattle.nor_base.specs.Accepted.{IsAccepted};
ghost use Rattle.nor_base.specs.Uniform.{uniform_of, IsUniformSize};

use arrayvec::ArrayVec;
use std::marker::Model;

/// The family of a chip, where its part number says more than its SFDP does.
#[derive(Clone, Copy)]
pub enum Part {
    /// Nothing is known but the SFDP.
    Generic,
    /// Winbond W25Q256JV: it takes quad programs by 32h.
    W25q256jv,
}

/// How many address bytes a chip's legacy opcodes take (JESD216B, basic DWORD 1, bits 18:17).
#[derive(Clone, Copy, Debug)]
pub enum Width {
    /// Three.
    Three,
    /// Three or four, by its address mode.
    Both,
    /// Four.
    Four,
}

/// How a chip enters or leaves four-byte address mode (JESD216B, basic DWORD 16).
#[derive(Clone, Copy, Debug)]
pub enum Switch {
    /// Not at all.
    Absent,
    /// Only by the opcode.
    Plain,
    /// By the opcode after a write enable.
    Latched,
}

/// A region of the sector map (JESD216B, FF81h).
#[derive(Clone, Copy, Default)]
pub struct Region {
    /// Bytes.
    pub size: u32,
    /// The erase kinds allowed: bit 0 is kind 1.
    pub kinds: u8,
}

impl Region {
    /// Whether the region allows the erase kind of a number, 1 to 4; no other kind is allowed.
    pub fn allows(&self, kind: u8) -> bool
        ensures { result ≡ allows self.now kind }
    {
        let kinds = self.kinds;
        if kind == 0 || kind > 8 {
            return false;
        }
        (kinds >> (kind - 1)) % 2 == 1
    }
}

/// An erase kind (JESD216B, basic DWORDs 8 and 9, and FF84h).
#[derive(Clone, Copy)]
pub struct Erase {
    /// Bytes of a block.
    pub size: u32,
    /// The legacy opcode.
    pub op: u8,
    /// The opcode that takes four address bytes in each mode.
    pub op4: Option<u8>,
}

/// The 1-1-4 fast read (JESD216B, basic DWORD 3).
#[derive(Clone, Copy)]
pub struct QuadRead {
    /// The legacy opcode.
    pub op: u8,
    /// Clocks between address and data: wait states and mode clocks.
    pub dummies: u8,
}

/// Where a run of a script begins.
#[derive(Clone, Copy)]
pub struct Start {
    /// The chip is in four-byte address mode.
    pub mode4: bool,
    /// The chip's quad enable bit is set.
    pub quad: bool,
}

/// By which opcodes and how many address bytes a chip is driven.
#[derive(Clone, Copy, Debug, PartialEq, Eq)]
pub enum Strategy {
    /// The first mode is four-byte: legacy opcodes, four address bytes.
    S1,
    /// At most 16 MiB: legacy opcodes, three address bytes.
    S2,
    /// As S2 below 16 MiB; dedicated opcodes with four address bytes from there on.
    S3,
    /// Four-byte mode is entered before the first operation and left after the last.
    S4,
    /// As S2; what lies past 16 MiB can't be reached.
    S5,
}

/// What a chip's SFDP parameters say of it, where they are accepted.
#[derive(Drop)]
pub struct Meaning {
    /// Bytes: a multiple of 4096 from 4096 to 256 MiB.
    pub size: u32,
    /// Bytes of a page: a power of two from 16 to 4096.
    pub page: u32,
    /// The page is only known to be that large or larger: a chip's own may be each power of two
    /// from it to 4096.
    pub open_page: bool,
    /// Address bytes of the legacy opcodes.
    pub width: Width,
    /// The erase kinds 1 to 4; a present kind's size is a power of two from 256 to 16 MiB, and not
    /// below the page.
    pub erases: [Option<Erase>; 4],
    /// The regions of the sector map from address 0 on: 1 to 256, none empty, each a multiple of
    /// 256 bytes with a mask below 16, which add up to the size.
    pub regions: ArrayVec<Region, 256>,
    /// How four-byte address mode is entered (B7h); not absent only with [`Width::Both`].
    pub enter: Switch,
    /// How four-byte address mode is left (E9h); not absent only with [`Width::Both`].
    pub leave: Switch,
    /// The 1-1-4 fast read, with at most 38 dummy clocks.
    pub quad_read: Option<QuadRead>,
    /// The read by 13h, with four address bytes.
    pub read4: bool,
    /// The 1-1-4 fast read by 6Ch, with four address bytes; only where `quad_read` is there.
    pub quad_read4: bool,
    /// The program by 12h, with four address bytes.
    pub program4: bool,
    /// The quad program by 34h, with four address bytes.
    pub quad4: bool,
    /// The quad program by 32h.
    pub quad3: bool,
    /// Bytes are programmed only where they are FFh: the profile that a user asks for (no SFDP
    /// tells it).
    pub erased_only: bool,
}

impl Model for Meaning {
    ghost use Rattle.nor_base.specs.Parameters.{Parameters};

    ghost Value = { Parameters };

    ghost use Rattle.nor_base.specs.Accepted.{IsAccepted};
    ghost use Rattle.nor_base.specs.View.{parameters, fields_of};

    ghost view = { parameters };

    ghost invariant = { λ a. IsAccepted (parameters a) };

    ghost inverse = { fields_of };
}

impl Meaning {
    /// A chip of one region with 4 KiB sectors erased by 20h, a page of 256 bytes, three address
    /// bytes and nothing else. `None` unless the size is a multiple of 4096 from 4096 to 16 MiB.
    pub fn uniform(size: u32) -> Option<Meaning>
        ensures when { IsSome result ↔ IsUniformSize size }
        ensures value { IfSome result (λ meaning. meaning ≡ uniform_of size) }
    {
        if size < 4096 || size > 1 << 24 || size % 4096 != 0 {
            return None;
        }
        let mut regions = ArrayVec::new();
        regions.push(Region { size, kinds: 15 });
        let sectors = Erase {
            size: 4096,
            op: 0x20,
            op4: None,
        };
        Some(Meaning {
            size,
            page: 256,
            open_page: false,
            width: Width::Three,
            erases: [Some(sectors), None, None, None],
            regions,
            enter: Switch::Absent,
            leave: Switch::Absent,
            quad_read: None,
            read4: false,
            quad_read4: false,
            program4: false,
            quad4: false,
            quad3: false,
            erased_only: false,
        })
    }

    /// The erase kind of a number, 1 to 4, where it is present; `None` for an absent kind and every
    /// other number.
    pub fn erase_kind(&self, kind: u8) -> Option<Erase>
        ensures kind { result ≡ erase_kind self.now kind }
        ensures number { IfSome result (λ _. kind ≤ 4) }
        ensures some { IfSome result (λ erase. 0 < erase.size) }
    {
        self.acceptance();
        if kind == 0 || kind > 4 {
            return None;
        }
        self.erases[usize::from(kind - 1)]
    }

    /// Bytes of a block of the erase kind of a number; 0 for an absent kind and every other number
    /// than 1 to 4.
    pub fn block_size(&self, kind: u8) -> u32
        ensures { result ≡ block_size self.now kind }
    {
        match self.erase_kind(kind) {
            Some(erase) => erase.size,
            None => 0,
        }
    }

    /// Whether some region allows the erase kind of a number, 1 to 4, be it present or not; no
    /// other kind is allowed.
    pub fn is_allowed(&self, kind: u8) -> bool
        ensures { result ≡ list_any (λ region. allows region kind) self.now.regions }
    {
        self.regions.iter().any(|region| region.allows(kind))
    }

    /// Whether a chip of this meaning may have a page of so many bytes: the meaning's own or, where
    /// that is only the least, any power of two from it to 4096.
    pub fn may_page(&self, page: u32) -> bool
        ensures { result ≡ may_page self.now page }
    {
        page == self.page || (self.open_page && self.page <= page && is_page_size(page))
    }

    /// The same meaning under the profile that programs only erased bytes.
    pub fn erased_only_set(self) -> Meaning
        ensures { result ≡ erased_only_set self }
    {
        Meaning {
            erased_only: true,
            ..self
        }
    }

    /// Whether a chip that begins so begins in four-byte address mode: the start says so, or it has
    /// no other mode.
    pub fn begins4(&self, start: &Start) -> bool
        ensures { result ≡ begins4 self.now start.now }
    {
        start.mode4 || self.width == Width::Four
    }

    /// What holds of every meaning: it is accepted.
    pub fn acceptance(&self)
        ensures { IsAccepted self.now }
    {
        let _ = &self.size;
    }
}

/// Whether a page may have so many bytes on some chip: a power of two from 16 to 4096.
fn is_page_size(page: u32) -> bool
    ensures { result ≡ list_any (λ size. page == size) page_sizes }
{
    matches!(page, 16 | 32 | 64 | 128 | 256 | 512 | 1024 | 2048 | 4096)
}
