//! What is asked of a chip, and what it gave.

use nor_base::{Meaning, Part};

/// What is known of a chip's meaning.
#[derive(Clone, Copy)]
pub enum Known<'a> {
    /// Its own tables have it.
    Own,
    /// Its own tables have it, and are to be as these bytes of a file, as far as their headers
    /// reach.
    Tables(&'a [u8]),
    /// Its size in bytes; what its own tables say, if it has any, has no part in its meaning.
    Uniform(u32),
    /// The text of its sheet has it; of what its own tables say, if it has any, only its size is
    /// looked at.
    Sheet(&'a [u8]),
}

/// Addresses, from one up to another.
#[derive(Clone, Copy)]
pub struct Span {
    /// The first of them.
    pub low: usize,
    /// The first after them.
    pub high: usize,
}

/// What is asked of a chip.
#[derive(Clone, Copy)]
pub struct Ask<'a> {
    /// What is known of its meaning.
    pub known: Known<'a>,
    /// The configuration bits of its sector map.
    pub bits: &'a str,
    /// Its family, which says what its status registers mean.
    pub part: Part,
    /// Whether it is put into four-byte address mode, where it has both, else into three-byte mode.
    pub mode4: bool,
    /// Most status reads until it is idle, 1 or more.
    pub turns: u64,
    /// Whether its content is read.
    pub content: bool,
    /// Of its content only the windows around these addresses, where they are given.
    pub near: Option<Span>,
    /// Whether its meaning is that of the profile that programs only erased bytes.
    pub erased_only: bool,
    /// Bytes of its page, where its meaning only says the least that they may be.
    pub page: Option<u32>,
    /// Whether the terminal is said to hand on each byte as it comes. Else what comes with the
    /// content has to show that the terminal changed nothing of what is read.
    pub raw: bool,
    /// Whether the chip's power is said to have been switched on just before, so that it is in the
    /// mode that was said.
    pub fresh: bool,
    /// Whether the tables of a chip of a size or a sheet may say another size, and its end isn't
    /// looked for.
    pub any_size: bool,
    /// Whether the halves of its content may be alike, as far as they are read.
    pub repeats: bool,
    /// The identification that it has to have, where one is given.
    pub expect_id: Option<[u8; 3]>,
}

/// What a chip gave.
#[derive(Drop)]
pub struct Reading {
    /// Its family, as it was said.
    pub part: Part,
    /// Whether its content was read.
    pub whole: bool,
    /// Its identification (9Fh).
    pub id: [u8; 3],
    /// The size that its identification says, where its size was said and is another one.
    pub note: Option<u32>,
    /// S7 to S0; of a W25Q256JV S23 to S0.
    pub status: u32,
    /// Its SFDP bytes; none where a chip of a size or a sheet has none.
    pub tables: Vec<u8>,
    /// What they, its size or its sheet mean.
    pub meaning: Meaning,
    /// Which part of the content was read.
    pub span: Span,
    /// The byte of each address, from 0 on, any byte where it wasn't read; none where nothing was.
    pub content: Vec<u8>,
}
