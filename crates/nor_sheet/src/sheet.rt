//! What the lines of a sheet say together.

ghost use Rattle.std.specs.Prelude.{◌≡◌, []};
ghost use Rattle.nor_sheet.specs.Limits.{IsSaid};
ghost use Rattle.nor_sheet.specs.Sheet.{once, sheet_of, with};

use crate::fault::LineFault;
use crate::said::{Dedicated, Page, Said};
use arrayvec::ArrayVec;
use nor_base::{Erase, QuadRead, Region, Switch, Width};
use std::marker::Model;

/// What is said of each subject, where something is.
#[derive(Drop)]
pub(crate) struct Sheet {
    pub size: Option<u32>,
    pub page: Option<Page>,
    pub width: Option<Width>,
    /// The erase kinds 1 to 4.
    pub kinds: [Option<Erase>; 4],
    pub enter: Option<Switch>,
    pub leave: Option<Switch>,
    pub quad_read: Option<Option<QuadRead>>,
    pub dedicated: Option<Dedicated>,
    pub regions: ArrayVec<Region, 256>,
}

impl Model for Sheet {
    ghost use Rattle.nor_sheet.specs.Sheet.{Sheet};
    ghost use Rattle.nor_sheet.specs.View.{shown};

    ghost Value = { Sheet };

    ghost view = { shown };
}

impl Sheet {
    /// Nothing is said.
    pub(crate) fn empty() -> Sheet
        ensures { result ≡ sheet_of [] }
    {
        Sheet {
            size: None,
            page: None,
            width: None,
            kinds: [None; 4],
            enter: None,
            leave: None,
            quad_read: None,
            dedicated: None,
            regions: ArrayVec::new(),
        }
    }

    /// The sheet that says this too.
    pub(crate) fn with(self, said: Said) -> Result<Sheet, LineFault>
        requires { IsSaid said }
        ensures { result ≡ with self said }
    {
        let mut sheet = self;
        match said {
            Said::Size(size) => sheet.size = once(sheet.size, size)?,
            Said::Page(page) => sheet.page = once(sheet.page, page)?,
            Said::Address(width) => sheet.width = once(sheet.width, width)?,
            Said::Kind(kind, erase) => {
                let slot = usize::from(kind - 1);
                sheet.kinds[slot] = once(sheet.kinds[slot], erase)?;
            }
            Said::Enter(switch) => sheet.enter = once(sheet.enter, switch)?,
            Said::Leave(switch) => sheet.leave = once(sheet.leave, switch)?,
            Said::QuadRead(read) => sheet.quad_read = once(sheet.quad_read, read)?,
            Said::Dedicated(dedicated) => sheet.dedicated = once(sheet.dedicated, dedicated)?,
            Said::Region(region) => {
                if sheet.regions.is_full() {
                    return Err(LineFault::Limit);
                }
                sheet.regions.push(region);
            }
        }
        Ok(sheet)
    }
}

/// A value where none is said yet.
fn once<T: Copy>(told: Option<T>, value: T) -> Result<Option<T>, LineFault>
    ensures { result ≡ once told value }
{
    match told {
        None => Ok(Some(value)),
        Some(_) => Err(LineFault::Twice),
    }
}
