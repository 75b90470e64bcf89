//! What the values of a command line of `draw` ask for.

ghost use Rattle.std.specs.Prelude.{◌≡◌, is_some, option_map, IfSome};
ghost use Rattle.norprog_common.specs.Values.{said_number};
ghost use Rattle.norprog_script.specs.DrawRequest.{is_well_formed, AsksFor};

use norprog_common::{DrawArgs, OutFile, decimal};

/// What `draw` is asked for: each value is of its form.
#[derive(Clone, Copy)]
pub struct DrawRequest<'a> {
    pub script: &'a str,
    pub out: OutFile<'a>,
    /// The first step that is drawn, counted from 0.
    pub from: u64,
    /// How many steps are drawn; all from the first on where none is given.
    pub count: Option<u64>,
}

/// The request that the values spell. None where one isn't of its form, or one that has to be there
/// isn't.
pub fn drawing_of<'a>(given: DrawArgs<'a>) -> Option<DrawRequest<'a>>
    ensures forms { is_some result ≡ is_well_formed given.entry }
    ensures values { IfSome result (λ request. AsksFor given.entry request) }
{
    Some(DrawRequest {
        script: given.script?,
        out: given.out?,
        from: u64::from(decimal(given.from.unwrap_or("0"))?),
        count: optional_count(given.steps)?,
    })
}

/// The number of steps, if one is given; None where it isn't of its form.
fn optional_count(text: Option<&str>) -> Option<Option<u64>>
    ensures { result ≡ said_number (option_map (λ t. t.now) text.entry) }
{
    match text {
        Some(text) => Some(Some(u64::from(decimal(text)?))),
        None => Some(None),
    }
}
