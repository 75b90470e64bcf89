//! What the values of a command line of `play` ask for.

ghost use Rattle.std.specs.Prelude.{◌≡◌, is_some, IfSome};
ghost use Rattle.norprog_player.specs.Request.{is_well_formed, AsksFor};

use norprog_common::{PlayArgs, Setup, limit, optional_number, setup_of};

/// What `play` is asked for: each value is of its form.
#[derive(Clone, Copy)]
pub struct PlayRequest<'a> {
    pub setup: Setup<'a>,
    pub content: &'a str,
    pub script: &'a str,
    pub device: &'a str,
    /// Most status reads of one poll, 1 or more.
    pub limit: u64,
    /// The chip behind the device isn't compared.
    pub trust: bool,
}

/// The request that the values spell. None where one isn't of its form, or one that has to be there
/// isn't.
pub fn request_of<'a>(given: PlayArgs<'a>) -> Option<PlayRequest<'a>>
    ensures forms { is_some result ≡ is_well_formed given.entry }
    ensures values { IfSome result (λ request. AsksFor given.entry request) }
{
    let setup = setup_of(given.setup)?;
    let page = optional_number(given.page)?;
    Some(PlayRequest {
        setup: Setup { page, ..setup },
        content: given.content?,
        script: given.script?,
        device: given.device?,
        limit: limit(given.limit.unwrap_or("1000000"))?,
        trust: given.trust,
    })
}
