//! What the values of a command line of `script` ask for.

ghost use Rattle.std.specs.Prelude.{◌≡◌, ◌||◌, not, is_some, IfSome};
ghost use Rattle.norprog_common.specs.Setup.{is_setup};
ghost use Rattle.norprog_script.specs.Request.{is_well_formed, says_chip as said, AsksChip};
ghost use Rattle.norprog_script.specs.Request.{AsksFor};

use norprog_common::{OutFile, ScriptArgs, Setup, SetupArgs, setup_of};

/// What `script` is asked for.
#[derive(Clone, Copy)]
pub struct ScriptRequest<'a> {
    /// The chip of which the log is a listing; None where the log is one of another tool.
    pub chip: Option<Setup<'a>>,
    pub log: &'a str,
    /// Reads of an identification or a register are left out.
    pub without_identity: bool,
    pub out: OutFile<'a>,
}

/// The request that the values spell. None where one that has to be there isn't, or isn't of its
/// form.
pub fn request_of<'a>(given: ScriptArgs<'a>) -> Option<ScriptRequest<'a>>
    ensures forms { is_some result ≡ is_well_formed given.entry }
    ensures values { IfSome result (λ request. AsksFor given.entry request) }
{
    Some(ScriptRequest {
        chip: chip_of(given.setup)?,
        log: given.log?,
        without_identity: given.without_identity,
        out: given.out?,
    })
}

/// The chip that is said, if something is said of one. None where that isn't of its form.
fn chip_of<'a>(given: SetupArgs<'a>) -> Option<Option<Setup<'a>>>
    ensures forms { is_some result ≡ not (said given.entry) || is_setup given.entry }
    ensures values { IfSome result (AsksChip given.entry) }
{
    if !says_chip(given) {
        return Some(None);
    }
    Some(Some(setup_of(given)?))
}

/// Whether something is said of a chip.
fn says_chip(given: SetupArgs<'_>) -> bool
    ensures { result ≡ said given.entry }
{
    let chip = given.chip;
    chip.sfdp.is_some()
        || chip.uniform.is_some()
        || chip.sheet.is_some()
        || chip.bits.is_some()
        || chip.part.is_some()
        || given.status.is_some()
        || given.mode4
        || given.quad
        || given.erased_only
}
