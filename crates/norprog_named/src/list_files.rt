//! `list` on its files.

ghost use Rattle.std.specs.Prelude.{◌≡◌, is_some, IfSome};
ghost use Rattle.norprog_files.specs.Files.{Did};
ghost use Rattle.norprog_named.specs.List.{AsksList, EndsList, is_list, refusal_of};
ghost use Rattle.norprog_common.specs.Told.{output};

use crate::job::read_tables;
use nor_base::ByteOut;
use nor_listing::{Stop, list_steps};
use nor_script::ReadFault;
use norprog_common::{FileName, ListArgs, Refusal, Setup, known_chip, setup_inputs, setup_of};
use norprog_files::{Files, Trail};
use std::alloc::Global;

/// What `list` is asked for.
#[derive(Clone, Copy)]
pub struct ListRequest<'a> {
    pub setup: Setup<'a>,
    pub script: &'a str,
}

/// The request that the values of a command line spell. None where one isn't of its form.
pub(crate) fn list_of<'a>(given: ListArgs<'a>) -> Option<ListRequest<'a>>
    ensures forms { is_some result ≡ is_list given.entry }
    ensures values { IfSome result (λ request. AsksList given.entry request) }
{
    Some(ListRequest {
        setup: setup_of(given.setup)?,
        script: given.script?,
    })
}

/// Prints a script step by step (docs/FORMATS.md, sections 9 and 12). Returns the status, 0.
pub fn list<F: Files, O: ByteOut>(
    alloc: Global,
    files: &F,
    trail: &mut F::Trail,
    request: ListRequest<'_>,
    out: &mut O,
) -> Result<u8, Refusal>
    ensures { Did (F.Trail.did trail.old) (F.Trail.did trail.new)
        (λ log. EndsList (F.unread files.now) request.entry
        (output O.held O.count out.old out.new)
        log result) }
{
    let tables = read_tables(alloc, files, trail, request.setup.chip)?;
    let (mut script, _len) = files.open(trail, request.script, FileName::Script)?;
    let inputs = setup_inputs(request.setup, tables.as_slice());
    let (meaning, start) = known_chip(&inputs)?;
    match list_steps(alloc, &meaning, meaning.begins4(&start), &mut script, out) {
        Ok(()) => Ok(0),
        Err(stop) => Err(refusal_of(stop)),
    }
}

/// What is told where the steps aren't all listed.
fn refusal_of(stop: Stop) -> Refusal
    ensures { result ≡ refusal_of stop }
{
    match stop {
        Stop::Script(ReadFault::Script(fault)) => Refusal::from(fault),
        Stop::Script(ReadFault::Device(_)) => Refusal::File(FileName::Script),
        Stop::Out(_) => Refusal::WRITE,
    }
}
