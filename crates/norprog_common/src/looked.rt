//! A script that is read for its faults.

ghost use Rattle.std.specs.Prelude.{IfOk, IfErr};
ghost use Rattle.nor_script.specs.Stream.{CountsRead, HadText, IsSpelled, StopsReader};
ghost use Rattle.norprog_common.specs.Reading.{GivesSome};

use nor_base::ByteIn;
use nor_script::{ReadFault, StepReader};
use std::alloc::Global;

/// Reads a script to its end, for its faults. However that ends, what the device gave is the
/// beginning of what it had ahead.
///
/// The first fault is returned, as [`StepReader`] reports it; `Device` where the device failed;
/// `Memory` where a growth is refused.
pub fn look_through<R: ByteIn>(alloc: Global, script: &mut R) -> Result<(), ReadFault>
    ensures read { IfOk result
        (λ _. HadText (R.ahead script.old) (R.ahead script.new) IsSpelled) }
    ensures stopped { IfErr result (StopsReader (R.ahead script.old) (R.ahead script.new)) }
    ensures gave { GivesSome (R.ahead script.old) (R.ahead script.new) }
    ensures count { CountsRead (R.count script.old) (R.count script.new) result }
{
    let mut reader = StepReader::begin(alloc, script)?;
    while reader.advance(script)? {}
    Ok(())
}
