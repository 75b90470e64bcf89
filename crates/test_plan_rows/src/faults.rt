//! The lines of faults.

use nor_base::IntoWrite;
use nor_job::BuildFault;
use norprog_common::{Refusal, refuse};
use std::io;
use test_samples::words::ODD;

/// Writes the line of a fault, as the program prints it (FORMATS.md, section 9) without its own
/// name.
pub(crate) fn put_fault(out: &mut String, fault: BuildFault) -> io::Result<()> {
    let mut line = IntoWrite::new(Vec::new(*out.allocator()));
    let _ = refuse(&Refusal::Build(fault), &mut line);
    let line = line.into_inner();
    let text = str::from_utf8(&line).ok().ok_or(ODD)?;
    Ok(out.push_str(text.strip_prefix("norprog: ").ok_or(ODD)?)?)
}
