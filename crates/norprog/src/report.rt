//! What a build did.

ghost use Rattle.std.specs.Prelude.{◌≡◌, ◌++◌, codes};
ghost use Rattle.nor_base.specs.Device.{Writes, Counts};
ghost use Rattle.nor_base.specs.Script.{closed};
ghost use Rattle.norprog.specs.Report.{report_text, strategy_name};

use itoa::Buffer;
use nor_base::{ByteOut, Failed, Strategy, put_parts};

/// What a build did.
#[derive(Clone, Copy, PartialEq, Eq)]
pub struct Report {
    /// By which opcodes and how many address bytes.
    pub strategy: Strategy,
    /// Steps of the script.
    pub steps: u64,
    /// Erase instructions.
    pub erases: u64,
    /// Bytes erased.
    pub erased: u64,
    /// Program instructions.
    pub programs: u64,
    /// Addresses of the image that have no place on the chip or aren't chosen.
    pub ignored: u64,
}

/// Writes a report: `strategy S2`, `steps n`, `erases n`, `erased n`, `programs n`, `ignored n`, a
/// line each, closed by LF; numbers in decimal. It takes no memory.
///
/// At `Failed` a proper prefix was taken; it comes only from the writer, whose count of failures
/// rose by one.
pub fn write_report<W: ByteOut>(report: &Report, writer: &mut W) -> Result<(), Failed>
    ensures bytes { Writes (W.held writer.old) (W.held writer.new) result (report_text report.now) }
    ensures count { Counts (W.count writer.old) (W.count writer.new) result }
{
    let mut steps = Buffer::new();
    let mut erases = Buffer::new();
    let mut erased = Buffer::new();
    let mut programs = Buffer::new();
    let mut ignored = Buffer::new();
    put_parts(
        writer,
        &[
            strategy_line(report.strategy),
            b"steps ",
            steps.format(report.steps).as_bytes(),
            b"\nerases ",
            erases.format(report.erases).as_bytes(),
            b"\nerased ",
            erased.format(report.erased).as_bytes(),
            b"\nprograms ",
            programs.format(report.programs).as_bytes(),
            b"\nignored ",
            ignored.format(report.ignored).as_bytes(),
            b"\n",
        ],
    )
}

/// The strategy's line.
fn strategy_line(strategy: Strategy) -> &'static [u8]
    ensures { result.now ≡ closed (codes "strategy " ++ strategy_name strategy) }
{
    match strategy {
        Strategy::S1 => b"strategy S1\n",
        Strategy::S2 => b"strategy S2\n",
        Strategy::S3 => b"strategy S3\n",
        Strategy::S4 => b"strategy S4\n",
        Strategy::S5 => b"strategy S5\n",
    }
}
