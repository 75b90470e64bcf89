//! How what a chip holds compares with what it must hold.

ghost use Rattle.std.specs.Prelude.{◌≡◌, length, IfOk, IfErr, MatchOption};
ghost use Rattle.nor_job.specs.Causes.{RefusesInputs};
ghost use Rattle.norprog_flash.specs.Compared.{differing, IsComparison, IsFirstDifference};

use crate::goal::goal_of;
use nor_job::{BuildFault, Inputs};
use std::alloc::Global;

/// How what a chip holds compares with what it must hold.
#[derive(Clone, Copy, PartialEq, Eq, Drop)]
pub enum Comparison {
    /// It holds that.
    Same {
        /// The addresses of the image that are the chip's and chosen.
        bytes: u64,
    },
    /// It doesn't.
    Differs {
        /// The lowest address that differs.
        at: u32,
        /// What the chip has there.
        chip: u8,
        /// What it must have there.
        want: u8,
        /// The addresses that differ.
        bytes: u64,
    },
}

/// How a content compares with the target of inputs. Memory is taken for the image, the layout and
/// the content.
///
/// The refusals are those of [`goal_of`].
pub fn compare(alloc: Global, inputs: &Inputs<'_>, content: &[u8]) -> Result<Comparison, BuildFault>
    ensures compared { IfOk result (IsComparison inputs.now content.now) }
    ensures refused { IfErr result (RefusesInputs inputs.now (length content.now)) }
{
    let goal = goal_of(alloc, inputs, content)?;
    let want = goal.bytes.as_slice();
    match first_difference(content, want) {
        None => Ok(Comparison::Same {
            bytes: goal.given - goal.ignored,
        }),
        Some(at) => Ok(Comparison::Differs {
            at: at as u32,
            chip: content[at],
            want: want[at],
            bytes: differing(content, want),
        }),
    }
}

/// The lowest place at which two byte strings differ.
fn first_difference(one: &[u8], other: &[u8]) -> Option<usize>
    requires { length one.now ≡ length other.now }
    ensures { MatchOption result (one.now ≡ other.now) (IsFirstDifference one.now other.now) }
{
    for place in 0..one.len() {
        if one[place] != other[place] {
            return Some(place);
        }
    }
    None
}

/// At how many places two byte strings differ.
fn differing(one: &[u8], other: &[u8]) -> u64
    ensures { result ≡ differing one.now other.now }
{
    one.iter().zip(other).filter(|(a, b)| *a != *b).count() as u64
}
