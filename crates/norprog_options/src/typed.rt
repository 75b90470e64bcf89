//! The options with values as they stand on a command line.

ghost use Rattle.std.specs.Prelude.{◌≡◌, ◌++◌, map, IfErr, IfOk};
ghost use Rattle.clap.specs.Words.{found_of};
ghost use Rattle.norprog_options.specs.Spelled.{memory};
ghost use Rattle.norprog_options.specs.Typed.{IsLineIn, IsLineOf, option_names, pair_of, typed_in};
ghost use Rattle.norprog_options.specs.Typed.{valued_by};

use crate::options::strs_in;
use clap::ArgMatches;
use norprog_common::Refusal;
use norprog_details::{CommandLine, Typed};
use std::alloc::Global;

/// The options that have values.
const NAMES: &[&str] = &[
    "hex",
    "layout",
    "base",
    "sfdp",
    "uniform",
    "sheet",
    "bits",
    "part",
    "content",
    "status",
    "busy",
    "each-busy",
    "limit",
    "page",
    "from",
    "script",
    "log",
    "out",
    "map",
    "tables",
    "bin",
    "at",
    "steps",
    "device",
    "before",
    "resume",
    "expect-id",
];

/// What stands on a command line, except flags.
#[derive(Drop)]
pub struct TypedLine<'a> {
    /// The command's name.
    pub command: &'a str,
    typed: Vec<Typed<'a>>,
    regions: Vec<&'a str>,
}

impl<'a> TypedLine<'a> {
    /// The same as slices.
    pub fn as_line(&self) -> CommandLine<'_>
        ensures { IsLineOf self.now result }
    {
        CommandLine {
            command: self.command,
            typed: self.typed.as_slice(),
            regions: self.regions.as_slice(),
        }
    }
}

/// What comes after the name of a command, except flags.
pub(crate) fn line_in<'a>(
    alloc: Global,
    command: &'a str,
    used: &ArgMatches<'a>,
) -> Result<TypedLine<'a>, Refusal>
    ensures done { IfOk result (IsLineIn command.entry.now (found_of used.now)) }
    ensures memory { IfErr result (λ why. why ≡ memory) }
{
    Ok(TypedLine {
        command,
        typed: typed_in(alloc, used, option_names())?,
        regions: strs_in(alloc, used, "names")?,
    })
}

/// The names of the options that have values.
fn option_names() -> &'static [&'static str]
    ensures { map (λ name. name.now) result.now ≡ option_names }
{
    NAMES
}

/// The options of these names that have values, with each of them.
fn typed_in<'a>(
    alloc: Global,
    used: &ArgMatches<'a>,
    names: &[&'static str],
) -> Result<Vec<Typed<'a>>, Refusal>
    ensures done { IfOk result (λ typed. map pair_of typed.items
        ≡ typed_in (map (λ name. name.now) names.now) (found_of used.now)) }
    ensures memory { IfErr result (λ why. why ≡ memory) }
{
    let mut typed = Vec::new(alloc);
    for name in names {
        add_typed(used, *name, &mut typed)?;
    }
    Ok(typed)
}

/// Adds an option with each of its values.
fn add_typed<'a>(
    used: &ArgMatches<'a>,
    name: &'static str,
    typed: &mut Vec<Typed<'a>>,
) -> Result<(), Refusal>
    ensures done { IfOk result (λ _. map pair_of typed.new.items
        ≡ map pair_of typed.old.items ++ valued_by (found_of used.now) name.now) }
    ensures memory { IfErr result (λ why. why ≡ memory) }
{
    match used.get_strs(name) {
        Some(values) => add_values(values, name, typed),
        None => Ok(()),
    }
}

/// The same of these values.
fn add_values<'a>(
    values: &[&'a str],
    name: &'static str,
    typed: &mut Vec<Typed<'a>>,
) -> Result<(), Refusal>
    ensures done { IfOk result (λ _. map pair_of typed.new.items ≡ map pair_of typed.old.items
        ++ map (λ text. (name.now, text)) (map (λ value. value.now) values.now)) }
    ensures memory { IfErr result (λ why. why ≡ memory) }
{
    for value in values {
        typed.push(Typed {
            name,
            value: *value,
        })?;
    }
    Ok(())
}
