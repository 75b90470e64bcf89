//! What the command line library reads of the table of commands and options.

ghost use Rattle.std.specs.Prelude.{◌≡◌, map, IfOk, false, Some};
ghost use Rattle.clap.specs.Words.{app_of, rule_of};
ghost use Rattle.norprog_options.specs.Program.{program};
ghost use Rattle.norprog_options.specs.Table.{alone, command_of, option_of, with_options};

use crate::arguments::{Choice, Form, Takes, VERSION, choices_of, each_has, forms};
use clap::{Arg, ArgAction, Command};
use std::alloc::{AllocError, Global};

/// The program with its commands.
pub(crate) fn norprog<'a>(alloc: Global) -> Result<Command<'a>, AllocError>
    ensures { IfOk result (λ command. app_of command ≡ program) }
{
    let mut program = Command::new(alloc, "norprog")
        .bin_name("norprog")?
        .about("Programs a SPI NOR flash chip by a bus script")
        .no_binary_name(true)
        .subcommand_required(true)
        .version(VERSION);
    for form in forms() {
        program = program.subcommand(command_of(alloc, form)?)?;
    }
    Ok(program)
}

/// A command with its options.
fn command_of<'a>(alloc: Global, form: &Form) -> Result<Command<'a>, AllocError>
    ensures { IfOk result (λ command. app_of command ≡ alone (command_of form.now)) }
{
    let mut command = Command::new(alloc, form.name)
        .about(form.about)
        .after_help(form.example);
    for group in form.groups {
        command = with_choices(alloc, command, choices_of(*group))?;
    }
    command = with_choices(alloc, command, form.choices)?;
    with_choices(alloc, command, each_has(form))
}

/// A command with more options.
fn with_choices<'a>(
    alloc: Global,
    command: Command<'a>,
    choices: &[Choice],
) -> Result<Command<'a>, AllocError>
    ensures { IfOk result (λ more. app_of more
        ≡ with_options (app_of command.entry) (map option_of choices.now)) }
{
    let mut command = command;
    for choice in choices {
        command = command.arg(argument_of(alloc, choice))?;
    }
    Ok(command)
}

/// What is read for an option.
fn argument_of<'a>(alloc: Global, choice: &Choice) -> Arg<'a>
    ensures rule { rule_of result ≡ option_of choice.now }
    ensures local { result.global ≡ false }
{
    let argument = Arg::new(alloc, choice.name).help(choice.help);
    match choice.takes {
        Takes::Nothing => argument.long(choice.name).action(ArgAction::SetTrue),
        Takes::File => value(argument, choice, "F", ArgAction::Set),
        Takes::Files => value(argument, choice, "F", ArgAction::Append),
        Takes::Value(name) => value(argument, choice, name, ArgAction::Set),
        Takes::Words(name) => argument
            .value_name(name)
            .num_args(0..)
            .action(ArgAction::Append),
    }
}

/// An option with a value, which is shown by this name.
fn value<'a>(argument: Arg<'a>, choice: &Choice, name: &'static str, action: ArgAction) -> Arg<'a>
    ensures rule { rule_of result ≡ record (rule_of argument.entry) {
      long = Some choice.now.name.now;
      value_names = 1;
      action = Some action;
      required = choice.now.required;
    } }
    ensures local { result.global ≡ argument.entry.global }
{
    argument
        .long(choice.name)
        .value_name(name)
        .action(action)
        .required(choice.required)
}
