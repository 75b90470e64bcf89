//! What stands on a command line.

ghost use Rattle.std.specs.Prelude.{◌≡◌};
ghost use Rattle.norprog_details.specs.Details.{is_typed};

/// An option with its value.
#[derive(Clone, Copy)]
pub struct Typed<'a> {
    /// The option's name without its hyphens.
    pub name: &'a str,
    /// Its value.
    pub value: &'a str,
}

/// A command with what is typed after it, except flags.
#[derive(Clone, Copy)]
pub struct CommandLine<'a> {
    /// The command's name.
    pub command: &'a str,
    /// Its options with values.
    pub typed: &'a [Typed<'a>],
    /// The names of the chosen regions, in their order.
    pub regions: &'a [&'a str],
}

/// Whether an option of this name is given.
pub(crate) fn is_typed(typed: &[Typed<'_>], name: &str) -> bool
    ensures { result ≡ is_typed typed.now name.now }
{
    typed.iter().any(|option| option.name == name)
}

/// The value of the first option of this name.
pub(crate) fn value_of<'a>(typed: &[Typed<'a>], name: &str) -> Option<&'a str> {
    for option in typed {
        if option.name == name {
            return Some(option.value);
        }
    }
    None
}
