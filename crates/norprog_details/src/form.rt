//! The forms of the options' values.

use norprog_common::{base, decimal, limit, part, status};

/// The form of a value.
#[derive(Clone, Copy)]
pub(crate) enum Form {
    /// Any text, as a file's name.
    Any,
    /// A number of 32 bits in decimal.
    Number,
    /// A number from 1 on of 64 bits in decimal.
    Limit,
    /// Numbers of 32 bits in decimal, joined by commas.
    Numbers,
    /// 1 to 8 hexadecimal digits.
    Address,
    /// Six hexadecimal digits.
    Status,
    /// A chip's family.
    Part,
}

const NUMBER: &str = "a decimal number up to 4294967295, without 0x or a unit (8 MiB is 8388608)";

const LIMIT: &str = "a decimal number from 1 to 18446744073709551615";

const NUMBERS: &str = "decimal numbers up to 4294967295, joined by commas";

const ADDRESS: &str = "1 to 8 hexadecimal digits, without 0x";

const STATUS: &str = "six hexadecimal digits, without 0x";

const PART: &str = "generic or w25q256jv";

/// The form of the value of an option by its name.
pub(crate) fn form_of(name: &str) -> Form {
    match name {
        "uniform" | "page" | "from" | "steps" | "each-busy" => Form::Number,
        "limit" => Form::Limit,
        "busy" => Form::Numbers,
        "base" | "at" => Form::Address,
        "status" | "expect-id" => Form::Status,
        "part" => Form::Part,
        _ => Form::Any,
    }
}

/// Whether a value is of a form.
pub(crate) fn fits(form: Form, value: &str) -> bool {
    match form {
        Form::Any => true,
        Form::Number => decimal(value).is_some(),
        Form::Limit => limit(value).is_some(),
        Form::Numbers => are_numbers(value),
        Form::Address => base(value).is_some(),
        Form::Status => status(value).is_some(),
        Form::Part => part(value).is_some(),
    }
}

/// Whether each part between commas is a number of 32 bits in decimal.
fn are_numbers(value: &str) -> bool {
    let mut all = true;
    for part in value.split(',') {
        all = all && decimal(part).is_some();
    }
    all
}

/// A form in words.
pub(crate) fn form_words(form: Form) -> &'static str {
    match form {
        Form::Any => "any text",
        Form::Number => NUMBER,
        Form::Limit => LIMIT,
        Form::Numbers => NUMBERS,
        Form::Address => ADDRESS,
        Form::Status => STATUS,
        Form::Part => PART,
    }
}
