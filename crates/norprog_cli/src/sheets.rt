//! The sheets that were installed with the program, by their names.

ghost use Rattle.std.specs.Prelude.{◌<◌, length, IfSome};
ghost use Rattle.norprog_cli.specs.Sheets.{NamesSheet};

use std::{env, fs};

/// Where they are, from the program's own folder on: as `make install` puts them, and beside it.
const FOLDERS: [&str; 2] = ["../share/norprog/sheets", "sheets"];

/// Puts the path of an installed sheet in place of its name, where a value of `--sheet` is one: the
/// name of its file without `.sheet`, in letters of either case, digits and `-`. A value that names
/// none stays, and so does one that is a file's name too: that file may be a sheet of another chip.
pub(crate) fn name_sheet(rt: &HostRuntime, words: &mut Vec<String>)
    ensures { NamesSheet words.old.items words.new.items }
{
    if let Some((index, word)) = named(rt, words.as_slice()) {
        words[index] = word;
    }
}

/// The first word that names an installed sheet, by its index, with the path in place of the name.
fn named(rt: &HostRuntime, words: &[String]) -> Option<(usize, String)>
    ensures { IfSome result (λ found. found.0 < length words.now) }
{
    for index in 0..words.len() {
        if let Some(word) = named_at(rt, words, index) {
            return Some((index, word));
        }
    }
    None
}

/// The word of this index with the path in place of the name, if it names an installed sheet.
fn named_at(rt: &HostRuntime, words: &[String], index: usize) -> Option<String> {
    let word = words.get(index)?.as_str();
    if let Some(name) = word.strip_prefix("--sheet=") {
        return installed(rt, "--sheet=", name);
    }
    let before = words.get(index.checked_sub(1)?)?.as_str();
    if before != "--sheet" {
        return None;
    }
    installed(rt, "", word)
}

/// The path of the installed sheet of this name behind a text, if there is one.
fn installed(rt: &HostRuntime, front: &str, name: &str) -> Option<String> {
    if !is_name(name) || fs::exists(rt, name).unwrap_or(true) {
        return None;
    }
    let name = name.to_ascii_lowercase(rt.alloc()).ok()?;
    let program = env::current_exe(rt).ok()?;
    let own = program.parent()?.to_str()?;
    for folder in FOLDERS {
        let path = format!(in rt.alloc(); "{own}/{folder}/{name}.sheet").ok()?;
        if fs::exists(rt, path.as_str()).unwrap_or(false) {
            return format!(in rt.alloc(); "{front}{path}").ok();
        }
    }
    None
}

/// Whether a text is letters, digits and `-`.
fn is_name(text: &str) -> bool {
    !text.is_empty()
        && text
            .as_bytes()
            .iter()
            .all(|byte| byte.is_ascii_alphanumeric() || *byte == b'-')
}
