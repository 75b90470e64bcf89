//! Which options, and which region, a refusal is about.

use itoa::Buffer;

/// What comes before an option's name where its file can't be used.
const FILE: &[u8] = b"norprog: file ";

/// What comes before the address that two files of the image give different bytes.
const CONFLICT: &[u8] = b"norprog: conflict at ";

/// What comes before the number of steps of a script that hasn't the one asked for.
const STEPS: &[u8] = b"norprog: script steps ";

/// What comes before the number of a region that is given only in part.
const PARTIAL: &[u8] = b"norprog: partial ";

/// Whether the line of a refusal is about the options of this name.
pub(crate) fn is_about(refusal: &[u8], name: &str) -> bool {
    if refusal.starts_with(FILE) {
        return &refusal[FILE.len()..] == name.as_bytes();
    }
    if refusal.starts_with(CONFLICT) {
        return name == "hex" || name == "bin";
    }
    if refusal.starts_with(STEPS) {
        return name == "from";
    }
    match words_for(name) {
        Some(words) => refusal.starts_with(words.as_bytes()),
        None => false,
    }
}

/// What the other lines of refusals begin with that are about the options of this name, if there
/// are any.
fn words_for(name: &str) -> Option<&'static str> {
    match name {
        "hex" => Some("norprog: hex "),
        "layout" => Some("norprog: layout "),
        "sfdp" | "uniform" => Some("norprog: sfdp "),
        "sheet" => Some("norprog: sheet "),
        "bin" => Some("norprog: bin "),
        "content" | "resume" => Some("norprog: content "),
        "script" => Some("norprog: script "),
        "log" => Some("norprog: log "),
        "status" => Some("norprog: status "),
        "page" => Some("norprog: page"),
        "device" => Some("norprog: device "),
        _ => None,
    }
}

/// The name of the region that the line of a refusal counts, from 0 on.
pub(crate) fn region_of<'a>(regions: &[&'a str], refusal: &[u8]) -> Option<&'a str> {
    let words = words_to_region(refusal);
    for (index, name) in regions.iter().enumerate() {
        if ends_in(words, b"region ", index as u64) {
            return Some(*name);
        }
    }
    None
}

/// The line of a refusal up to the number of a region.
fn words_to_region(refusal: &[u8]) -> &[u8] {
    match refusal.strip_prefix(PARTIAL) {
        Some(words) => &words[..words.iter().position(|byte| *byte == b':').unwrap_or(0)],
        None => refusal,
    }
}

/// Whether a line ends in these words and this number.
pub(crate) fn ends_in(line: &[u8], words: &[u8], number: u64) -> bool {
    let mut digits = Buffer::new();
    let digits = digits.format(number).as_bytes();
    if !line.ends_with(digits) {
        return false;
    }
    line[..line.len() - digits.len()].ends_with(words)
}
