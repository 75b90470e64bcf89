//! What a line of a sheet says, by its first word.

ghost use Rattle.std.specs.Prelude.{◌≡◌, IfOk, IfSome, map};
ghost use Rattle.nor_sheet.specs.Limits.{IsSaid};
ghost use Rattle.nor_sheet.specs.Line.{line_says, said_by, words_say};

use crate::fault::LineFault;
use crate::said::{
    Said, address_said, dedicated_said, erase_said, page_said, quad_read_said, region_said,
    size_said, switch_said,
};
use crate::words::words;

/// What a line says; nothing where it has no words.
pub(crate) fn line_says(line: &[u8]) -> Result<Option<Said>, LineFault>
    ensures said { result ≡ line_says line.now }
    ensures kept { IfOk result (λ said. IfSome said IsSaid) }
{
    let words = words(line).ok_or(LineFault::Form)?;
    words_say(words.as_slice())
}

/// What words say.
fn words_say(words: &[&[u8]]) -> Result<Option<Said>, LineFault>
    ensures said { result ≡ words_say (map (λ word. word.now) words.now) }
    ensures kept { IfOk result (λ said. IfSome said IsSaid) }
{
    match words {
        [] => Ok(None),
        [name, others @ ..] => Ok(Some(said_by(name, others)?)),
    }
}

/// What a line with this first word says.
fn said_by(name: &[u8], words: &[&[u8]]) -> Result<Said, LineFault>
    ensures said { result ≡ said_by name.now (map (λ word. word.now) words.now) }
    ensures kept { IfOk result IsSaid }
{
    if name == b"size".as_slice() {
        return size_said(words);
    }
    if name == b"page".as_slice() {
        return page_said(words);
    }
    if name == b"address".as_slice() {
        return address_said(words);
    }
    if name == b"erase".as_slice() {
        return erase_said(words);
    }
    if name == b"enter".as_slice() {
        return Ok(Said::Enter(switch_said(words)?));
    }
    if name == b"leave".as_slice() {
        return Ok(Said::Leave(switch_said(words)?));
    }
    if name == b"quadread".as_slice() {
        return quad_read_said(words);
    }
    if name == b"dedicated".as_slice() {
        return dedicated_said(words);
    }
    if name == b"region".as_slice() {
        return region_said(words);
    }
    Err(LineFault::Word)
}
