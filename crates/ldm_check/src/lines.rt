//! The lines that are written.
ghost use Rattle.std.specs.Prelude.{◌≡◌, ◌++◌, OnOk, codes, decimal, map, take};
ghost use Rattle.ldm_outside.specs.Putting.{shown};
ghost use Rattle.ldm_check.specs.declared.lines.TheConstants.{LONGEST_SHOWN};
ghost use Rattle.ldm_check.specs.Lines.{fault_line, file_line, text_behind, unread_line};

use itoa::Buffer;
use std::alloc::AllocError;

/// The most bytes of a line of a file that are shown.
pub(crate) const LONGEST_SHOWN: usize = 100;

/// Appends `FILE:LINE: what is wrong: TEXT`.
pub(crate) fn put_fault(
    out: &mut Vec<u8>,
    path: &[u8],
    number: u64,
    words: &[u8],
    text: &[u8],
) -> Result<(), AllocError>
    ensures { OnOk result (out.new.items ≡ out.old.items ++ fault_line path.now number words.now text.now) }
{
    put_place(out, path, number)?;
    out.extend_from_slice(words)?;
    put_text(out, text)?;
    out.push(b'\n')?;
    Ok(())
}

/// Appends `FILE:LINE: `.
pub(crate) fn put_place(out: &mut Vec<u8>, path: &[u8], number: u64) -> Result<(), AllocError>
    ensures { OnOk result (out.new.items
        ≡ out.old.items ++ map shown path.now ++ codes ":" ++ decimal number ++ codes ": ") }
{
    let mut digits = Buffer::new();
    put_shown(out, path)?;
    out.extend_from_slice(b":")?;
    out.extend_from_slice(digits.format(number).as_bytes())?;
    out.extend_from_slice(b": ")
}

// Appends the front of a line behind what is wrong with it, if it is not empty.
fn put_text(out: &mut Vec<u8>, text: &[u8]) -> Result<(), AllocError>
    ensures { OnOk result (out.new.items ≡ out.old.items ++ text_behind text.now) }
{
    if text.is_empty() {
        return Ok(());
    }
    out.extend_from_slice(b": ")?;
    put_shown(out, front_shown(text))
}

// The front of a line that is shown.
fn front_shown(text: &[u8]) -> &[u8]
    ensures { result.now ≡ take LONGEST_SHOWN text.now }
{
    if text.len() > LONGEST_SHOWN {
        &text[..LONGEST_SHOWN]
    } else {
        text
    }
}

/// Appends `FILE: what is wrong`.
pub(crate) fn put_file(out: &mut Vec<u8>, path: &[u8], words: &[u8]) -> Result<(), AllocError>
    ensures { OnOk result (out.new.items ≡ out.old.items ++ file_line path.now words.now) }
{
    put_shown(out, path)?;
    out.extend_from_slice(b": ")?;
    out.extend_from_slice(words)?;
    out.push(b'\n')?;
    Ok(())
}

/// Appends the line of a file that was not read, by the reason of the store.
pub(crate) fn put_unread(out: &mut Vec<u8>, path: &[u8], reason: &[u8]) -> Result<(), AllocError>
    ensures { OnOk result (out.new.items ≡ out.old.items ++ unread_line path.now reason.now) }
{
    if reason.is_empty() {
        return put_file(out, path, b"the file cannot be read");
    }
    out.extend_from_slice(reason)?;
    out.push(b'\n')?;
    Ok(())
}

/// Appends a text, each control byte of it as a `?`.
pub(crate) fn put_shown(out: &mut Vec<u8>, text: &[u8]) -> Result<(), AllocError>
    ensures { OnOk result (out.new.items ≡ out.old.items ++ map shown text.now) }
{
    for byte in text {
        out.push(shown(*byte))?;
    }
    Ok(())
}

// A byte as a line has it.
fn shown(byte: u8) -> u8
    ensures { result ≡ shown byte }
{
    if byte < 32 || byte == 127 { b'?' } else { byte }
}
