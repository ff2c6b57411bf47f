//! Bodies from which some bytes are dropped.
ghost use Rattle.std.specs.Prelude.{◌≡◌, ◌≤◌, filter, length, take};
ghost use Rattle.ldm_outside.specs.Launcher.{IsTaking};
ghost use Rattle.ldm_outside.specs.Store.{IsOpen};
ghost use Rattle.ldm_actions.specs.Strip.{is_text as text_test, kept};
ghost use Rattle.ldm_actions.specs.Writing.{AppendsAll, FeedsAll};

use crate::writing::{append_all, feed_all};
use ldm_outside::{ChildNo, Failed, FileNo, Launcher, Store};

// How many bytes are stripped and written at once.
const AT_ONCE: usize = 4096;

// Whether a byte is a newline or printed in ASCII.
fn is_text(byte: u8) -> bool
    ensures { result ≡ text_test byte }
{
    byte == b'\n' || (byte >= b' ' && byte <= b'~')
}

// Puts the bytes that are text to the front of the buffer, and answers how many they are.
fn strip(part: &[u8], into: &mut [u8]) -> usize
    requires { length part.now ≤ length into.old }
    ensures count { result ≤ length into.new }
    ensures text { take result into.new ≡ filter text_test part.now }
{
    let mut n = 0;
    for byte in part {
        if is_text(*byte) {
            into[n] = *byte;
            n += 1;
        }
    }
    n
}

// Writes what is text of a part to an open file.
fn append_part<F: Store>(store: &mut F, file: FileNo, part: &[u8]) -> Result<(), Failed>
    requires is_open { IsOpen file (F.tells store.old) }
    requires short { length part.now ≤ AT_ONCE }
    ensures { AppendsAll result file (filter text_test part.now) (F.tells store.old) (F.tells store.new) }
{
    let mut buffer = [0; AT_ONCE];
    let n = strip(part, &mut buffer);
    append_all(store, file, &buffer[..n])
}

// Gives what is text of a part to a child.
fn feed_part<L: Launcher>(launcher: &mut L, child: ChildNo, part: &[u8]) -> Result<(), Failed>
    requires is_taking { IsTaking child (L.tells launcher.old) }
    requires short { length part.now ≤ AT_ONCE }
    ensures { FeedsAll result child (filter text_test part.now) (L.tells launcher.old) (L.tells launcher.new) }
{
    let mut buffer = [0; AT_ONCE];
    let n = strip(part, &mut buffer);
    feed_all(launcher, child, &buffer[..n])
}

// Writes what is text of a piece to an open file, part by part.
fn append_text<F: Store>(store: &mut F, file: FileNo, piece: &[u8]) -> Result<(), Failed>
    requires { IsOpen file (F.tells store.old) }
    ensures { AppendsAll result file (filter text_test piece.now) (F.tells store.old) (F.tells store.new) }
{
    let mut rest = piece;
    while !rest.is_empty() {
        let (part, others) = rest.split_at(rest.len().min(AT_ONCE));
        append_part(store, file, part)?;
        rest = others;
    }
    Ok(())
}

// Gives what is text of a piece to a child, part by part.
fn feed_text<L: Launcher>(launcher: &mut L, child: ChildNo, piece: &[u8]) -> Result<(), Failed>
    requires { IsTaking child (L.tells launcher.old) }
    ensures { FeedsAll result child (filter text_test piece.now) (L.tells launcher.old) (L.tells launcher.new) }
{
    let mut rest = piece;
    while !rest.is_empty() {
        let (part, others) = rest.split_at(rest.len().min(AT_ONCE));
        feed_part(launcher, child, part)?;
        rest = others;
    }
    Ok(())
}

/// Writes a piece to an open file: all of it, or what is text of it.
pub(crate) fn append_kept<F: Store>(
    store: &mut F,
    file: FileNo,
    strip: bool,
    piece: &[u8],
) -> Result<(), Failed>
    requires { IsOpen file (F.tells store.old) }
    ensures { AppendsAll result file (kept strip piece.now) (F.tells store.old) (F.tells store.new) }
{
    if strip {
        append_text(store, file, piece)
    } else {
        append_all(store, file, piece)
    }
}

/// Gives a piece to a child: all of it, or what is text of it.
pub(crate) fn feed_kept<L: Launcher>(
    launcher: &mut L,
    child: ChildNo,
    strip: bool,
    piece: &[u8],
) -> Result<(), Failed>
    requires { IsTaking child (L.tells launcher.old) }
    ensures { FeedsAll result child (kept strip piece.now) (L.tells launcher.old) (L.tells launcher.new) }
{
    if strip {
        feed_text(launcher, child, piece)
    } else {
        feed_all(launcher, child, piece)
    }
}
