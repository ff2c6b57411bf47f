//! Pieces that are written whole.
ghost use Rattle.ldm_outside.specs.Launcher.{IsTaking};
ghost use Rattle.ldm_outside.specs.Store.{IsOpen};
ghost use Rattle.ldm_actions.specs.Writing.{AppendsAll, FeedsAll};

use ldm_outside::{ChildNo, Failed, FileNo, Launcher, Put, Store};

/// Writes a whole piece at the end of an open file: all of it at once, then each time what the store left of it. An
/// empty piece takes no call.
///
/// [`Failed`] comes at the first call that fails, after a front of the piece was written.
pub fn append_all<F: Store>(store: &mut F, file: FileNo, piece: &[u8]) -> Result<(), Failed>
    requires { IsOpen file (F.tells store.old) }
    ensures { AppendsAll result file piece.now (F.tells store.old) (F.tells store.new) }
{
    let mut at = 0;
    while at < piece.len() {
        match store.write(file, &piece[at..]) {
            Put::Took(n) => at += n,
            Put::Failed => return Err(Failed),
        }
    }
    Ok(())
}

/// Writes a whole piece to the input of a child, as [`append_all`] does to a file.
///
/// [`Failed`] comes at the first call that fails, after the child was given a front of the piece.
pub fn feed_all<L: Launcher>(launcher: &mut L, child: ChildNo, piece: &[u8]) -> Result<(), Failed>
    requires { IsTaking child (L.tells launcher.old) }
    ensures { FeedsAll result child piece.now (L.tells launcher.old) (L.tells launcher.new) }
{
    let mut at = 0;
    while at < piece.len() {
        match launcher.write(child, &piece[at..]) {
            Put::Took(n) => at += n,
            Put::Failed => return Err(Failed),
        }
    }
    Ok(())
}
