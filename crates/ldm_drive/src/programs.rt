//! Programs.
ghost use Rattle.std.specs.Prelude.{◌<◌, ◌≢◌, length, IfOk};
ghost use Rattle.ldm_outside.specs.Launcher.{IsTaking, IsNotWaitedFor};

use ldm_outside::{ChildNo, Failed, Launcher, Put};

/// Starts a child.
pub fn start<L: Launcher>(
    launcher: &mut L,
    words: &[String],
    piped: bool,
) -> Result<ChildNo, Failed>
    requires { 0 < length words.now }
    ensures { IfOk result (λ child. IsTaking child (L.tells launcher.new)) }
{
    launcher.start(words, piped)
}

/// Starts a child beside another, which stays as it was.
pub fn start_beside<L: Launcher>(
    launcher: &mut L,
    words: &[String],
    piped: bool,
    other: ChildNo,
) -> Result<ChildNo, Failed>
    requires words { 0 < length words.now }
    requires other { IsTaking other (L.tells launcher.old) }
    ensures other { IsTaking other (L.tells launcher.new) }
    ensures started { IfOk result (λ child. IsTaking child (L.tells launcher.new) × (child.0 ≢ other.0)) }
{
    launcher.start(words, piped)
}

/// Writes to a child. Its input stays open, and it can be waited for.
pub fn write<L: Launcher>(launcher: &mut L, child: ChildNo, piece: &[u8]) -> Put
    requires { IsTaking child (L.tells launcher.old) }
    ensures taking { IsTaking child (L.tells launcher.new) }
    ensures not_waited { IsNotWaitedFor child (L.tells launcher.new) }
{
    launcher.write(child, piece)
}

/// Shuts the input of a child, which can be waited for.
pub fn shut<L: Launcher>(launcher: &mut L, child: ChildNo) -> Result<(), Failed>
    requires { IsTaking child (L.tells launcher.old) }
    ensures { IsNotWaitedFor child (L.tells launcher.new) }
{
    launcher.shut(child)
}

/// Lets a child run on alone. Every other child stays as it was.
pub fn detach<L: Launcher>(launcher: &mut L, child: ChildNo)
    requires { IsNotWaitedFor child (L.tells launcher.old) }
    ensures { (other : ChildNo) → other.0 ≢ child.0 → IsTaking other (L.tells launcher.old)
        → IsTaking other (L.tells launcher.new) }
{
    launcher.detach(child);
}
