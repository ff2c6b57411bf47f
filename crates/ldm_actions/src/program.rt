//! Programs that actions start.
ghost use Rattle.std.specs.Prelude.{◌≡◌, ◌<◌, IfOk, string_bytes, vec_len};
ghost use Rattle.ldm_outside.specs.Launcher.{spelled};
ghost use Rattle.ldm_actions.specs.Programs.{Executes, StartsProgram};
ghost use Rattle.ldm_actions.specs.World.{command_of};

use ldm_outside::{ChildNo, Failed, Launcher};
use std::alloc::{AllocError, Global};
use std::marker::Model;

/// A program and what it is told: at least one word, of which the first names the program. Contracts see each word as
/// its bytes.
#[derive(Drop)]
pub struct Program {
    words: Vec<String>,
}

impl Model for Program {
    ghost use Rattle.std.specs.Prelude.{List, ℕ, ◌<◌, length};
    ghost use Rattle.ldm_outside.specs.Launcher.{spelled};

    ghost Value = { List (List ℕ) };

    ghost view = { λ s. spelled s.words.items };

    ghost invariant = { λ s. 0 < length s.words.items };
}

impl Program {
    /// The program that the first word names, with the words behind it.
    pub fn new(words: Vec<String>) -> Program
        requires { 0 < vec_len words }
        ensures { result ≡ spelled words.items }
    {
        Program { words }
    }

    /// Its command: its words, joined by one blank.
    pub(crate) fn command(&self, alloc: Global) -> Result<String, AllocError>
        ensures { IfOk result (λ command. string_bytes command ≡ command_of self.now) }
    {
        joined(alloc, &self.words)
    }

    // Starts it.
    pub(crate) fn start<L: Launcher>(
        &self,
        launcher: &mut L,
        piped: bool,
    ) -> Result<ChildNo, Failed>
        ensures { StartsProgram result self.now piped (L.tells launcher.old) (L.tells launcher.new) }
    {
        launcher.start(&self.words, piped)
    }

    /// Starts it without a pipe, and waits for it or lets it go.
    pub(crate) fn execute<L: Launcher>(&self, launcher: &mut L, wait: bool) -> Result<(), Failed>
        ensures { Executes result self.now wait (L.tells launcher.old) (L.tells launcher.new) }
    {
        let child = self.start(launcher, false)?;
        if wait {
            launcher.wait(child)?;
        } else {
            launcher.detach(child);
        }
        Ok(())
    }
}

// The words, joined by one blank.
fn joined(alloc: Global, words: &[String]) -> Result<String, AllocError>
    ensures { IfOk result (λ joined. string_bytes joined ≡ command_of (spelled words.now)) }
{
    let mut joined = String::new(alloc);
    for (i, word) in words.iter().enumerate() {
        if i > 0 {
            joined.push(' ')?;
        }
        joined.push_str(word.as_str())?;
    }
    Ok(joined)
}
