//! How the products come that a REQUEST line asks for.
ghost use Rattle.std.specs.Prelude.{◌≡◌};
ghost use Rattle.ldm_conf.specs.Transfers.{max_hereis, transfer_name, transfer_of};

use crate::keyword::is_name;
use crate::limits::{ALTERNATE_MAX_HEREIS, PRIMARY_MAX_HEREIS};

/// How the products come that a REQUEST line asks for.
#[derive(Clone, Copy, Debug, PartialEq, Eq)]
pub enum Transfer {
    /// Large products come whole too. For the host that is to be the first with each product.
    Primary,
    /// Large products are announced first, and come where they are not queued yet. For every other host, and what a
    /// line without a word asks for.
    Alternate,
}

impl Transfer {
    const ALL: [Transfer; 2] = [Transfer::Primary, Transfer::Alternate];

    /// Its name, in upper case.
    pub fn name(self) -> &'static [u8]
        ensures { result.now ≡ transfer_name self }
    {
        match self {
            Transfer::Primary => b"PRIMARY",
            Transfer::Alternate => b"ALTERNATE",
        }
    }

    /// The transfer of that name, in letters of either case.
    #[tactic(auto, unfolding(crate::specs::Transfers::transfer_of))]
    pub fn of_name(word: &[u8]) -> Option<Transfer>
        ensures { result ≡ transfer_of word.now }
    {
        Transfer::ALL
            .iter()
            .copied()
            .find(|transfer| is_name(transfer.name(), word))
    }

    /// The size of the largest product that is asked for whole, in one message. A larger one is announced first, and
    /// comes in blocks.
    pub fn max_hereis(self) -> u32
        ensures { result ≡ max_hereis self }
    {
        match self {
            Transfer::Primary => PRIMARY_MAX_HEREIS,
            Transfer::Alternate => ALTERNATE_MAX_HEREIS,
        }
    }
}
