//! The example of ldm_pqact_command.

ghost use Rattle.std.specs.Prelude.{◌≡◌, false};

use ldm_class::Class;
use ldm_outside::{Clock, Dial, Launcher, Reasons, Sink, Store};
use ldm_pqact_command::pqact;
use std::alloc::Global;
use std::sync::Wait;

/// Acts on the first product of a class that the node of this host has, by the entries of etc/pqact.conf.
pub fn act_on_one<
    H: Wait,
    N: Dial + Reasons,
    F: Store + Reasons,
    L: Launcher + Reasons,
    E: Sink,
    C: Clock,
>(
    rt: &H,
    alloc: Global,
    net: &mut N,
    store: &mut F,
    launcher: &mut L,
    log: &mut E,
    clock: &mut C,
    class: &Class,
) -> u8
    requires { (N.tells net.old).links.out ≡ false }
{
    pqact(
        rt,
        alloc,
        net,
        store,
        launcher,
        log,
        clock,
        b"localhost",
        388,
        class,
        Some(1),
        "etc/pqact.conf",
    )
}
