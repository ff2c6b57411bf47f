//! The example of ldm_node_command.

use ldm_disk::Desks;
use ldm_node::NodeOptions;
use ldm_node_command::{NodeSetup, run_node};
use ldm_outside::{Dial, Door, Launcher, Reasons, Sink, Store};
use std::alloc::Global;
use std::sync::Wait;
use std::thread::Threads;

/// Runs a node with one worker that lets peers in, until its door is closed.
pub fn small_node<
    H: Threads + Wait + Sync,
    K: Sink,
    E: Sink,
    F: Store + Reasons,
    L: Launcher + Reasons,
    N: Desks + Reasons,
>(
    rt: &H,
    alloc: Global,
    sink: &mut K,
    log: &mut E,
    store: &mut F,
    launcher: &mut L,
    net: &mut N,
) -> u8
where
    <N::StationDoor as Door>::Link: Send,
    <N::StationDial as Dial>::Link: Send,
{
    let setup = NodeSetup {
        arena: 67_108_864,
        slots: 16_384,
        options: NodeOptions {
            port: 388,
            workers: 1,
            sessions: u32::MAX,
            idles: None,
        },
        key: 0,
        conf: "ldmd.conf",
        journal: None,
        ends_with_input: false,
    };
    run_node(rt, alloc, &setup, sink, log, store, launcher, net)
}
