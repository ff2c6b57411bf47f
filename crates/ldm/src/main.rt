//! `ldm`: a node that relays data products, and its tools.
//!
//! [`run_ldm`] does what the words of the program ask for, and its contract says how that ends. Here are only the real
//! world, and the words.
#![tactic(auto)]

use ldm_adapters::{
    RealClock, RealDisk, RealLauncher, RealNet, RealSink, RealSource, RealStore, StandardStreams,
};
use ldm_commands::{World, run_ldm};
use ldm_status::{Status, Streams};
use std::env;
use std::io::{self, ErrorKind};
use std::process::ExitCode;
use std::random::RandomSource;

// The words behind the program's name.
fn words(rt: &HostRuntime) -> io::Result<Vec<String>> {
    let mut args = env::args(rt)?;
    args.next();
    Ok(args.collect(rt.alloc())?)
}

// A number that no stranger knows. Where the system has none to give, it is 0.
fn secret(rt: &HostRuntime) -> u64 {
    let mut bytes = [0; 8];
    match rt.fill_bytes(&mut bytes) {
        Ok(()) => u64::from_le_bytes(bytes),
        Err(_) => 0,
    }
}

fn main(rt: HostRuntime) -> ExitCode {
    // before anything is opened, and up to the end
    let _streams = StandardStreams::hold(rt);
    let mut world = World {
        streams: Streams {
            source: RealSource::new(rt.stdin()),
            sink: RealSink::new(rt.alloc(), rt.stdout()),
            log: RealSink::new(rt.alloc(), rt.stderr()),
        },
        clock: RealClock::new(rt),
        store: RealStore::new(rt),
        launcher: RealLauncher::new(rt),
        net: RealNet::new(rt),
        disk: RealDisk::new(rt),
        secret: secret(&rt),
    };
    let code = match words(&rt) {
        Ok(words) => run_ldm(&rt, rt.alloc(), &words, &mut world),
        Err(error) if error.kind() == ErrorKind::OutOfMemory => {
            Status::NoMemory.report(&mut world.streams.log)
        }
        // a word that is not text is no form of a command
        Err(_) => Status::Usage.report(&mut world.streams.log),
    };
    ExitCode::from(code)
}
