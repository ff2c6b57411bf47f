//! The outside of the program as it really is: the system's streams, files, programs, clock and sockets, as the traits
//! of `ldm_outside` and `ldm_disk`.
//!
//! Each form does what its trait says by a call or two of the system, counts an error of the system as a fault, and
//! makes a call again where a signal interrupted it. None tells what it holds, has left or was sent: what the system
//! does with bytes is trusted.
#![tactic(auto)]

mod beats;
mod bell;
mod children;
mod clock;
mod dials;
mod disk;
mod doors;
mod ending;
mod files;
mod gate;
mod keeper;
mod lending;
mod limited;
mod links;
mod lobby;
mod net;
mod pace;
mod processes;
mod resting;
mod seats;
mod standard;
mod station_log;
mod streams;
mod telling;
mod waiting;

pub use children::RealLauncher;
pub use clock::RealClock;
pub use dials::{RealDial, SESSION_SECONDS};
pub use disk::RealDisk;
pub use doors::RealDoor;
pub use ending::{LOOK_MILLISECONDS, STEP_MILLISECONDS};
pub use files::RealStore;
pub use gate::RealGate;
pub use keeper::NO_ROOM_SECONDS;
pub use lending::RealLending;
pub use limited::PEER_MILLISECONDS;
pub use links::{
    CONNECT_SECONDS, GRACE_SECONDS, REPLY_SECONDS, REQUEST_SECONDS, RealLink, SILENT_SECONDS,
    STALLED_SECONDS, Timeouts,
};
pub use net::{RealDesk, RealNet, RealStation};
pub use pace::SLOWEST_RATE;
pub use resting::{
    BUSY_MILLISECONDS, CALM_MILLISECONDS, FIRST_BUSY_MICROSECONDS, IDLE_MILLISECONDS,
    LONGEST_REST_SECONDS, QUIET_MILLISECONDS,
};
pub use standard::StandardStreams;
pub use station_log::StationLog;
pub use streams::{MOST_GATHERED, RealSink, RealSource};
pub use waiting::{FIRST_BYTES_SECONDS, WAITING_MOST, WAITING_OF_ONE_ADDRESS};
