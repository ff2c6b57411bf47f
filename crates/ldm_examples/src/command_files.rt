//! The example of ldm_command_files.

use ldm_command_files::{status_of_conf, take_conf};
use ldm_outside::Store;
use ldm_status::Status;
use std::alloc::Global;

/// How many hosts the node of an ldmd.conf asks, or the status of a program that cannot say it.
pub fn count_requests<F: Store>(alloc: Global, store: &mut F, path: &str) -> Result<usize, Status> {
    match take_conf(alloc, store, path) {
        Ok(conf) => Ok(conf.requests.len()),
        Err(why) => Err(status_of_conf(why)),
    }
}
