//! Metadata as bytes.

use crate::values::{info_of, tell_info};
use ldm_drive::Trial;
use ldm_xdr::{info_len, read_info, write_info};

/// `write_info FIELDS`: how many bytes these metadata take, how many are written into a buffer of bytes 7, and these
/// with the byte behind them.
pub fn write_metadata(trial: &mut Trial) {
    let Some(info) = info_of(trial) else {
        return;
    };
    let mut into = [7; 400];
    let len = info_len(&info);
    if len >= 400 {
        return trial.refuse("long metadata");
    }
    let written = write_info(&info, &mut into);
    trial.tell_number(len as u64);
    trial.tell(" ");
    trial.tell_number(written as u64);
    trial.tell(" ");
    trial.tell_digits(into.get(..written.saturating_add(1)).unwrap_or(&[]));
}

/// `read_info BYTES`: the metadata at the front of the bytes, and how many bytes they take; or the fault.
pub fn read_metadata(trial: &mut Trial) {
    let bytes = trial.bytes();
    match read_info(&bytes) {
        Ok((info, taken)) => {
            trial.tell_number(taken as u64);
            trial.tell(": ");
            tell_info(trial, &info);
        }
        Err(fault) => trial.tell_debug(&fault),
    }
}
