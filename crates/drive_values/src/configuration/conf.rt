//! ldmd.conf, and the files that it includes.

use crate::configuration::Kept;
use crate::configuration::classes::tell_class;
use ldm_conf::{Command, Conf, ConfFault, Request, read_conf};
use ldm_drive::{Trial, numbers, push, tell_fault, text_or_bytes};
use ldm_outside_memory::{MemFile, MemStore};
use std::alloc::Global;

/// Sets what the next texts find: a file, the numbers of the store's calls that fail, or neither.
pub fn prepare(name: &str, kept: &mut Kept, trial: &mut Trial) {
    match name {
        "forget" => {
            kept.files = Vec::new(trial.alloc());
            kept.failing = Vec::new(trial.alloc());
        }
        "failing" => kept.failing = numbers(trial),
        _ => add_file(name == "file", kept, trial),
    }
    trial.tell("done");
}

fn add_file(is_text: bool, kept: &mut Kept, trial: &mut Trial) {
    let path = trial.word_text();
    let bytes = text_or_bytes(trial, is_text);
    let Some(path) = path_of(trial.alloc(), &path) else {
        return trial.refuse("no path");
    };
    push(trial, &mut kept.files, MemFile::new(path, bytes));
}

fn path_of(alloc: Global, bytes: &[u8]) -> Option<String> {
    let path = str::from_utf8(bytes).ok()?;
    String::from_str(alloc, path).ok()
}

/// Reads a text, and keeps it and its rules of access. Tells its requests and commands, or the fault.
pub fn read(name: &str, kept: &mut Kept, trial: &mut Trial) {
    kept.text = text_or_bytes(trial, name == "conf");
    let Some(mut store) = store_of(trial.alloc(), kept) else {
        return trial.lack_memory();
    };
    match read_conf(trial.alloc(), &kept.text, &mut store) {
        Ok(conf) => {
            tell_conf(trial, &conf);
            kept.policy = conf.policy;
        }
        Err(fault) => tell_fault_of(trial, fault),
    }
}

fn tell_fault_of(trial: &mut Trial, fault: ConfFault) {
    trial.tell("file ");
    trial.tell_value(&fault.file);
    trial.tell(" ");
    tell_fault(trial, fault.line, fault.kind.number(), &fault.kind);
}

/// The store of the files that were kept, with the calls that are to fail.
pub fn store_of(alloc: Global, kept: &Kept) -> Option<MemStore> {
    let mut files = Vec::new(alloc);
    for file in kept.files.as_slice() {
        files.push(copy_of(alloc, file)?).ok()?;
    }
    let failing = kept.failing.to_vec(alloc).ok()?;
    Some(MemStore::new(alloc, files, failing))
}

fn copy_of(alloc: Global, file: &MemFile) -> Option<MemFile> {
    let path = String::from_str(alloc, file.path()).ok()?;
    let bytes = file.bytes().to_vec(alloc).ok()?;
    Some(MemFile::new(path, bytes))
}

fn tell_conf(trial: &mut Trial, conf: &Conf) {
    trial.tell("read");
    for request in conf.requests.as_slice() {
        tell_request(trial, request);
    }
    for command in conf.commands.as_slice() {
        tell_command(trial, command);
    }
}

fn tell_request(trial: &mut Trial, request: &Request) {
    trial.tell("; request ");
    tell_class(trial, request.class.spec());
    trial.tell(" of ");
    trial.tell_shown(request.host.as_slice());
    trial.tell(" at ");
    trial.tell_value(&request.port);
    trial.tell(" ");
    trial.tell_text(request.transfer.name());
    trial.tell(" ");
    trial.tell_value(&request.transfer.max_hereis());
}

fn tell_command(trial: &mut Trial, command: &Command) {
    trial.tell("; command");
    for word in command.words.as_slice() {
        trial.tell(" ");
        trial.tell_shown(word.as_bytes());
    }
}
