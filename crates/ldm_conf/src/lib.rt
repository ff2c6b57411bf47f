//! ldmd.conf: who may be fed what, who may push what, what to ask for, what to start, and which files to read besides.
#![tactic(auto)]

mod address;
mod addresses;
mod command;
mod conf;
mod directive;
mod fault;
mod keyword;
mod limits;
mod lines;
mod parse;
mod reader;
mod request;
mod transfer;
mod words;

pub use address::Address;
pub use addresses::{read_address, read_port};
pub use command::Command;
pub use conf::Conf;
pub use fault::{ConfFault, ConfKind};
pub use limits::{
    ALTERNATE_MAX_HEREIS, DEEPEST_INCLUDE, DEFAULT_PORT, LONGEST_HOST_NAME, MOST_FILES,
    PRIMARY_MAX_HEREIS,
};
pub use reader::{ConfLine, read_conf, read_conf_line};
pub use request::Request;
pub use transfer::Transfer;
