//! The examples of the README files, as callers that are proved: a module for each crate.
//!
//! Each module is the text of the example in its crate's README, which `tests/readme_examples` compares.
#![tactic(auto)]

pub mod adapters;
pub mod book;
pub mod chain;
pub mod check;
pub mod class;
pub mod command_files;
pub mod commands;
pub mod conf;
pub mod crowd;
pub mod cursor;
pub mod exercise;
pub mod feedtype;
pub mod freelist;
pub mod gather;
pub mod node_command;
pub mod outside;
pub mod pattern;
pub mod play;
pub mod pqact_command;
pub mod pqact_conf;
pub mod pqact_match;
pub mod regions;
pub mod relay;
pub mod rpc;
pub mod script;
pub mod shared;
pub mod sigindex;
pub mod signature;
pub mod stats;
pub mod status;
pub mod text;
pub mod timeindex;
pub mod types;
pub mod watch;
pub mod words;
pub mod xdr;
