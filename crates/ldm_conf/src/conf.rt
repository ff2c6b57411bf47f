//! A configuration, and what lines add to it.
ghost use Rattle.std.specs.Prelude.{◌≡◌, ◌≤◌, IfOk};
ghost use Rattle.ldm_types.specs.declared.limits.TheConstants.{GREATEST_INSTANT};
ghost use Rattle.ldm_conf.specs.Confs.{all_times, conf_view, no_conf};
ghost use Rattle.ldm_conf.specs.Adding.{AddsDirective};

use crate::address::Address;
use crate::command::{Command, split_command};
use crate::directive::Directive;
use crate::fault::ConfKind;
use crate::request::Request;
use arrayvec::ArrayVec;
use ldm_class::{Class, Policy};
use ldm_types::{ClassSpec, Feed, LONGEST_PATTERN, Micros, OutOfMemory, Spec};
use std::alloc::Global;

/// What a node does, as its ldmd.conf says. Each list is in the order of the lines.
#[derive(Drop)]
pub struct Conf {
    /// Who may be fed what, and who may push what.
    pub policy: Policy,
    /// What to ask for.
    pub requests: Vec<Request>,
    /// The programs to start.
    pub commands: Vec<Command>,
}

impl Conf {
    // A configuration without lines.
    pub(crate) fn create(alloc: Global) -> Result<Conf, OutOfMemory>
        ensures { IfOk result (λ conf. conf_view conf ≡ no_conf) }
    {
        Ok(Conf {
            policy: Policy::create(alloc)?,
            requests: Vec::new(alloc),
            commands: Vec::new(alloc),
        })
    }

    // Adds a line. After a fault the configuration is as before.
    pub(crate) fn add(&mut self, alloc: Global, directive: Directive<'_>) -> Result<(), ConfKind>
        ensures { AddsDirective result directive.entry (conf_view self.old) (conf_view self.new) }
    {
        match directive {
            Directive::Allow {
                feed,
                host,
                ok,
                not,
            } => self.policy.add_allow(alloc, feed, host, ok, not)?,
            Directive::Accept {
                feed,
                pattern,
                host,
            } => self.policy.add_accept(alloc, feed, pattern, host)?,
            Directive::Request {
                feed,
                pattern,
                address,
                transfer,
            } => {
                self.requests.reserve(1)?;
                let class = Class::build(alloc, &all_times(feed, pattern))?;
                let Address { host, port } = address;
                self.requests.push(Request {
                    class,
                    host,
                    port,
                    transfer,
                })?;
            }
            Directive::Exec { command } => {
                self.commands.reserve(1)?;
                let command = split_command(alloc, command)?;
                self.commands.push(command)?;
            }
        }
        Ok(())
    }
}

// The class of the products of all times that one specification wants.
fn all_times(feed: Feed, pattern: ArrayVec<u8, LONGEST_PATTERN>) -> ClassSpec
    ensures { result ≡ all_times feed.0 pattern.items }
{
    let mut specs = ArrayVec::new();
    specs.push(Spec { feed, pattern });
    ClassSpec {
        from: instant(0),
        to: instant(Micros::MAX),
        specs,
    }
}

fn instant(n: u64) -> Micros
    requires { n ≤ GREATEST_INSTANT }
    ensures { result ≡ n }
{
    match Micros::new(n) {
        Some(instant) => instant,
        None => unreachable!(),
    }
}
