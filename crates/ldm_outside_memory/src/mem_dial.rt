//! Dials in memory, which connect the links of a list.
ghost use Rattle.std.specs.Prelude.{◌≡◌, true, false, [], ◌∷◌, ◌++◌, map, OnOk, OnErr};
ghost use Rattle.ldm_outside_memory.specs.MemDial.{asked_by};

use crate::calls::Calls;
use crate::mem_lending::Lending;
use crate::mem_link::{LinkScript, MemLink};
use ldm_outside::{Dial, Dialled, Link, Reasons};
use std::alloc::{AllocError, Global};
use std::collections::VecDeque;
use std::marker::Model;

/// Whom a dial was asked for.
#[derive(Drop)]
pub struct DialCall {
    /// The host.
    pub host: Vec<u8>,
    /// The port.
    pub port: u16,
}

/// A dial that connects the links of a list, one after another; behind the last each call fails. Its calls of
/// `connect` are numbered from 1, and those of the numbers in a list fail and connect none.
///
/// It keeps whom it was asked for and the links that were given back. Without memory for these a call fails too.
#[derive(Drop)]
pub struct MemDial {
    scripts: VecDeque<LinkScript>,
    asked: Vec<DialCall>,
    lost: bool,
    lending: Lending,
    calls: Calls,
}

impl Model for MemDial {
    ghost use Rattle.std.specs.Prelude.{map};
    ghost use Rattle.ldm_outside_memory.specs.MemDial.{DialState, asked_by};

    ghost Value = { DialState };

    ghost view = { λ s. record {
      scripts = s.scripts.items;
      asked = map asked_by s.asked.items;
      lost = s.lost;
      faults = s.calls.faults;
      links = s.lending;
      plan = s.calls.plan;
    } };
}

impl MemDial {
    ghost use Rattle.ldm_outside.specs.Count.{Rose};
    ghost use Rattle.ldm_outside_memory.specs.Memory.{next_fails, after_call};
    ghost use Rattle.ldm_outside.specs.Count.{raised};
    ghost use Rattle.ldm_outside_memory.specs.MemDial.{first_dial};

    /// A dial that connects links which do as these scripts say, and whose calls of `connect` of the given numbers
    /// fail. The numbers are in any order.
    pub fn new(alloc: Global, scripts: Vec<LinkScript>, failing: Vec<u64>) -> MemDial
        ensures { result ≡ first_dial scripts.items failing.items }
    {
        MemDial {
            scripts: VecDeque::from(scripts),
            asked: Vec::new(alloc),
            lost: false,
            lending: Lending::new(alloc),
            calls: Calls::new(failing),
        }
    }

    /// Counts a call, and says whether it is to fail.
    pub(crate) fn count_call(&mut self) -> bool
        ensures planned { result ≡ next_fails self.old.plan }
        ensures counted { self.new ≡ record self.old { plan = after_call self.old.plan } }
    {
        self.calls.next()
    }

    /// Counts a fault.
    pub(crate) fn count_fault(&mut self)
        ensures counted { self.new ≡ record self.old { faults = raised self.old.faults } }
        ensures rose { Rose self.old.faults self.new.faults }
    {
        self.calls.fail();
    }

    /// Whom it was asked for, in order. One that it had no memory to keep is not there.
    pub fn asked(&self) -> &[DialCall]
        ensures { map asked_by result.now ≡ self.now.asked }
    {
        self.asked.as_slice()
    }

    /// The links that were given back, in order.
    pub fn back(&self) -> &[MemLink]
        ensures { result.now ≡ self.now.links.back }
    {
        self.lending.back()
    }

    /// How often it failed.
    pub fn faults(&self) -> u64
        ensures { result ≡ self.now.faults }
    {
        self.calls.faults()
    }

    /// How many links were given back that had ended.
    pub fn ended(&self) -> u64
        ensures { result ≡ self.now.links.ended }
    {
        self.lending.ended()
    }

    /// How many links were given back that had failed.
    pub fn failed(&self) -> u64
        ensures { result ≡ self.now.links.failed }
    {
        self.lending.failed()
    }
}

impl Dial for MemDial {
    ghost use Rattle.ldm_outside.specs.Dial.{ConnectGives, DialTakesBack};
    ghost use Rattle.ldm_outside_memory.specs.MemLink.{told_by_link};
    ghost use Rattle.ldm_outside_memory.specs.MemDial.{told_by_dial, ConnectsAsPlanned};
    ghost use Rattle.ldm_outside_memory.specs.MemLending.{after_back};

    type Link = MemLink;

    ghost tells = { told_by_dial };

    fn connect(&mut self, host: &[u8], port: u16) -> Dialled<MemLink>
        requires { self.old.links.out ≡ false }
        ensures dialled { ConnectGives told_by_link result (record { host = host.now; port = port })
            (told_by_dial self.old) (told_by_dial self.new) }
        ensures planned { ConnectsAsPlanned result (record { host = host.now; port = port }) self.old self.new }
    {
        let fails = self.calls.next();
        if keep_asked(&mut self.asked, host, port).is_err() {
            self.lost = true;
            self.calls.fail();
            return Dialled::Failed;
        }
        if fails {
            self.calls.fail();
            return Dialled::Failed;
        }
        match self.lending.lend_next(&mut self.scripts) {
            Some(script) => Dialled::Linked(MemLink::new(*self.asked.allocator(), script)),
            None => {
                self.calls.fail();
                Dialled::Failed
            }
        }
    }

    fn give_back(&mut self, link: MemLink)
        requires { self.old.links.out ≡ true }
        ensures given_back { DialTakesBack (told_by_link link) (told_by_dial self.old) (told_by_dial self.new) }
        ensures planned { self.new ≡ record self.old { links = after_back link self.old.links } }
    {
        self.lending.take_back(link);
    }
}

// Keeps whom a call was for, behind the others. Without memory they stay as they were.
fn keep_asked(asked: &mut Vec<DialCall>, host: &[u8], port: u16) -> Result<(), AllocError>
    ensures ok { OnOk result
        (map asked_by asked.new.items ≡ map asked_by asked.old.items ++ record { host = host.now; port = port } ∷ []) }
    ensures err { OnErr result (asked.new.items ≡ asked.old.items) }
{
    asked.reserve(1)?;
    let host = host.to_vec(*asked.allocator())?;
    asked.push_reserved(DialCall { host, port });
    Ok(())
}

impl Reasons for MemDial {
    fn reason(&self) -> &[u8] {
        b"".as_slice()
    }
}
