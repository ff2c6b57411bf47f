//! Doors in memory, which let in the peers of a list.
ghost use Rattle.std.specs.Prelude.{◌≡◌, true, false, [], ◌∷◌, ◌++◌, map, MatchOption};
ghost use Rattle.ldm_outside_memory.specs.MemLending.{lent};

use crate::calls::Calls;
use crate::mem_lending::Lending;
use crate::mem_link::{LinkScript, MemLink};
use arrayvec::ArrayVec;
use ldm_outside::{Came, Door, LONGEST_HOST, Link};
use std::alloc::Global;
use std::collections::VecDeque;
use std::marker::Model;

/// A peer that comes to a door in memory.
#[derive(Drop)]
pub struct MemPeer {
    /// Its host.
    pub host: ArrayVec<u8, LONGEST_HOST>,
    /// What the link to it does.
    pub script: LinkScript,
}

/// A door that lets in the peers of a list, one after another, and then is closed. Its calls of `accept` are numbered
/// from 1, and those of the numbers in a list fail.
///
/// It keeps which hosts came and the links that were given back. Without memory for these a call fails too.
#[derive(Drop)]
pub struct MemDoor {
    waiting: VecDeque<MemPeer>,
    hosts: Vec<Vec<u8>>,
    lending: Lending,
    calls: Calls,
    peers: u64,
    closings: u64,
}

impl Model for MemDoor {
    ghost use Rattle.std.specs.Prelude.{map};
    ghost use Rattle.ldm_outside_memory.specs.MemDoor.{DoorState};

    ghost Value = { DoorState };

    ghost view = { λ s. record {
      waiting = s.waiting.items;
      hosts = map (λ host. host.items) s.hosts.items;
      faults = s.calls.faults;
      peers = s.peers;
      closings = s.closings;
      links = s.lending;
      plan = s.calls.plan;
    } };
}

impl MemDoor {
    ghost use Rattle.ldm_outside_memory.specs.MemDoor.{first_door};

    /// A door that lets in these peers, and whose calls of `accept` of the given numbers fail. The numbers are in any
    /// order.
    pub fn new(alloc: Global, peers: Vec<MemPeer>, failing: Vec<u64>) -> MemDoor
        ensures { result ≡ first_door peers.items failing.items }
    {
        MemDoor {
            waiting: VecDeque::from(peers),
            hosts: Vec::new(alloc),
            lending: Lending::new(alloc),
            calls: Calls::new(failing),
            peers: 0,
            closings: 0,
        }
    }

    /// The hosts that came, in order.
    pub fn hosts(&self) -> &[Vec<u8>]
        ensures { map (λ host. host.items) result.now ≡ self.now.hosts }
    {
        self.hosts.as_slice()
    }

    /// The links that were given back, in order.
    pub fn back(&self) -> &[MemLink]
        ensures { result.now ≡ self.now.links.back }
    {
        self.lending.back()
    }

    /// How often it failed.
    pub fn faults(&self) -> u64
        ensures { result ≡ self.now.faults }
    {
        self.calls.faults()
    }

    /// How many peers came.
    pub fn peers(&self) -> u64
        ensures { result ≡ self.now.peers }
    {
        self.peers
    }

    /// How often it answered that it is closed.
    pub fn closings(&self) -> u64
        ensures { result ≡ self.now.closings }
    {
        self.closings
    }

    /// How many links were given back that had ended.
    pub fn ended(&self) -> u64
        ensures { result ≡ self.now.links.ended }
    {
        self.lending.ended()
    }

    /// How many links were given back that had failed.
    pub fn failed(&self) -> u64
        ensures { result ≡ self.now.links.failed }
    {
        self.lending.failed()
    }
}

impl Door for MemDoor {
    ghost use Rattle.ldm_outside.specs.Door.{AcceptGives, DoorTakesBack};
    ghost use Rattle.ldm_outside_memory.specs.MemLink.{told_by_link};
    ghost use Rattle.ldm_outside_memory.specs.MemDoor.{told_by_door, AcceptsAsPlanned};
    ghost use Rattle.ldm_outside_memory.specs.MemLending.{after_back};

    type Link = MemLink;

    ghost tells = { told_by_door };

    fn accept(&mut self) -> Came<MemLink>
        requires { self.old.links.out ≡ false }
        ensures came { AcceptGives told_by_link result (told_by_door self.old) (told_by_door self.new) }
        ensures planned { AcceptsAsPlanned result self.old self.new }
    {
        if self.calls.begin().is_err() {
            return Came::Failed;
        }
        if self.waiting.is_empty() {
            self.closings = self.closings.saturating_add(1);
            return Came::Closed;
        }
        match next_peer(&mut self.waiting, &mut self.hosts, &mut self.lending) {
            Some(peer) => {
                let MemPeer { host, script } = peer;
                self.peers = self.peers.saturating_add(1);
                let link = MemLink::new(*self.hosts.allocator(), script);
                Came::Peer { host, link }
            }
            None => {
                self.calls.fail();
                Came::Failed
            }
        }
    }

    fn give_back(&mut self, link: MemLink)
        requires { self.old.links.out ≡ true }
        ensures given_back { DoorTakesBack (told_by_link link) (told_by_door self.old) (told_by_door self.new) }
        ensures planned { self.new ≡ record self.old { links = after_back link self.old.links } }
    {
        self.lending.take_back(link);
    }
}

// Takes the next peer, whose link is out from now on, and keeps its host. Without memory everything stays as it was.
fn next_peer(
    waiting: &mut VecDeque<MemPeer>,
    hosts: &mut Vec<Vec<u8>>,
    lending: &mut Lending,
) -> Option<MemPeer>
    requires { lending.old.out ≡ false }
    ensures peer { MatchOption result (waiting.new.items ≡ waiting.old.items)
        (λ peer. waiting.old.items ≡ peer ∷ waiting.new.items) }
    ensures host { MatchOption result (hosts.new.items ≡ hosts.old.items)
        (λ peer. map (λ h. h.items) hosts.new.items ≡ map (λ h. h.items) hosts.old.items ++ peer.host.items ∷ []) }
    ensures out { MatchOption result (lending.new ≡ lending.old) (λ _. lending.new ≡ lent lending.old) }
{
    hosts.reserve(1).ok()?;
    let host = waiting
        .front()?
        .host
        .as_slice()
        .to_vec(*hosts.allocator())
        .ok()?;
    let peer = lending.lend_next(waiting)?;
    hosts.push_reserved(host);
    Some(peer)
}
