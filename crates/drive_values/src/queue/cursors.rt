//! The places of cursors, each call where it may be made.
use ldm_cursor::Cursors;
use ldm_drive::Trial;
use ldm_types::{Actor, CursorNo, Feed, OutOfMemory};
use std::alloc::Global;
use std::marker::Model;

const MOST: u64 = 1000;

/// Cursors, and a number that no count of theirs has come to.
#[derive(Drop)]
pub struct Seats {
    cursors: Cursors,
    limit: u64,
}

impl Model for Seats {
    ghost use Rattle.std.specs.Prelude.{ℕ, ◌<◌};
    ghost use Rattle.ldm_cursor.specs.Places.{CountsBelow};

    ghost Value = { ℕ };

    ghost view = { λ seats. seats.limit };

    ghost invariant = { λ seats. (0 < seats.limit) × CountsBelow seats.limit seats.cursors };
}

// The next two words: an actor, and a cursor place.
fn owner(trial: &mut Trial) -> Option<(Actor, CursorNo)> {
    let actor = Actor::new(trial.small())?;
    let k = CursorNo::new(trial.small())?;
    Some((actor, k))
}

impl Seats {
    pub fn create(alloc: Global) -> Result<Seats, OutOfMemory> {
        let cursors = Cursors::create(alloc)?;
        Ok(Seats { cursors, limit: 1 })
    }

    /// A case: `new`, `seat ACTOR FEED POSITION`, `lose N FEED`, and with `ACTOR K` `seen`, `hold` and a number,
    /// `let_go`, `tell`, `to_end` and a number, `leave`.
    pub fn answer(&mut self, trial: &mut Trial) {
        match trial.word() {
            "new" => self.begin(trial),
            "seat" => self.take_seat(trial),
            "lose" => {
                let n = trial.number();
                self.lose(n, Feed(trial.small()));
                trial.tell("ok");
            }
            word => match owner(trial) {
                Some((actor, k)) => self.call(word, actor, k, trial),
                None => trial.refuse("no actor, or no place"),
            },
        }
    }

    fn begin(&mut self, trial: &mut Trial) {
        match Seats::create(trial.alloc()) {
            Ok(seats) => {
                *self = seats;
                trial.tell("ok");
            }
            Err(_) => trial.lack_memory(),
        }
    }

    fn take_seat(&mut self, trial: &mut Trial) {
        let Some(actor) = Actor::new(trial.small()) else {
            return trial.refuse("no actor");
        };
        let (feed, position) = (Feed(trial.small()), trial.number());
        trial.tell_debug(&self.seat(actor, feed, position).map(CursorNo::get));
    }

    // A call on the place of an actor.
    fn call(&mut self, word: &str, actor: Actor, k: CursorNo, trial: &mut Trial) {
        match word {
            "seen" => self.seen(actor, k, trial),
            "hold" => {
                let held = self.hold(actor, k, trial.number());
                trial.tell_value(&held);
            }
            "let_go" => trial.tell_debug(&self.let_go(actor, k)),
            "tell" => trial.tell_debug(&self.tell(actor, k)),
            "to_end" => {
                self.to_end(actor, k, trial.number());
                trial.tell("ok");
            }
            "leave" => {
                self.leave(actor, k);
                trial.tell("ok");
            }
            _ => trial.refuse("no such word"),
        }
    }

    fn seat(&mut self, actor: Actor, feed: Feed, position: u64) -> Option<CursorNo> {
        self.cursors.seat(actor, feed, position)
    }

    fn lose(&mut self, n: u64, feed: Feed) {
        if self.limit < MOST && n < MOST {
            self.cursors.lose(n, feed);
            self.limit += 1;
        }
    }

    // The position, the feedtypes, what is held, and how many products were given and lost.
    fn seen(&self, actor: Actor, k: CursorNo, trial: &mut Trial) {
        if !self.cursors.owned(actor, k) {
            return trial.tell("None");
        }
        let (given, lost) = self.cursors.counts(k);
        trial.tell("at ");
        trial.tell_number(self.cursors.position(k));
        trial.tell(" of ");
        trial.tell_value(&self.cursors.feed(k).0);
        trial.tell(" holds ");
        trial.tell_debug(&self.cursors.held(k));
        trial.tell(" given ");
        trial.tell_value(&given);
        trial.tell(" lost ");
        trial.tell_value(&lost);
    }

    fn hold(&mut self, actor: Actor, k: CursorNo, n: u64) -> bool {
        if self.limit >= MOST || n >= MOST || !self.cursors.owned(actor, k) {
            return false;
        }
        if self.cursors.held(k).is_some() || self.cursors.position(k) > n {
            return false;
        }
        self.cursors.hold(k, n);
        self.limit += 1;
        true
    }

    fn let_go(&mut self, actor: Actor, k: CursorNo) -> Option<u64> {
        if self.cursors.owned(actor, k) {
            self.cursors.let_go(k)
        } else {
            None
        }
    }

    fn tell(&mut self, actor: Actor, k: CursorNo) -> Option<(u64, u64, u64)> {
        if self.cursors.owned(actor, k) {
            self.cursors.tell(k)
        } else {
            None
        }
    }

    fn to_end(&mut self, actor: Actor, k: CursorNo, at: u64) {
        if self.cursors.owned(actor, k) && self.cursors.position(k) <= at {
            self.cursors.to_end(k, at);
        }
    }

    fn leave(&mut self, actor: Actor, k: CursorNo) {
        if self.cursors.owned(actor, k) {
            self.cursors.leave(k);
        }
    }
}
