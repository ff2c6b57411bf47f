//! One cursor.
ghost use Rattle.std.specs.Prelude.{◌≡◌, ◌^◌, ◌<◌, IfSome};
ghost use Rattle.std.specs.Option.{option_map};

use ldm_types::{Actor, Feed};

/// Losses that a cursor was not told yet.
#[derive(Clone, Copy)]
pub struct Untold {
    pub count: u64,
    pub least: u64,
    pub greatest: u64,
}

impl Untold {
    ghost use Rattle.ldm_cursor.specs.Kept.{losses_of};
    ghost use Rattle.ldm_cursor.specs.Places.{with_one_more};

    /// The losses so far and the one of that number.
    fn with(untold: Option<Untold>, n: u64) -> Untold
        requires { IfSome untold (λ losses. losses.count < 2 ^ 63) }
        ensures { losses_of result ≡ with_one_more n (option_map losses_of untold) }
    {
        match untold {
            None => Untold {
                count: 1,
                least: n,
                greatest: n,
            },
            Some(losses) => Untold {
                count: losses.count + 1,
                least: losses.least.min(n),
                greatest: losses.greatest.max(n),
            },
        }
    }
}

/// Where a reader is.
#[derive(Clone, Copy)]
pub struct Cursor {
    pub actor: Actor,
    pub feed: Feed,
    pub position: u64,
    pub held: Option<u64>,
    pub untold: Option<Untold>,
    pub given: u64,
    pub lost: u64,
}

impl Cursor {
    ghost use Rattle.ldm_cursor.specs.Kept.{kept_of};
    ghost use Rattle.ldm_cursor.specs.Places.{HasCountsBelow, after_hold, after_loss, after_release};
    ghost use Rattle.ldm_cursor.specs.Places.{after_tell, new_cursor, numbers_of};

    /// A cursor that was given nothing and lost nothing.
    pub fn new(actor: Actor, feed: Feed, position: u64) -> Cursor
        ensures { kept_of result ≡ new_cursor actor feed.0 position }
    {
        Cursor {
            actor,
            feed,
            position,
            held: None,
            untold: None,
            given: 0,
            lost: 0,
        }
    }

    /// Counts the loss of the product of that number and feed, if it was still to come.
    pub fn lose(&mut self, n: u64, feed: Feed)
        requires { HasCountsBelow (2 ^ 63) (kept_of self.old) }
        ensures { kept_of self.new ≡ after_loss n feed.0 (kept_of self.old) }
    {
        if self.position <= n && self.feed.meets(feed) {
            self.untold = Some(Untold::with(self.untold, n));
            self.lost += 1;
        }
    }

    /// Takes the product of that number, and goes on behind it.
    pub fn hold(&mut self, n: u64)
        requires given { self.old.given < 2 ^ 63 }
        requires number { n < 2 ^ 63 }
        ensures { kept_of self.new ≡ after_hold n (kept_of self.old) }
    {
        self.held = Some(n);
        self.position = n + 1;
        self.given += 1;
    }

    /// Ends the hold, and answers the number of the product that was held.
    pub fn let_go(&mut self) -> Option<u64>
        ensures value { result ≡ self.old.held }
        ensures released { kept_of self.new ≡ after_release (kept_of self.old) }
    {
        self.held.take()
    }

    /// Forgets the losses that were not told yet, and answers how many they are and their least and greatest number.
    pub fn tell(&mut self) -> Option<(u64, u64, u64)>
        ensures value { result ≡ option_map numbers_of (kept_of self.old).untold }
        ensures told { kept_of self.new ≡ after_tell (kept_of self.old) }
    {
        let untold = self.untold.take()?;
        Some((untold.count, untold.least, untold.greatest))
    }
}
