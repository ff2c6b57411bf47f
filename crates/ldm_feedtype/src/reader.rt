//! Reading an expression part by part, with a bounded stack in place of recursion.
ghost use Rattle.std.specs.Prelude.{◌≡◌, ◌+◌, ◌^◌, ◌<◌, [], length, MatchResult};
ghost use Rattle.ldm_feedtype.specs.declared.reader.Stage.{Stage};
ghost use Rattle.ldm_feedtype.specs.FeedSets.{set_of, complement};
ghost use Rattle.ldm_feedtype.specs.Parts.{Word, Mark};
ghost use Rattle.ldm_feedtype.specs.Reading.{Wanted, Found, whole, step, finished};
ghost use Rattle.ldm_feedtype.specs.Kept.{joins_of, place_of, state_of, Comes};

use crate::fault::FeedFault;
use crate::words::word_value;
use arrayvec::ArrayVec;
use ldm_types::Feed;

/// The most parentheses that are open at once.
pub const MOST_OPEN: usize = 64;

/// How a term joins what stands left of it.
#[derive(Clone, Copy)]
pub enum Operator {
    Union,
    Meet,
    Without,
}

/// A place for a term: the term is complemented where `inverted`, and then joined to the left.
#[derive(Clone, Copy)]
pub struct Pending {
    pub left: u32,
    pub operator: Operator,
    pub inverted: bool,
}

impl Pending {
    // The place of a whole expression.
    const WHOLE: Pending = Pending {
        left: 0,
        operator: Operator::Union,
        inverted: false,
    };
}

impl Default for Pending {
    fn default() -> Pending {
        Pending::WHOLE
    }
}

/// What was read last.
#[derive(Clone, Copy)]
pub enum Stage {
    Wanted(Pending),
    Found(u32),
}

/// An expression that was read up to some part.
#[derive(Drop)]
pub struct Reader {
    // A place for each open parenthesis, the innermost last.
    outer: ArrayVec<Pending, MOST_OPEN>,
    stage: Stage,
}

// What is not in the set, within the 32 bits.
fn complement(set: u32) -> u32
    ensures { set_of result ≡ complement (set_of set) }
{
    !set
}

fn join(left: u32, operator: Operator, right: u32) -> u32
    ensures { set_of result ≡ joins_of operator (set_of left) (set_of right) }
{
    match operator {
        Operator::Union => left | right,
        Operator::Meet => left & right,
        Operator::Without => left & complement(right),
    }
}

impl Pending {
    fn take(self, term: u32) -> u32
        ensures { set_of result ≡ place_of self (set_of term) }
    {
        let term = if self.inverted {
            complement(term)
        } else {
            term
        };
        join(self.left, self.operator, term)
    }
}

impl Reader {
    /// A reader of an expression's beginning.
    pub fn new() -> Reader
        ensures { state_of result ≡ Wanted whole [] }
    {
        Reader {
            outer: ArrayVec::new(),
            stage: Stage::Wanted(Pending::WHOLE),
        }
    }

    /// The reader after a name or a number more, which begins at that place.
    pub fn take_word(&mut self, at: usize, word: &[u8]) -> Result<(), FeedFault>
        requires { at + length word.now < 2 ^ 64 }
        ensures { Comes result (step (Word at word.now) (state_of self.old)) self.new }
    {
        let Stage::Wanted(pending) = self.stage else {
            return Err(FeedFault::Syntax { at });
        };
        self.stage = Stage::Found(pending.take(word_value(at, word)?));
        Ok(())
    }

    /// The reader after another byte more.
    pub fn take_mark(&mut self, at: usize, byte: u8) -> Result<(), FeedFault>
        ensures { Comes result (step (Mark at byte) (state_of self.old)) self.new }
    {
        match self.stage {
            Stage::Wanted(pending) => self.take_front(at, byte, pending),
            Stage::Found(set) => self.take_behind(at, byte, set),
        }
    }

    // What may stand in front of a term.
    fn take_front(&mut self, at: usize, byte: u8, pending: Pending) -> Result<(), FeedFault>
        requires { self.old.stage ≡ Stage.Wanted pending }
        ensures { Comes result (step (Mark at byte) (state_of self.old)) self.new }
    {
        match byte {
            b'~' => {
                self.stage = Stage::Wanted(Pending {
                    inverted: !pending.inverted,
                    ..pending
                });
                Ok(())
            }
            b'(' if self.outer.is_full() => Err(FeedFault::Deep { at }),
            b'(' => {
                self.outer.push(pending);
                self.stage = Stage::Wanted(Pending::WHOLE);
                Ok(())
            }
            _ => Err(FeedFault::Syntax { at }),
        }
    }

    // What may stand behind an expression.
    fn take_behind(&mut self, at: usize, byte: u8, set: u32) -> Result<(), FeedFault>
        requires { self.old.stage ≡ Stage.Found set }
        ensures { Comes result (step (Mark at byte) (state_of self.old)) self.new }
    {
        let operator = match byte {
            b'|' => Operator::Union,
            b'&' => Operator::Meet,
            b'-' => Operator::Without,
            b')' => return self.close(at, set),
            _ => return Err(FeedFault::Syntax { at }),
        };
        self.stage = Stage::Wanted(Pending {
            left: set,
            operator,
            inverted: false,
        });
        Ok(())
    }

    fn close(&mut self, at: usize, set: u32) -> Result<(), FeedFault>
        requires { self.old.stage ≡ Stage.Found set }
        ensures { Comes result (step (Mark at 41) (state_of self.old)) self.new }
    {
        let Some(pending) = self.outer.pop() else {
            return Err(FeedFault::Syntax { at });
        };
        self.stage = Stage::Found(pending.take(set));
        Ok(())
    }

    /// The set that was read, at the end of the text.
    pub fn finish(&self, end: usize) -> Result<Feed, FeedFault>
        ensures { MatchResult result
            (λ feed. finished end (state_of self.now) ≡ Ok (set_of feed.0))
            (λ fault. finished end (state_of self.now) ≡ Err fault) }
    {
        match self.stage {
            Stage::Found(set) if self.outer.is_empty() => Ok(Feed(set)),
            _ => Err(FeedFault::Syntax { at: end }),
        }
    }
}
