//! The items of a stream that comes in pieces.
ghost use Rattle.std.specs.Prelude.{◌≡◌, ◌+◌, ◌-◌, ◌++◌, ◌∷◌, ◌<◌, ◌≤◌, IfOk, IfNone, IfSome, Some, None, [], length};
ghost use Rattle.std.specs.Prelude.{min, take, true, false};
ghost use Rattle.std.specs.Option.{option_map};
ghost use Rattle.ldm_wmo.specs.Items.{IsSound};
ghost use Rattle.ldm_wmo.specs.ItemView.{found_of};
ghost use Rattle.ldm_wmo.specs.declared.stage.FrameStage.TheVariants.{Body, Unread};
ghost use Rattle.ldm_wmo.specs.declared.stage.Stage.TheVariants.{Framed};
ghost use Rattle.ldm_wmo.specs.Scanning.{after, begun, body_stage, bytes_taken, cut_of, headed, is_complete, is_line};
ghost use Rattle.ldm_wmo.specs.Scanning.{is_lost, is_outside, item_of, next_of, place};
ghost use Rattle.ldm_wmo.specs.Stages.{FrameFits, StageFits};
ghost use Rattle.ldm_wmo.specs.Taking.{TakesFront, advanced};

use crate::bulletin::START;
use crate::course::{Course, course_in};
use crate::frame::{FILE_END, FrameHead, HEAD_LENGTH, is_enclosed, read_head};
use crate::framing::Framing;
use crate::item::{Item, enclosed_at, item_at};
use crate::kind::Kind;
use crate::stage::{FrameStage, LARGEST_BULLETIN, Stage};
use ldm_types::OutOfMemory;
use memchr::memchr;
use std::alloc::Global;
use std::marker::Model;

/// A scanner for bulletins, to which a stream is given in pieces of any size.
///
/// It keeps one candidate or message, of at most [`LARGEST_BULLETIN`] bytes. All its memory is taken when it is made.
#[derive(Debug, Drop)]
pub struct Scanner {
    place: u64,
    candidate: Vec<u8>,
    stage: Stage,
}

impl Model for Scanner {
    ghost use Rattle.ldm_wmo.specs.Scanning.{Scanning};

    ghost Value = { Scanning };

    ghost use Rattle.ldm_wmo.specs.ScannerView.{scanning_of, IsKept};

    ghost view = { scanning_of };

    ghost invariant = { IsKept };
}

impl Scanner {
    /// A scanner before the first byte of a stream of that framing.
    pub fn create(alloc: Global, framing: Framing) -> Result<Scanner, OutOfMemory>
        ensures { IfOk result (λ scanner. scanner ≡ begun framing) }
    {
        Ok(Scanner {
            place: 0,
            candidate: Vec::with_capacity(alloc, LARGEST_BULLETIN)?,
            stage: match framing {
                Framing::Line => Stage::Outside,
                Framing::Socket => Stage::Framed(FrameStage::Between),
            },
        })
    }

    /// Takes bytes of a piece up to the end of one item, or all of them, and answers how many.
    ///
    /// A byte 1 that ends a candidate is not taken: the next one begins with it. Each byte of a candidate, and of a
    /// message, is copied once. Behind a frame that is none all bytes are taken, and no more items come.
    pub fn push(&mut self, piece: &[u8]) -> usize
        requires { is_complete self.old ≡ false }
        ensures after { self.new ≡ after self.old piece.now }
        ensures taken { result ≡ bytes_taken self.old piece.now }
        ensures within { result ≤ length piece.now }
        ensures ends { result < length piece.now → is_complete self.new ≡ true }
        ensures moves { is_outside self.old ≡ true → 0 < length piece.now → 0 < result }
    {
        if self.is_line() {
            self.push_line(piece)
        } else {
            self.push_framed(piece)
        }
    }

    /// What the candidate or the message is that has ended, if one has: this is read anew at each call.
    pub fn item(&self) -> Option<Item<'_>>
        ensures found { option_map found_of result ≡ item_of self.now }
        ensures sound { IfSome result (λ item. IsSound (found_of item)) }
    {
        match self.stage {
            Stage::Complete { at } => {
                Some(item_at(at, Kind::Alphanumeric, self.candidate.as_slice()))
            }
            Stage::Framed(stage) => self.framed_item(stage),
            _ => None,
        }
    }

    /// Forgets a candidate or a message that has ended, and does nothing where none has.
    pub fn next(&mut self)
        ensures after { self.new ≡ next_of self.old }
        ensures ready { is_complete self.new ≡ false }
    {
        match self.stage {
            Stage::Complete { .. } => {
                self.candidate.clear();
                self.stage = Stage::Outside;
            }
            Stage::Framed(FrameStage::Whole { .. }) => {
                let enclosed = is_enclosed(self.candidate.as_slice());
                self.restart(if enclosed {
                    FrameStage::Between
                } else {
                    FrameStage::Lost
                });
            }
            Stage::Framed(FrameStage::Unread { .. }) => self.restart(FrameStage::Lost),
            _ => (),
        }
    }

    /// Whether no more items come, since a frame was none.
    pub fn is_lost(&self) -> bool
        ensures { result ≡ is_lost self.now }
    {
        match self.stage {
            Stage::Framed(FrameStage::Lost) => true,
            _ => false,
        }
    }

    /// Where the candidate or the frame begins that the stream's end cuts off. `None` exactly where none is open.
    pub fn end(self) -> Option<u64>
        requires { is_complete self ≡ false }
        ensures { result ≡ cut_of self }
    {
        match self.stage {
            Stage::Within { at } => Some(at),
            Stage::Framed(FrameStage::Head { at }) => Some(at),
            Stage::Framed(FrameStage::Body { at, .. }) => Some(at),
            _ => None,
        }
    }

    // ---- bulletins on a line

    fn is_line(&self) -> bool
        ensures { result ≡ is_line self.now }
    {
        match self.stage {
            Stage::Framed(_) => false,
            _ => true,
        }
    }

    fn push_line(&mut self, piece: &[u8]) -> usize
        requires open { is_complete self.old ≡ false }
        requires line { is_line self.old ≡ true }
        ensures after { self.new ≡ after self.old piece.now }
        ensures taken { result ≡ bytes_taken self.old piece.now }
        ensures within { result ≤ length piece.now }
        ensures ends { result < length piece.now → is_complete self.new ≡ true }
        ensures moves { is_outside self.old ≡ true → 0 < length piece.now → 0 < result }
    {
        let begun = self.begin(piece);
        begun + self.gather(&piece[begun..])
    }

    // Passes over bytes outside candidates, and takes the byte that begins one.
    fn begin(&mut self, piece: &[u8]) -> usize
        requires open { is_complete self.old ≡ false }
        requires line { is_line self.old ≡ true }
        ensures front { TakesFront self.old piece.now result self.new }
        ensures unended { is_complete self.new ≡ false }
        ensures line { is_line self.new ≡ true }
        ensures ends { result < length piece.now → is_outside self.new ≡ false }
        ensures moves { is_outside self.old ≡ true → 0 < length piece.now → 0 < result }
    {
        let Stage::Outside = self.stage else {
            return 0;
        };
        let Some(at) = memchr(START, piece) else {
            self.pass(piece.len());
            return piece.len();
        };
        self.pass(at);
        self.stage = Stage::Within { at: self.place };
        self.copy(&[START]);
        at + 1
    }

    // Takes bytes of the candidate in hand.
    fn gather(&mut self, piece: &[u8]) -> usize
        requires open { is_complete self.old ≡ false }
        requires line { is_line self.old ≡ true }
        ensures front { TakesFront self.old piece.now result self.new }
        ensures ends { is_outside self.old ≡ false → result < length piece.now → is_complete self.new ≡ true }
    {
        let Stage::Within { at } = self.stage else {
            return 0;
        };
        match course_in(piece, LARGEST_BULLETIN - self.candidate.len()) {
            Course::Open => {
                self.copy(piece);
                piece.len()
            }
            Course::EndsBefore(count) => {
                self.stage = Stage::Complete { at };
                self.copy(&piece[..count]);
                count
            }
            Course::EndsWith(last) => {
                self.stage = Stage::Complete { at };
                self.copy(&piece[..last + 1]);
                last + 1
            }
        }
    }

    // ---- messages in frames

    fn framed_item(&self, stage: FrameStage) -> Option<Item<'_>>
        requires { self.now.stage ≡ Framed stage }
        ensures found { option_map found_of result ≡ item_of self.now }
        ensures sound { IfSome result (λ item. IsSound (found_of item)) }
    {
        match stage {
            FrameStage::Whole { at, kind } => Some(enclosed_at(
                at,
                kind,
                self.candidate.as_slice(),
            )),
            FrameStage::Unread { at } => Some(Item::Bad { at }),
            _ => None,
        }
    }

    fn has_item(&self) -> bool
        ensures { result ≡ is_complete self.now }
    {
        match self.stage {
            Stage::Complete { .. } => true,
            Stage::Framed(FrameStage::Whole { .. }) => true,
            Stage::Framed(FrameStage::Unread { .. }) => true,
            _ => false,
        }
    }

    fn push_framed(&mut self, piece: &[u8]) -> usize
        requires open { is_complete self.old ≡ false }
        requires framed { is_line self.old ≡ false }
        ensures after { self.new ≡ after self.old piece.now }
        ensures taken { result ≡ bytes_taken self.old piece.now }
        ensures within { result ≤ length piece.now }
        ensures ends { result < length piece.now → is_complete self.new ≡ true }
        ensures moves { 0 < length piece.now → 0 < result }
    {
        let mut at = 0;
        while at < piece.len() && !self.has_item() {
            at += self.take_some(&piece[at..]);
        }
        at
    }

    // Takes some bytes of a piece that has some: one of a head, or those of a message.
    fn take_some(&mut self, piece: &[u8]) -> usize
        requires some { 0 < length piece.now }
        requires open { is_complete self.old ≡ false }
        requires framed { is_line self.old ≡ false }
        ensures front { TakesFront self.old piece.now result self.new }
        ensures moves { 0 < result }
        ensures framed { is_line self.new ≡ false }
    {
        let Stage::Framed(stage) = self.stage else {
            unreachable!()
        };
        match stage {
            FrameStage::Between => self.take_head(self.place, piece[0]),
            FrameStage::Head { at } => self.take_head(at, piece[0]),
            FrameStage::Body { at, left, kind } => self.take_body(at, left, kind, piece),
            FrameStage::Lost => {
                self.pass(piece.len());
                piece.len()
            }
            _ => unreachable!(),
        }
    }

    // Takes one more byte of a head.
    fn take_head(&mut self, at: u64, byte: u8) -> usize
        requires { length self.old.candidate < HEAD_LENGTH }
        ensures headed { self.new ≡ headed at (place (self.old.place + 1)) (self.old.candidate ++ byte ∷ []) }
        ensures one { result ≡ 1 }
    {
        self.stage = Stage::Framed(FrameStage::Unread { at });
        self.copy(&[byte]);
        self.settle_head(at);
        1
    }

    // What the bytes of a head are, of which one came.
    fn settle_head(&mut self, at: u64)
        requires { self.old.stage ≡ Framed (Unread at) }
        ensures { self.new ≡ headed at self.old.place self.old.candidate }
    {
        if self.candidate.as_slice() == FILE_END {
            self.restart(FrameStage::Between);
        } else if self.candidate.len() < HEAD_LENGTH {
            self.stage = Stage::Framed(FrameStage::Head { at });
        } else if let Some(FrameHead { size, kind }) = read_head(self.candidate.as_slice()) {
            self.restart(FrameStage::Body {
                at,
                left: size,
                kind,
            });
        }
    }

    // Takes bytes of a message, of which so many are left.
    fn take_body(&mut self, at: u64, left: usize, kind: Kind, piece: &[u8]) -> usize
        requires { self.old.stage ≡ Framed (Body at left kind) }
        ensures body { self.new ≡ record {
          place = place (self.old.place + length (take result piece.now));
          candidate = self.old.candidate ++ take result piece.now;
          stage = Framed (body_stage at (left - result) kind);
        } }
        ensures count { result ≡ min left (length piece.now) }
    {
        let taken = left.min(piece.len());
        self.stage = Stage::Framed(body_stage(at, left - taken, kind));
        self.copy(&piece[..taken]);
        taken
    }

    // Forgets the bytes in hand.
    fn restart(&mut self, stage: FrameStage)
        requires { FrameFits stage [] }
        ensures { self.new ≡ record { place = self.old.place; candidate = []; stage = Framed stage } }
    {
        self.candidate.clear();
        self.stage = Stage::Framed(stage);
    }

    // ---- both

    // Copies bytes of the candidate in hand, for which there is room.
    fn copy(&mut self, bytes: &[u8])
        requires { StageFits self.old.stage (self.old.candidate ++ bytes.now) }
        ensures { self.new ≡ record
            self.old {
              place = place (self.old.place + length bytes.now);
              candidate = self.old.candidate
                  ++ bytes.now;
            } }
    {
        self.pass(bytes.len());
        if self.candidate.extend_from_slice(bytes).is_err() {
            unreachable!();
        }
    }

    fn pass(&mut self, count: usize)
        ensures { self.new ≡ advanced self.old count }
    {
        self.place = self.place.saturating_add(count as u64);
    }
}

// Where it is in a message that has so many bytes more.
fn body_stage(at: u64, left: usize, kind: Kind) -> FrameStage
    ensures { result ≡ body_stage at left kind }
{
    if left == 0 {
        FrameStage::Whole { at, kind }
    } else {
        FrameStage::Body { at, left, kind }
    }
}
