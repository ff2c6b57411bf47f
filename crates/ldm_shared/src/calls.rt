//! The calls of the shared queue. Each asks the book something in a turn of its own.
ghost use Rattle.std.specs.Prelude.{◌≡◌, ◌≤◌, ◌+◌, ◌++◌, ◌^◌, drop, length};
ghost use Rattle.std.specs.Vec.{vec_len, vec_capacity};
ghost use Rattle.ldm_model.specs.declared.event.Event.TheVariants as event;
ghost use Rattle.ldm_model.specs.Answers.{insert_answer, look_answer, expire_answer, stat_answer, open_answer};
ghost use Rattle.ldm_model.specs.Answers.{step_answer, read_answer, release_answer, close_answer, tally_answer};
ghost use Rattle.ldm_model.specs.Answers.{reserve_answer, fill_answer, commit_answer, discard_answer, asked_bytes};
ghost use Rattle.ldm_model.specs.Answers.{bytes_read};
ghost use Rattle.ldm_shared.specs.Passes.{IsPassOf, IsSamePass, Grows, FindsWorn};
ghost use Rattle.ldm_shared.specs.Turns.{IfDone, IfWorn};

use crate::pass::Pass;
use crate::putting::{put_by_commit, put_by_insert, put_by_reserve};
use crate::shared::Shared;
use crate::turn::Turn;
use ldm_model::{
    CloseReply, CommitReply, DiscardReply, ExpireReply, FillReply, InsertReply, LookReply,
    OpenReply, ReadReply, ReleaseReply, ReserveNo, ReserveReply, Start, Stat, StepReply,
    TallyReply, commit_is_possible, feed_is_possible, fill_is_possible, info_is_possible,
    insert_is_possible, place_is_possible, reservation_is_possible, signature_is_possible,
    start_is_possible,
};
use ldm_types::{CursorNo, Feed, Info, Micros, Signature};
use std::marker::Brand;
use std::sync::Wait;

impl Shared {
    /// Inserts a product at the moment `now`. The body has as many bytes as the metadata say. The cases are those of
    /// [`ldm_book::Book::insert`].
    pub fn insert<H: Wait>(
        &self,
        rt: &H,
        pass: &mut Pass,
        now: Micros,
        info: &Info,
        body: &[u8],
    ) -> Turn<InsertReply>
        requires of { IsPassOf self.now pass.old }
        requires size { length body.now ≡ info.now.size }
        ensures kept { IsSamePass pass.old pass.new }
        ensures done { IfDone result
            (λ reply. Grows pass.old pass.new (event.Insert now info.now body.now) (insert_answer reply)) }
        ensures worn { IfWorn result (FindsWorn pass.old pass.new) }
    {
        insert_is_possible(now, info, body);
        let turn = self.call::<Brand, _, _, _, _>(
            rt,
            pass,
            &(now, info, body),
            &mut [],
            |book, actor, _| { book.insert(actor, now, info, body) },
        );
        if let Turn::Done(reply) = &turn {
            self.tell_of(pass, put_by_insert(reply));
        }
        turn
    }

    /// Opens a cursor of the pass's actor for these feedtypes, at the least empty cursor place.
    pub fn open_cursor<H: Wait>(
        &self,
        rt: &H,
        pass: &mut Pass,
        feed: Feed,
        start: Start,
    ) -> Turn<OpenReply>
        requires { IsPassOf self.now pass.old }
        ensures kept { IsSamePass pass.old pass.new }
        ensures done { IfDone result
            (λ reply. Grows pass.old pass.new (event.OpenCursor feed start) (open_answer reply)) }
        ensures worn { IfWorn result (FindsWorn pass.old pass.new) }
    {
        feed_is_possible(feed);
        start_is_possible(&start);
        self.call::<Brand, _, _, _, _>(rt, pass, &(feed, &start), &mut [], |book, actor, _| {
            book.open_cursor(actor, feed, start)
        })
    }

    /// Goes on with a cursor: tells the losses that it was not told yet, or gives the next product, which the cursor
    /// holds from then on, or comes to the end.
    pub fn step<H: Wait>(&self, rt: &H, pass: &mut Pass, k: CursorNo) -> Turn<StepReply>
        requires { IsPassOf self.now pass.old }
        ensures kept { IsSamePass pass.old pass.new }
        ensures done { IfDone result (λ reply. Grows pass.old pass.new (event.Step k) (step_answer reply)) }
        ensures worn { IfWorn result (FindsWorn pass.old pass.new) }
    {
        place_is_possible(k);
        self.call::<Brand, _, _, _, _>(rt, pass, &k, &mut [], |book, actor, _| {
            book.step(actor, k)
        })
    }

    /// Reads the body of the product that a cursor holds, from that offset on: as many bytes as the buffer has room
    /// for, or as are left, to the front of the buffer. The bytes behind them stay as they were.
    pub fn read<H: Wait>(
        &self,
        rt: &H,
        pass: &mut Pass,
        k: CursorNo,
        offset: u32,
        into: &mut [u8],
    ) -> Turn<ReadReply>
        requires { IsPassOf self.now pass.old }
        ensures kept { IsSamePass pass.old pass.new }
        ensures done { IfDone result
            (λ reply. Grows pass.old pass.new (event.Read k offset (asked_bytes (length into.old)))
            (read_answer reply into.new)) }
        ensures worn { IfWorn result (FindsWorn pass.old pass.new) }
        ensures few { IfDone result (λ reply. bytes_read reply ≤ length into.old) }
        ensures rest { IfDone result (λ reply. drop (bytes_read reply) into.new ≡ drop (bytes_read reply) into.old) }
        ensures unread { IfWorn result (λ _. into.new ≡ into.old) }
    {
        place_is_possible(k);
        self.call::<Brand, _, _, _, _>(rt, pass, &(k, offset), into, |book, actor, into| {
            book.read(actor, k, offset, into)
        })
    }

    /// Reads as [`Shared::read`] does, at most `len` bytes, and appends them to a buffer that has room for so many.
    pub fn read_onto<H: Wait>(
        &self,
        rt: &H,
        pass: &mut Pass,
        k: CursorNo,
        offset: u32,
        len: u32,
        out: &mut Vec<u8>,
    ) -> Turn<ReadReply>
        requires of { IsPassOf self.now pass.old }
        requires room { vec_len out.old + len ≤ vec_capacity out.old }
        ensures kept { IsSamePass pass.old pass.new }
        ensures done { IfDone result
            (λ reply. Grows pass.old pass.new (event.Read k offset (asked_bytes len))
            (read_answer reply (drop (length out.old.items) out.new.items))) }
        ensures worn { IfWorn result (FindsWorn pass.old pass.new) }
        ensures front { out.new.items ≡ out.old.items ++ drop (length out.old.items) out.new.items }
        ensures count { IfDone result (λ reply. length out.new.items ≡ length out.old.items + bytes_read reply) }
        ensures few { IfDone result (λ reply. bytes_read reply ≤ len) }
        ensures capacity { vec_capacity out.old ≤ vec_capacity out.new }
        ensures unread { IfWorn result (λ _. out.new ≡ out.old) }
    {
        place_is_possible(k);
        self.call_onto::<Brand, _, _, _, _>(rt, pass, &(k, offset, len), out, |book, actor, out| {
            book.read_onto(actor, k, offset, len, out)
        })
    }

    /// Ends the hold of a cursor.
    pub fn release<H: Wait>(&self, rt: &H, pass: &mut Pass, k: CursorNo) -> Turn<ReleaseReply>
        requires { IsPassOf self.now pass.old }
        ensures kept { IsSamePass pass.old pass.new }
        ensures done { IfDone result (λ reply. Grows pass.old pass.new (event.Release k) (release_answer reply)) }
        ensures worn { IfWorn result (FindsWorn pass.old pass.new) }
    {
        place_is_possible(k);
        self.call::<Brand, _, _, _, _>(rt, pass, &k, &mut [], |book, actor, _| {
            book.release(actor, k)
        })
    }

    /// Closes a cursor. If it held a product, that hold ends.
    pub fn close<H: Wait>(&self, rt: &H, pass: &mut Pass, k: CursorNo) -> Turn<CloseReply>
        requires { IsPassOf self.now pass.old }
        ensures kept { IsSamePass pass.old pass.new }
        ensures done { IfDone result (λ reply. Grows pass.old pass.new (event.Close k) (close_answer reply)) }
        ensures worn { IfWorn result (FindsWorn pass.old pass.new) }
    {
        place_is_possible(k);
        self.call::<Brand, _, _, _, _>(rt, pass, &k, &mut [], |book, actor, _| {
            book.close(actor, k)
        })
    }

    /// The queued product of that signature, if there is one.
    pub fn look<H: Wait>(&self, rt: &H, pass: &mut Pass, s: &Signature) -> Turn<LookReply>
        requires { IsPassOf self.now pass.old }
        ensures kept { IsSamePass pass.old pass.new }
        ensures done { IfDone result (λ reply. Grows pass.old pass.new (event.Look s.now) (look_answer reply)) }
        ensures worn { IfWorn result (FindsWorn pass.old pass.new) }
    {
        signature_is_possible(s);
        self.call::<Brand, _, _, _, _>(rt, pass, s, &mut [], |book, actor, _| {
            book.look(actor, s)
        })
    }

    /// Evicts the oldest product that no cursor holds, if there is one.
    pub fn expire<H: Wait>(&self, rt: &H, pass: &mut Pass) -> Turn<ExpireReply>
        requires { IsPassOf self.now pass.old }
        ensures kept { IsSamePass pass.old pass.new }
        ensures done { IfDone result (λ reply. Grows pass.old pass.new event.Expire (expire_answer reply)) }
        ensures worn { IfWorn result (FindsWorn pass.old pass.new) }
    {
        self.call::<Brand, _, _, _, _>(rt, pass, &(), &mut [], |book, actor, _| {
            book.expire(actor)
        })
    }

    /// Counts what a cursor was given, what it lost, and what is left for it.
    pub fn tally<H: Wait>(&self, rt: &H, pass: &mut Pass, k: CursorNo) -> Turn<TallyReply>
        requires { IsPassOf self.now pass.old }
        ensures kept { IsSamePass pass.old pass.new }
        ensures done { IfDone result (λ reply. Grows pass.old pass.new (event.Tally k) (tally_answer reply)) }
        ensures worn { IfWorn result (FindsWorn pass.old pass.new) }
    {
        place_is_possible(k);
        self.call::<Brand, _, _, _, _>(rt, pass, &k, &mut [], |book, actor, _| {
            book.tally(actor, k)
        })
    }

    /// How full the queue is.
    pub fn stat<H: Wait>(&self, rt: &H, pass: &mut Pass) -> Turn<Stat>
        requires { IsPassOf self.now pass.old }
        ensures kept { IsSamePass pass.old pass.new }
        ensures done { IfDone result (λ reply. Grows pass.old pass.new event.Stat (stat_answer reply)) }
        ensures worn { IfWorn result (FindsWorn pass.old pass.new) }
    {
        self.call::<Brand, _, _, _, _>(rt, pass, &(), &mut [], |book, actor, _| {
            book.stat(actor)
        })
    }

    /// Reserves a region for a product with these metadata, at the least empty reservation place. The cases are those
    /// of [`ldm_book::Book::reserve`].
    pub fn reserve<H: Wait>(&self, rt: &H, pass: &mut Pass, info: &Info) -> Turn<ReserveReply>
        requires { IsPassOf self.now pass.old }
        ensures kept { IsSamePass pass.old pass.new }
        ensures done { IfDone result
            (λ reply. Grows pass.old pass.new (event.Reserve info.now) (reserve_answer reply)) }
        ensures worn { IfWorn result (FindsWorn pass.old pass.new) }
    {
        info_is_possible(info);
        let turn = self.call::<Brand, _, _, _, _>(rt, pass, info, &mut [], |book, actor, _| {
            book.reserve(actor, info)
        });
        if let Turn::Done(reply) = &turn {
            self.tell_of(pass, put_by_reserve(reply));
        }
        turn
    }

    /// Fills bytes into a reserved region, behind those that it has.
    pub fn fill<H: Wait>(
        &self,
        rt: &H,
        pass: &mut Pass,
        r: ReserveNo,
        bytes: &[u8],
    ) -> Turn<FillReply>
        requires { IsPassOf self.now pass.old }
        ensures kept { IsSamePass pass.old pass.new }
        ensures done { IfDone result (λ reply. Grows pass.old pass.new (event.Fill r bytes.now) (fill_answer reply)) }
        ensures worn { IfWorn result (FindsWorn pass.old pass.new) }
    {
        fill_is_possible(r, bytes);
        self.call::<Brand, _, _, _, _>(rt, pass, &(r, bytes), &mut [], |book, actor, _| {
            book.fill(actor, r, bytes)
        })
    }

    /// Admits the product of a reservation whose body is whole, at the moment `now`. The cases are those of
    /// [`ldm_book::Book::commit`].
    pub fn commit<H: Wait>(
        &self,
        rt: &H,
        pass: &mut Pass,
        r: ReserveNo,
        now: Micros,
    ) -> Turn<CommitReply>
        requires { IsPassOf self.now pass.old }
        ensures kept { IsSamePass pass.old pass.new }
        ensures done { IfDone result (λ reply. Grows pass.old pass.new (event.Commit r now) (commit_answer reply)) }
        ensures worn { IfWorn result (FindsWorn pass.old pass.new) }
    {
        commit_is_possible(r, now);
        let turn = self.call::<Brand, _, _, _, _>(rt, pass, &(r, now), &mut [], |book, actor, _| {
            book.commit(actor, r, now)
        });
        if let Turn::Done(reply) = &turn {
            self.tell_of(pass, put_by_commit(reply));
        }
        turn
    }

    /// Gives a reservation up.
    pub fn discard<H: Wait>(&self, rt: &H, pass: &mut Pass, r: ReserveNo) -> Turn<DiscardReply>
        requires { IsPassOf self.now pass.old }
        ensures kept { IsSamePass pass.old pass.new }
        ensures done { IfDone result (λ reply. Grows pass.old pass.new (event.Discard r) (discard_answer reply)) }
        ensures worn { IfWorn result (FindsWorn pass.old pass.new) }
    {
        reservation_is_possible(r);
        self.call::<Brand, _, _, _, _>(rt, pass, &r, &mut [], |book, actor, _| {
            book.discard(actor, r)
        })
    }
}
