//! What a queue can be restored from, and restoring it.
ghost use Rattle.std.specs.Prelude.{◌≡◌, ◌↔◌, ◌+◌, ◌<◌, ◌≤◌, List, length, map, slice_get};
ghost use Rattle.std.specs.Prelude.{IfOk, IfErr, IfSome, IsTrue, MatchResult};
ghost use Rattle.std.specs.Option.{option_map};
ghost use Rattle.ldm_model.specs.State.{State, queued};
ghost use Rattle.ldm_book.specs.declared.restoring.RowNote.{RowNote};
ghost use Rattle.ldm_book.specs.View.{BookView};
ghost use Rattle.ldm_book.specs.Stands.{StandsFor};
ghost use Rattle.ldm_book.specs.Restoring.{HasGoodSizes, IsGoodCount, IsGoodNumber, IsGoodRow, IsGoodTime};
ghost use Rattle.ldm_book.specs.Restoring.{IsRestorable, IsRestored, IsRestoreFault, IsRowFault, IsSoFar};
ghost use Rattle.ldm_book.specs.Restoring.{all_closed, backup, backup_of, backup_with, note_of};
ghost use Rattle.ldm_book.specs.Listing.{queued_of};

use super::Book;
use crate::fault::{RestoreFault, RowFault};
use crate::products::Products;
use crate::restoring::{RowNote, Stored};
use crate::stored::{metadata_at, whole_at};
use ldm_cursor::Cursors;
use ldm_types::{MOST_SLOTS, Micros};
use ldm_xdr::info_len;
use std::alloc::Global;

impl Book {
    /// The bytes of the arena. With [`Book::slots`], [`Book::admitted`], [`Book::last`] and the rows of
    /// [`Book::row_at`] they are all that [`Book::restore`] asks for.
    pub fn bytes(&self) -> &[u8]
        ensures value { result.now ≡ self.now.bytes }
        ensures sized { length self.now.bytes ≡ self.now.arena }
    {
        &self.arena
    }

    /// How many product slots there are.
    pub fn slots(&self) -> u32
        ensures slots { result ≡ self.now.slots }
        ensures few { (length self.now.rows ≤ self.now.slots) × (self.now.slots ≤ MOST_SLOTS) }
        // Whatever the queue has, it can be restored from it: nothing but want of memory keeps it from that.
        ensures restorable { (s : State) → StandsFor self.now s → IsRestorable (all_closed self.now) }
    {
        // Contracts see by it that the last insertion time is an instant.
        let _ = is_good_count(self.last, self.admitted);
        self.products.slots() as u32
    }

    /// How many products were ever admitted.
    pub fn admitted(&self) -> u64
        ensures { result ≡ self.now.admitted }
    {
        self.admitted
    }

    /// The insertion time of the product that was admitted last. `None` exactly where none was admitted.
    pub fn last(&self) -> Option<Micros>
        ensures { result ≡ self.now.last }
    {
        self.last
    }

    /// What is noted of a queued product, the i-th from 0 in the order of numbers. `None` exactly where there are no
    /// more. It costs the same for each.
    pub fn row_at(&self, i: u32) -> Option<RowNote>
        ensures { result ≡ slice_get (map note_of self.now.rows) i }
    {
        self.products.note_at(i)
    }

    /// A queued product, the i-th from 0 in the order of numbers, with its metadata and its body. `None` exactly where
    /// there are no more. It takes no cursor, and costs the same for each.
    pub fn product_at(&self, i: u32) -> Option<Stored<'_>>
        ensures { (s : State) → StandsFor self.now s → option_map queued_of result ≡ slice_get (queued s) i }
    {
        let note = self.products.note_at(i)?;
        let info = metadata_at(&self.arena, note.place);
        let start = note.place as usize + info_len(&info);
        let end = start + info.size() as usize;
        Some(Stored {
            note,
            info,
            body: &self.arena[start..end],
        })
    }

    /// The queue that was saved as these bytes of its arena, its slots, how many products it had admitted, the last
    /// insertion time and what was noted of each queued product, in the order of their numbers. No cursor and no
    /// reservation is open. It takes all the memory that the queue will ever use, besides the arena's, which it is
    /// given.
    ///
    /// The faults are tested in the order of [`RestoreFault`], the rows one after another; a fault of memory may come
    /// in place of one of a row. What another queue shows by [`Book::bytes`] and the calls beside it has none but that
    /// of memory, and restores that queue but for what was open.
    pub fn restore(
        alloc: Global,
        arena: Vec<u8>,
        slots: u32,
        admitted: u64,
        last: Option<Micros>,
        rows: &[RowNote],
    ) -> Result<Book, RestoreFault>
        ensures restored { IfOk result (IsRestored (backup arena.items slots admitted last rows.now)) }
        ensures faults { IfErr result (IsRestoreFault (backup arena.items slots admitted last rows.now)) }
        // What a queue can be restored from restores it, or wants memory.
        ensures again { (book : BookView) → IsRestorable book
            → backup_of book ≡ backup arena.items slots admitted last rows.now
            → MatchResult result (λ made. made ≡ book) (λ fault. fault ≡ RestoreFault.OutOfMemory) }
    {
        let mut book = Book::with_no_rows(alloc, arena, slots, admitted, last)?;
        for i in 0..rows.len() {
            if let Err(fault) = book.put_back(rows, i) {
                return Err(RestoreFault::BadRow { i: i as u32, fault });
            }
        }
        Ok(book)
    }

    // A queue of that arena and these numbers, before its rows are put back.
    fn with_no_rows(
        alloc: Global,
        arena: Vec<u8>,
        slots: u32,
        admitted: u64,
        last: Option<Micros>,
    ) -> Result<Book, RestoreFault>
        ensures sofar { IfOk result (λ book. (notes : List RowNote) → IsSoFar notes 0 book) }
        ensures same { IfOk result
            (λ book. (notes : List RowNote) → backup_with book notes ≡ backup arena.items slots admitted last notes) }
        ensures sizes { IfOk result
            (λ _. (notes : List RowNote) → HasGoodSizes (backup arena.items slots admitted last notes)) }
        ensures faults { IfErr result
            (λ fault. (notes : List RowNote) → IsRestoreFault (backup arena.items slots admitted last notes) fault) }
    {
        let size = arena.len() as u64;
        Book::check_sizes(size, slots)?;
        if !is_good_count(last, admitted) {
            return Err(RestoreFault::BadCount);
        }
        Ok(Book {
            arena,
            products: Products::create(alloc, size, slots, 0)?,
            cursors: Cursors::create(alloc)?,
            admitted,
            last,
        })
    }

    // Puts the product of a row back behind those of the rows before it.
    fn put_back(&mut self, rows: &[RowNote], i: usize) -> Result<(), RowFault>
        requires inside { i < length rows.now }
        requires sofar { IsSoFar rows.now i self.old }
        ensures sofar { IfOk result (λ _. IsSoFar rows.now (i + 1) self.new) }
        ensures same { IfOk result (λ _. backup_with self.new rows.now ≡ backup_with self.old rows.now) }
        ensures good { IfOk result (λ _. IsGoodRow (backup_with self.old rows.now) i) }
        ensures fault { IfErr result (IsRowFault (backup_with self.old rows.now) i) }
        ensures few { i ≤ self.old.slots }
        ensures small { self.old.slots ≤ MOST_SLOTS }
    {
        if i as u64 >= self.products.slots() {
            return Err(RowFault::Surplus);
        }
        if !self.is_good_number(rows, i) {
            return Err(RowFault::Number);
        }
        if !self.is_good_time(rows, i) {
            return Err(RowFault::Time);
        }
        let row = rows[i];
        let Some(info) = whole_at(&self.arena, row.place) else {
            return Err(RowFault::Place);
        };
        if !self.products.put_at(&info, row.n, row.time, row.place) {
            return Err(RowFault::Place);
        }
        Ok(())
    }

    // Whether the number of a row is below that of admitted products, and above that of the row before it.
    fn is_good_number(&self, rows: &[RowNote], i: usize) -> bool
        requires { i < length rows.now }
        ensures { IsTrue result ↔ IsGoodNumber (backup_with self.now rows.now) i }
    {
        let n = rows[i].n;
        n < self.admitted && (i == 0 || rows[i - 1].n < n)
    }

    // Whether the time of a row is not above the last, and above that of the row before it, and is the last where the
    // product was admitted last.
    fn is_good_time(&self, rows: &[RowNote], i: usize) -> bool
        requires inside { i < length rows.now }
        requires number { IsGoodNumber (backup_with self.now rows.now) i }
        ensures { IsTrue result ↔ IsGoodTime (backup_with self.now rows.now) i }
    {
        let Some(last) = self.last else {
            return false;
        };
        let time = rows[i].time.get();
        time <= last.get()
            && (i == 0 || rows[i - 1].time.get() < time)
            && (rows[i].n + 1 != self.admitted || time == last.get())
    }
}

// Whether so many products can have been admitted up to a last insertion time.
fn is_good_count(last: Option<Micros>, admitted: u64) -> bool
    ensures good { IsTrue result ↔ IsGoodCount last admitted }
    ensures small { IfSome last (λ last. last ≤ Micros.MAX) }
{
    match last {
        Some(last) => 0 < admitted && admitted <= last.get() + 1,
        None => admitted == 0,
    }
}
