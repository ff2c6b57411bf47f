//! The example of ldm_book.

use ldm_book::{Book, InsertReply, LookReply};
use ldm_signature::sign;
use ldm_types::{Actor, Feed, Info, Micros};
use std::alloc::Global;
use std::test::Fail;

pub fn insert_and_find(alloc: Global, actor: Actor, now: Micros) -> Result<bool, Fail> {
    let mut book = Book::create(alloc, 1_048_576, 1024)?;
    let signature = sign(b"hello");
    let info = Info::new(now, signature, b"host", Feed(2), 1, b"greeting", 5)?;
    if let InsertReply::Admitted { .. } = book.insert(actor, now, &info, b"hello") {
        return Ok(book.look(actor, &signature) != LookReply::Absent);
    }
    Ok(false)
}
