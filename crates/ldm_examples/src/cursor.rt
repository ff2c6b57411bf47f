//! The example of ldm_cursor.

use ldm_cursor::Cursors;
use ldm_types::{Actor, CursorNo, Feed, OutOfMemory};
use std::alloc::Global;

/// The cursor place of a reader that begins at product 5, of a new queue.
pub fn seat_reader(
    alloc: Global,
    reader: Actor,
    feed: Feed,
) -> Result<Option<CursorNo>, OutOfMemory> {
    let mut cursors = Cursors::create(alloc)?;
    let place = cursors.seat(reader, feed, 5);
    Ok(place)
}
