//! Streams of records that come in pieces.

use ldm_drive::{Draws, Trial};
use ldm_rpc::{LAST_FRAGMENT, Records};
use std::alloc::{AllocError, Global};

// Adds a content behind others, in hexadecimal digits and with a blank before it.
fn add_content(alloc: Global, contents: &mut String, content: &[u8]) -> Option<()> {
    contents.push(' ').ok()?;
    if content.is_empty() {
        return contents.push('-').ok();
    }
    contents.push_str(&hex::encode(alloc, content).ok()?).ok()
}

// Gives a piece of a stream to a reader, and adds the contents that come out.
fn read_on(
    alloc: Global,
    records: &mut Records,
    piece: &[u8],
    contents: &mut String,
) -> Option<()> {
    let mut rest = piece;
    for _ in 0..piece.len() {
        if rest.is_empty() {
            break;
        }
        records.next();
        let taken = records.push(rest).ok()?;
        if let Some(content) = records.whole() {
            add_content(alloc, contents, content)?;
        }
        rest = rest.get(taken..)?;
    }
    records.next();
    Some(())
}

// What a stream in two pieces comes to.
#[derive(Drop)]
struct Cut {
    contents: String,
    // Whether a record is pending at the cut, and at the end.
    at_cut: bool,
    at_end: bool,
}

fn cut_at(alloc: Global, limit: u32, stream: &[u8], place: usize) -> Option<Cut> {
    let (front, behind) = stream.split_at_checked(place)?;
    let mut records = Records::create(alloc, limit);
    let mut contents = String::new(alloc);
    read_on(alloc, &mut records, front, &mut contents)?;
    let at_cut = records.pending();
    read_on(alloc, &mut records, behind, &mut contents)?;
    let at_end = records.pending();
    Some(Cut {
        contents,
        at_cut,
        at_end,
    })
}

/// `cuts LIMIT STREAM`: the stream in two pieces, cut at each place. For each cut `.`, or `p` where a record is pending
/// at the cut, or `!` where one is pending at the end or other contents come out than at the cut before; then the
/// contents.
pub fn cuts(trial: &mut Trial) {
    let limit = trial.small();
    let stream = trial.bytes();
    let mut contents = String::new(trial.alloc());
    for place in 0..=stream.len() {
        let Some(cut) = cut_at(trial.alloc(), limit, &stream, place) else {
            return trial.refuse("a record is refused");
        };
        let is_alike = place == 0 || cut.contents == contents;
        trial.tell(mark(cut.at_cut, is_alike && !cut.at_end));
        contents = cut.contents;
    }
    trial.tell(&contents);
}

fn mark(is_pending: bool, is_right: bool) -> &'static str {
    match (is_pending, is_right) {
        (_, false) => "!",
        (true, true) => "p",
        (false, true) => ".",
    }
}

fn add_fragment(stream: &mut Vec<u8>, is_last: bool, bytes: &[u8]) -> Result<(), AllocError> {
    let top = if is_last { LAST_FRAGMENT } else { 0 };
    let header = (bytes.len() % LAST_FRAGMENT as usize) as u32 + top;
    stream.extend_from_slice(&header.to_be_bytes())?;
    stream.extend_from_slice(bytes)
}

fn drawn_bytes(alloc: Global, draws: &mut Draws) -> Result<Vec<u8>, AllocError> {
    let mut bytes = Vec::new(alloc);
    for _ in 0..draws.below(61) {
        bytes.push(draws.byte())?;
    }
    Ok(bytes)
}

// Adds a record of one to four fragments to a stream, and answers its content.
fn add_record(
    alloc: Global,
    draws: &mut Draws,
    stream: &mut Vec<u8>,
) -> Result<Vec<u8>, AllocError> {
    let mut content = Vec::new(alloc);
    let before = draws.below(4);
    for k in 0..=before {
        let bytes = drawn_bytes(alloc, draws)?;
        add_fragment(stream, k == before, &bytes)?;
        content.extend_from_slice(&bytes)?;
    }
    Ok(content)
}

// Adds so many drawn records to a stream, and their contents behind others.
fn draw_records(
    alloc: Global,
    draws: &mut Draws,
    count: u32,
    stream: &mut Vec<u8>,
    drawn: &mut String,
) -> Option<()> {
    for _ in 0..count {
        let content = add_record(alloc, draws, stream).ok()?;
        add_content(alloc, drawn, &content)?;
    }
    Some(())
}

// Gives so many drawn pieces of a stream to a reader, and answers how many bytes are left.
fn read_pieces(
    alloc: Global,
    draws: &mut Draws,
    count: u64,
    stream: &[u8],
    records: &mut Records,
    contents: &mut String,
) -> Option<usize> {
    let mut rest = stream;
    for _ in 0..count {
        let len = rest.len().min(draws.below(22) as usize);
        let (piece, behind) = rest.split_at(len);
        read_on(alloc, records, piece, contents)?;
        rest = behind;
    }
    Some(rest.len())
}

/// `random_pieces SEED COUNT`: so many drawn records, given in drawn pieces of up to 21 bytes, at most ten pieces a
/// record. Whether the contents that come out are those that were drawn, what is left, and whether a record is pending.
pub fn random_pieces(trial: &mut Trial) {
    let mut draws = Draws::behind(trial.number());
    let count = trial.small();
    let alloc = trial.alloc();
    let mut stream = Vec::new(alloc);
    let mut drawn = String::new(alloc);
    if draw_records(alloc, &mut draws, count, &mut stream, &mut drawn).is_none() {
        return trial.lack_memory();
    }
    read_drawn(trial, &mut draws, 10 * u64::from(count), &stream, &drawn);
}

fn read_drawn(trial: &mut Trial, draws: &mut Draws, count: u64, stream: &[u8], drawn: &str) {
    let alloc = trial.alloc();
    let mut records = Records::create(alloc, 240);
    let mut contents = String::new(alloc);
    let Some(left) = read_pieces(alloc, draws, count, stream, &mut records, &mut contents) else {
        return trial.refuse("a record is refused");
    };
    trial.tell("as drawn ");
    trial.tell_value(&(contents.as_str() == drawn));
    trial.tell(", ");
    trial.tell_value(&left);
    trial.tell(" left, pending ");
    trial.tell_value(&records.pending());
}
