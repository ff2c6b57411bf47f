//! Files: bytes that a case has, or the image of a queue that a case names.

use crate::images::answers::{Answer, Row, disk_of, open_file, save, tell_answer};
use ldm_book::{Book, InsertReply};
use ldm_disk::Disk;
use ldm_drive::{Trial, copied, extend};
use ldm_image::SaveEnd;
use ldm_types::{Actor, Feed, Info, Micros, Signature};

// Inserts a product of four bytes at 100: all but its signature are the same for all.
fn insert(trial: &mut Trial, book: &mut Book, byte: u8) {
    let (Some(actor), Some(now)) = (Actor::new(0), Micros::new(100)) else {
        return trial.refuse("no such actor");
    };
    let Ok(info) = Info::new(now, Signature([byte; 16]), b"h", Feed(2), 1, b"p", 4) else {
        return trial.refuse("no metadata");
    };
    let InsertReply::Admitted { .. } = book.insert(actor, now, &info, b"AAAA") else {
        return trial.refuse("not admitted");
    };
}

/// The queue of the words `ARENA SLOTS COUNT`: so many products were inserted, of signatures 01.. to COUNT...
pub fn queue_of(trial: &mut Trial) -> Option<Book> {
    let arena = trial.number();
    let slots = trial.small();
    let count = trial.small().min(255) as u8;
    match Book::create(trial.alloc(), arena, slots) {
        Ok(mut book) => {
            for byte in 0..count {
                insert(trial, &mut book, byte + 1);
            }
            Some(book)
        }
        Err(_) => {
            trial.refuse("no queue");
            None
        }
    }
}

// The image of a queue, as it is saved where no file was.
fn image_of(trial: &mut Trial) -> Vec<u8> {
    let Some(book) = queue_of(trial) else {
        return Vec::new(trial.alloc());
    };
    let mut disk = disk_of(trial, b"");
    if disk.attach("file").is_err() {
        trial.lack_memory();
        return Vec::new(trial.alloc());
    }
    if save(trial.alloc(), &book, &mut disk) != SaveEnd::Saved {
        trial.refuse("not saved");
    }
    copied(trial, disk.bytes())
}

/// The file of the words `queue ARENA SLOTS COUNT`, or of a word that is bytes.
pub fn file_of(trial: &mut Trial) -> Vec<u8> {
    match trial.word() {
        "queue" => image_of(trial),
        digits => trial.bytes_in(digits),
    }
}

fn tell_one(trial: &mut Trial, file: &[u8]) {
    let answer = Answer {
        end: None,
        opened: open_file(trial, file),
    };
    tell_answer(trial, answer);
}

fn add_one(trial: &mut Trial, row: &mut Row, file: &[u8]) {
    let answer = Answer {
        end: None,
        opened: open_file(trial, file),
    };
    row.add(trial, answer);
}

/// `open FILE`: what opening it answers.
pub fn open_case(trial: &mut Trial) {
    let file = file_of(trial);
    tell_one(trial, &file);
}

/// `bytes FILE`: its bytes.
pub fn bytes_of_case(trial: &mut Trial) {
    let file = file_of(trial);
    trial.tell_digits(&file);
}

/// `cuts FILE`: what opening each front of it answers.
pub fn cut_at_each(trial: &mut Trial) {
    let file = file_of(trial);
    let mut row = Row::new();
    for len in 0..=file.len() {
        add_one(trial, &mut row, &file[..len]);
    }
    row.end(trial);
}

/// `gates FILE`: what opening it answers with each byte at its place 5.
pub fn each_gate(trial: &mut Trial) {
    let mut file = file_of(trial);
    let mut row = Row::new();
    for gate in 0..=255u8 {
        if file.len() > 5 {
            file[5] = gate;
        }
        add_one(trial, &mut row, &file);
    }
    row.end(trial);
}

/// `changes FILE BITS`: what opening it answers with these bits turned over in each byte.
pub fn each_byte(trial: &mut Trial) {
    let mut file = file_of(trial);
    let bits = (trial.small() & 255) as u8;
    let mut row = Row::new();
    for at in 0..file.len() {
        file[at] ^= bits;
        add_one(trial, &mut row, &file);
        file[at] ^= bits;
    }
    row.end(trial);
}

/// `surplus FILE BYTES`: what opening it answers with these bytes behind it.
pub fn with_surplus(trial: &mut Trial) {
    let mut file = file_of(trial);
    let surplus = trial.bytes();
    extend(trial, &mut file, &surplus);
    tell_one(trial, &file);
}

/// `at FILE PLACE BYTES`: what opening it answers with these bytes at a place of it.
pub fn changed_at(trial: &mut Trial) {
    let mut file = file_of(trial);
    let place = trial.small() as usize;
    let piece = trial.bytes();
    if place + piece.len() > file.len() {
        return trial.refuse("outside of the file");
    }
    file[place..place + piece.len()].copy_from_slice(&piece);
    tell_one(trial, &file);
}
