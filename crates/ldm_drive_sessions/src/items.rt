//! Products as words of a case.
ghost use Rattle.ldm_shared.specs.Passes.{IsPassOf, IsSamePass};

use ldm_drive::{Trial, plain_info, push, tell_spelled};
use ldm_feedtype::read_feed;
use ldm_model::{OpenReply, Start, StepReply};
use ldm_shared::{Pass, Shared, Turn};
use ldm_types::{CursorNo, Feed, Info, Micros};
use std::sync::Wait;

/// A product that a case has, and when it is inserted.
#[derive(Drop)]
pub struct Item {
    pub time: Micros,
    pub info: Info,
    pub body: Vec<u8>,
}

/// The products of a word, with `;` between two, each `TIME/BYTE/FEED/IDENT/BODY`: the time of its insertion, which is
/// its arrival too; the byte that its signature repeats, as a number; feedtypes; ident, which is text; and body. Its
/// origin is `h`, and its sequence number 1.
pub fn items_in(trial: &mut Trial, word: &str) -> Vec<Item> {
    let mut items = Vec::new(trial.alloc());
    for part in word.split(';') {
        match item_in(trial, part) {
            Some(item) => push(trial, &mut items, item),
            None => trial.refuse("no product"),
        }
    }
    items
}

fn item_in(trial: &mut Trial, part: &str) -> Option<Item> {
    let (time, rest) = part.split_once('/')?;
    let (byte, rest) = rest.split_once('/')?;
    let (feed, rest) = rest.split_once('/')?;
    let (ident, body) = rest.split_once('/')?;
    let time = Micros::new(time.parse::<u64>().ok()?)?;
    let byte = byte.parse::<u8>().ok()?;
    let feed = read_feed(feed.as_bytes()).ok()?;
    let body = trial.bytes_in(body);
    let ident = trial.text_in(ident);
    let size = u32::try_from(body.len()).ok()?;
    let info = plain_info(time, byte, feed, &ident, size)?;
    Some(Item { time, info, body })
}

/// Inserts products, each at its time. What the queue refuses it goes without.
pub fn insert_all<H: Wait>(rt: &H, shared: &Shared, pass: &mut Pass, items: &[Item])
    requires { IsPassOf shared.now pass.old }
    ensures { IsSamePass pass.old pass.new }
{
    for item in items {
        if item.body.len() == item.info.size() as usize {
            let _ = shared.insert(rt, pass, item.time, &item.info, &item.body);
        }
    }
}

/// Reserves regions for so many products without a body.
pub fn reserve_all<H: Wait>(rt: &H, shared: &Shared, pass: &mut Pass, count: u64)
    requires { IsPassOf shared.now pass.old }
    ensures { IsSamePass pass.old pass.new }
{
    for n in 0..count {
        let byte = (n % 100) as u8 + 100;
        if let Some(now) = Micros::new(1)
            && let Some(info) = plain_info(now, byte, Feed(2), b"r", 0)
        {
            let _ = shared.reserve(rt, pass, &info);
        }
    }
}

/// Opens so many cursors, each of which is given the first product and holds it.
pub fn hold_some<H: Wait>(rt: &H, shared: &Shared, pass: &mut Pass, count: u64)
    requires { IsPassOf shared.now pass.old }
    ensures { IsSamePass pass.old pass.new }
{
    for _ in 0..count {
        let Turn::Done(reply) = shared.open_cursor(rt, pass, Feed(u32::MAX), Start::Oldest) else {
            return;
        };
        if let OpenReply::Opened { k } = reply {
            let _ = shared.step(rt, pass, k);
        }
    }
}

/// Adds the products that are queued, in order: number, time, the first byte of the signature, ident and body of each.
pub fn tell_queue<H: Wait>(rt: &H, trial: &mut Trial, shared: &Shared, pass: &mut Pass)
    requires { IsPassOf shared.now pass.old }
{
    trial.tell(" queue");
    let Turn::Done(reply) = shared.open_cursor(rt, pass, Feed(u32::MAX), Start::Oldest) else {
        return trial.refuse("no turn");
    };
    match reply {
        OpenReply::Opened { k } => tell_products(rt, trial, shared, pass, k),
        OpenReply::AllBusy | OpenReply::NotQueued => trial.refuse("no cursor"),
    }
}

// Adds each product that a cursor is given.
fn tell_products<H: Wait>(rt: &H, trial: &mut Trial, shared: &Shared, pass: &mut Pass, k: CursorNo)
    requires { IsPassOf shared.now pass.old }
{
    for _ in 0..u32::MAX {
        let Turn::Done(reply) = shared.step(rt, pass, k) else {
            return;
        };
        let Some((n, time, info)) = product_of(reply) else {
            return;
        };
        trial.tell(" ");
        trial.tell_number(n);
        trial.tell("/");
        trial.tell_number(time.get());
        trial.tell("/");
        tell_product(rt, trial, shared, pass, k, &info);
    }
}

fn product_of(reply: StepReply) -> Option<(u64, Micros, Info)> {
    match reply {
        StepReply::Product { n, time, info } => Some((n, time, info)),
        StepReply::Gap { .. }
        | StepReply::End { .. }
        | StepReply::NoCursor
        | StepReply::Holding { .. } => None,
    }
}

// Adds the signature's first byte, the ident and the body of the product that the cursor holds, and lets it go.
fn tell_product<H: Wait>(
    rt: &H,
    trial: &mut Trial,
    shared: &Shared,
    pass: &mut Pass,
    k: CursorNo,
    info: &Info,
)
    requires { IsPassOf shared.now pass.old }
    ensures { IsSamePass pass.old pass.new }
{
    trial.tell_number(u64::from(info.signature().0[0]));
    trial.tell("/");
    tell_spelled(trial, info.ident());
    trial.tell("/");
    match vec![in trial.alloc(); 0u8; info.size() as usize] {
        Ok(mut body) => {
            let _ = shared.read(rt, pass, k, 0, body.as_mut_slice());
            tell_spelled(trial, &body);
        }
        Err(_) => trial.lack_memory(),
    }
    let _ = shared.release(rt, pass, k);
}
