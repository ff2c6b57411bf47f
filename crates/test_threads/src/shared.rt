ghost use Rattle.std.specs.Prelude.{◌≡◌, [], IfOk};
ghost use Rattle.ldm_shared.specs.Passes.{IsPassOf};

mod threads;
mod told;
mod worker;

use ldm_book::Book;
use ldm_model::{InsertReply, LookReply};
use ldm_shared::{Pass, Shared, Turn};
use ldm_types::{Feed, Info, Micros, Signature};
use std::process::Abort;
use std::test::*;

// A product whose metadata take 52 bytes, and so 56 with a body of 4.
fn product(now: Micros, signature: Signature) -> Result<Info, Fail>
    ensures { IfOk result (λ info. info.size ≡ 4) }
{
    Ok(Info::new(now, signature, b"h", Feed(2), 1, b"p", 4)?)
}

// Whether the first product was admitted at that time.
fn is_first(put: Turn<InsertReply>, now: Micros) -> bool {
    let Turn::Done(reply) = put else {
        return false;
    };
    match reply {
        InsertReply::Admitted { n, time, evicted } => {
            n == 0 && time.get() == now.get() && evicted == 0
        }
        _ => false,
    }
}

// Whether the first product was found, and that time.
fn is_found(found: Turn<LookReply>, now: Micros) -> bool {
    let Turn::Done(reply) = found else {
        return false;
    };
    match reply {
        LookReply::Queued { n, time } => n == 0 && time.get() == now.get(),
        LookReply::Absent => false,
    }
}

#[test]
fn one_pass_sees_what_another_did(rt: HostRuntime) -> Result<(), Fail> {
    let now = Micros::new(100).ok_or("an instant")?;
    let signature = Signature([1; 16]);
    let info = product(now, signature)?;
    let (shared, mut passes) = Shared::create(rt.alloc(), 168, 10, 2)?;
    let mut second = passes.pop().ok_or("a pass")?;
    let mut first = passes.pop().ok_or("a pass")?;
    let put = shared.insert(&rt, &mut first, now, &info, b"AAAA");
    assert!(rt; is_first(put, now));
    shared.meet(&mut first, &mut second);
    let found = shared.look(&rt, &mut second, &signature);
    assert!(rt; is_found(found, now));
    let (mut book, last) = end_of_two(shared, passes, first, second)?;
    let stat = book.stat(last.actor());
    assert!(rt; stat.admitted == 1 && stat.queued == 1 && stat.held == 0);
    assert!(rt; stat.used == 56 && stat.largest_free == 112);
    Ok(())
}

fn end_of_two(
    shared: Shared,
    mut passes: Vec<Pass>,
    first: Pass,
    second: Pass,
) -> Result<(Book, Pass), Fail>
    requires none { passes.items ≡ [] }
    requires first { IsPassOf shared first × (first.actor ≡ 0) }
    requires second { IsPassOf shared second × (second.actor ≡ 1) }
    requires two { shared.passes ≡ 2 }
{
    passes.push(first)?;
    passes.push(second)?;
    Ok(shared.finish(passes))
}
