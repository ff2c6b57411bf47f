//! Where the cursor of a session begins, and for which feedtypes it is opened.
ghost use Rattle.std.specs.Prelude.{◌≡◌};
ghost use Rattle.ldm_sender.specs.Opening.{feeds_of, from_instant};

use ldm_model::Start;
use ldm_types::{ClassSpec, Feed, Micros};

/// The feedtypes of all specifications of a class, as one set.
pub fn feeds_of(class: &ClassSpec) -> Feed
    ensures { result.0 ≡ feeds_of class.now }
{
    let mut feeds = 0;
    for spec in class.specs.as_slice() {
        feeds |= spec.feed.0;
    }
    Feed(feeds)
}

/// The first product that was inserted no earlier than that.
#[tactic(auto, using(crate::proofs::Starts::starts))]
pub fn start_at(from: Micros) -> Start
    ensures { result ≡ from_instant from }
{
    let n = from.get();
    if n == 0 {
        return Start::Oldest;
    }
    match Micros::new(n - 1) {
        Some(before) => Start::After(before),
        None => unreachable!(),
    }
}
