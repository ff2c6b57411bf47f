//! The queue of many threads.
//!
//! A [`Shared`] is lent to every thread, and each thread has a [`Pass`] of its own. Contracts see a pass as an actor
//! and the history that it has seen. There is one history of all calls, and each call says where it stands in it:
//! behind all that the pass had seen, with the reply of the queue at that point.
#![tactic(auto)]

mod asking;
mod calls;
mod count;
mod fault;
mod laws;
mod making;
mod meeting;
mod pass;
mod putting;
mod reader;
mod rule;
mod run;
mod shared;
mod sizes;
mod staying;
mod steps;
mod turn;
mod view;
mod work;
mod worker;

pub use count::count_off;
pub use fault::CreateFault;
pub use laws::{calls_made, one_pass, own_readers};
pub use pass::Pass;
pub use reader::{Came, Held, Opening, Reader};
pub use run::{Left, run_workers};
pub use shared::Shared;
pub use staying::products_stay;
pub use steps::MOST_TURNS;
pub use turn::Turn;
pub use work::Work;
