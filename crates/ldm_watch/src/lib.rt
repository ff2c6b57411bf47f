//! One asks a peer to be told of the products of a class, and writes a line for each.
#![tactic(auto)]

mod asked;
mod dates;
mod end;
mod examples;
mod form;
mod law;
mod limits;
mod names;
mod notices;
mod notify;
mod reading;
mod session;
mod step;
mod stop;
mod stream;
mod watching;

pub use asked::NoticesAsked;
pub use end::WatchEnd;
pub use examples::worked_examples;
pub use form::NoticeForm;
pub use law::names_are_read_back;
pub use limits::LONGEST_PIECE;
pub use notify::{NotifymeEnd, notifyme};
pub use session::watch;
pub use step::Step;
pub use watching::{Phase, Watching};
