//! A node: all its workers over one shared queue.
//!
//! [`node`] takes a station for each worker. The first workers let peers in and serve them ([`work_door`]), each of the
//! next keeps asking another node for what one REQUEST line of ldmd.conf names ([`work_request`]). Behind them a
//! [`Clerk`] may record what is inserted. It hands out the queue and the stations once all of them have stopped.
#![tactic(auto)]

mod admitting;
mod clerk;
mod door_worker;
mod line_examples;
mod lines;
mod options;
mod post;
mod request_worker;
mod run;
mod serving_end;
mod session_end;
mod staffing;
mod stop;
mod stops;
mod try_end;
mod try_examples;
mod try_laws;
mod trying;
mod visit_end;
mod visit_examples;
mod visit_laws;

pub use clerk::{Clerk, Recorded};
pub use door_worker::work_door;
pub use line_examples::worked_examples_of_lines;
pub use lines::{write_session, write_unreached};
pub use options::{NodeEnd, NodeOptions};
pub use request_worker::work_request;
pub use run::node;
pub use serving_end::end_of_serving;
pub use session_end::SessionEnd;
pub use stop::NodeStop;
pub use try_examples::worked_examples_of_tries;
pub use try_laws::what_is_told_of_tries;
pub use visit_examples::worked_examples_of_visits;
pub use visit_laws::what_is_told_of_visits;
