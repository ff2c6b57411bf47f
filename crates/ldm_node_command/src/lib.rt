//! The command `node`: a node, from the words of a command line to the number that the program ends with.
//!
//! [`run_node`] takes the configuration, makes the queue, puts back what its journal kept, has the net listen, starts
//! the commands of the configuration, has `ldm_node` run the node, and then waits for the commands and writes how full
//! the queue is. Its contract says how that ends. [`run_steps`] is these [steps](Step) alone, and says their order.
#![tactic(auto)]

mod commands;
mod ending;
mod laws;
mod line_examples;
mod lines;
mod listening;
mod passes;
mod progress;
mod restoring;
mod run;
mod setup;
mod stat_line;
mod statuses;

pub use commands::StartFault;
pub use ending::{NodeFault, Ran};
pub use laws::line_is_of_a_history;
pub use line_examples::worked_examples_of_lines;
pub use listening::ListenFault;
pub use progress::{Step, Steps};
pub use restoring::RestoreFault;
pub use run::{run_node, run_steps};
pub use setup::NodeSetup;
