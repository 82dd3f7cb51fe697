//! A gateway: a stream of requests, one reply a line.
#![tactic(auto)]

mod answering;
mod laws;
mod line;
mod serving;

pub use laws::lines_law;
pub use serving::serve;
