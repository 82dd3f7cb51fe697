//! Requests of the program and its replies, as definitions, and their laws.
#![tactic(auto)]

mod laws;

pub use laws::{
    answers_nest, breaks, events_alone, events_back, made_law, no_floats, reply_law,
    requests_alone, requests_back, valid_law,
};
