//! Hostile use, as worked examples: each call of a source and a sink fails in turn, requests, events and budgets end
//! early, documents are deep and odd, and their empty texts are dropped.

mod cut;
mod dropped;
mod failing;
mod odd;
mod short;
mod tool;
