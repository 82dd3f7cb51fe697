//! Worked examples of the gateway: streams and their replies, limits, and failing calls one by one.

mod failing;
mod limits;
mod recording;
mod stream;
mod streams;
