//! Worked examples of questions about a bill and of its inventory, as tests.

mod inventory;
mod stock;
