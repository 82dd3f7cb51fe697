//! For tests: checks that end them, the rows of tables, documents as lines, faults as texts, what a program is run with
//! and what each program does, and what a text or a document comes to.
#![tactic(auto)]

pub mod checks;
pub mod documents;
pub mod faults;
pub mod forms;
pub mod inputs;
pub mod programs;
pub mod rows;
