//! Worked examples of what roads take of a bill, as tests.

mod losses;
