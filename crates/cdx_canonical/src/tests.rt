//! Worked examples of questions about a bill and of its canonical text, as tests.

mod canonical;
mod texts;
