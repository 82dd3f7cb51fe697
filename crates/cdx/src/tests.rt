//! Worked examples of the program: requests and their answers, words, made bills, its calls one by one, and hostile use.

mod answers;
mod calls;
mod documents;
mod hostile;
mod program;
mod refused;
