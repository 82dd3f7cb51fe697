//! Patches and issues in JSON: each record is read, kept and written row by row, as the schema says.

mod issue;
mod patch;
