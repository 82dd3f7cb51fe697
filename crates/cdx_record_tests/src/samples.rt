//! A sample of each type that has a record's traits, on which each call is made by itself.

mod bills;
mod code;
mod licenses;
mod models;
mod nested;
mod parts;
mod relations;
