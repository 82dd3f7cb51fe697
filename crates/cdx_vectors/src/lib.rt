//! Worked examples of the records that a bill holds, through public calls.
#![tactic(auto)]

#[cfg(test)]
mod checks;
#[cfg(test)]
mod nested;
#[cfg(test)]
mod records;
