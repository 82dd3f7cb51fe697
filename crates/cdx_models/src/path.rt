//! Paths into JSON values, printed.

ghost use Rattle.std.specs.Prelude.{◌≡◌, ◌++◌, IfOk, OnOk, string_bytes};
ghost use Rattle.cdx_models.specs.Path.{pointer, step_text, escaped};

use crate::errors::{Path, Step};
use cdx_events::Text;
use std::alloc::{AllocError, Global};

fn push_escaped(text: &mut String, name: &str) -> Result<(), AllocError>
    ensures { OnOk result (string_bytes text.new ≡ string_bytes text.old ++ escaped name.now) }
{
    for ch in name.chars() {
        if ch == '~' {
            text.push_str("~0")?;
        } else if ch == '/' {
            text.push_str("~1")?;
        } else {
            text.push(ch)?;
        }
    }
    Ok(())
}

fn push_step(text: &mut String, step: &Step) -> Result<(), AllocError>
    ensures { OnOk result (string_bytes text.new ≡ string_bytes text.old ++ step_text step.now) }
{
    text.push('/')?;
    match step {
        Step::Member(name) => push_escaped(text, name.as_str()),
        Step::Item(at) => write!(text, "{at}"),
    }
}

impl Path {
    /// The path as a JSON pointer by RFC 6901: before each step a `/`, with `~` written `~0` and `/` written `~1` in a
    /// member's name, and an item's number in decimal. The path of the root is the empty text.
    pub fn print(&self, alloc: Global) -> Result<Text, AllocError>
        ensures { IfOk result (λ t. t ≡ pointer self.now.0) }
    {
        let mut text = String::new(alloc);
        for step in self.0.as_slice() {
            push_step(&mut text, step)?;
        }
        Ok(Text::from_string(text))
    }
}
