//! Documents of many like parts.

use cdx_events::Events;
use cdx_test_cases::documents::document;
use std::alloc::{AllocError, Global};
use std::test::Fail;

// A line, around what stands in it so many times.
#[derive(Clone, Copy)]
struct Repeated {
    before: &'static str,
    part: &'static str,
    after: &'static str,
}

const HASHES: Repeated = Repeated {
    before: "<hashes",
    part: "|<hash alg=SHA-1|=da39a3ee5e6b4b0d3255bfef95601890afd80709|>hash",
    after: "|>hashes",
};

const DEPENDENCIES: Repeated = Repeated {
    before: "<dependencies",
    part: "|<dependency ref=part|>dependency",
    after: "|>dependencies",
};

const TEXT: Repeated = Repeated {
    before: "<name|=",
    part: "0123456789",
    after: "|>name",
};

const COMPONENTS: Repeated = Repeated {
    before: "<components",
    part: "|<component type=library|<name|=part|>name|<version|=1|>version|>component",
    after: "|>components",
};

const BILL: Repeated = Repeated {
    before: "<bom xmlns=1.5 version=1|<components",
    part: "|<component type=library|<name|=part|>name|<version|=1|>version|>component",
    after: "|>components|>bom",
};

fn line(alloc: Global, repeated: &Repeated, count: usize) -> Result<String, AllocError> {
    let mut line = String::from_str(alloc, "start|")?;
    line.push_str(repeated.before)?;
    for _ in 0..count {
        line.push_str(repeated.part)?;
    }
    line.push_str(repeated.after)?;
    line.push_str("|end")?;
    Ok(line)
}

/// The document of this name with so many parts.
pub(crate) fn made(alloc: Global, name: &str, count: usize) -> Result<Events, Fail> {
    let repeated = match name {
        "hashes" => HASHES,
        "dependencies" => DEPENDENCIES,
        "text" => TEXT,
        "components" => COMPONENTS,
        "bill" => BILL,
        _ => return Err(Fail::new("the first word names no document")),
    };
    let line = line(alloc, &repeated, count)?;
    document(alloc, line.as_str())
}
