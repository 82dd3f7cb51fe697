//! A bill that comes back.

use crate::{owned_bill, owned_bill_again};
use std::test::Fail;

// What is read again is what was built.
#[test]
fn comes_back(rt: HostRuntime) -> Result<(), Fail> {
    let alloc = rt.alloc();
    let built = owned_bill(alloc, "log", "MIT", "platform team")?;
    let again = owned_bill_again(alloc, "log", "MIT", "platform team")?;
    assert!(rt; again == built, "what is read again is another bill");
    Ok(())
}
