//! Bills and documents of 1.5 in short, and what is read of a document.

use cdx_bom::Bom;
use cdx_events::Events;
use cdx_test_cases::documents::document;
use cdx_test_cases::faults::xml_fault_line;
use serde_json::Value;
use std::alloc::{AllocError, Global};
use std::test::Fail;

/// The JSON text of the bill with these members, each of which a comma ends.
pub fn bill_text(alloc: Global, members: &str) -> Result<String, AllocError> {
    let end = "\"specVersion\":\"1.5\",\"version\":1}";
    format!(in alloc; "{{\"bomFormat\":\"CycloneDX\",{members}{end}")
}

/// The bill with these members.
pub fn bill(alloc: Global, members: &str) -> Result<Bom, Fail> {
    let value = Value::from_str(alloc, bill_text(alloc, members)?.as_str())?;
    Ok(Bom::parse_from_json_v1_5(alloc, &value)?)
}

/// The document whose root holds this, which a `|` ends.
pub fn events(alloc: Global, inside: &str) -> Result<Events, Fail> {
    let line = format!(in alloc; "start|<bom xmlns=1.5 version=1|{inside}>bom|end")?;
    document(alloc, line.as_str())
}

/// The JSON text of what the events denote, or their first fault.
pub fn read(alloc: Global, events: &Events) -> Result<String, Fail> {
    match Bom::parse_from_xml_v1_5(alloc, events) {
        Ok(bill) => Ok(bill.output_as_json_v1_5(alloc)?.to_string(alloc)?),
        Err(fault) => Ok(xml_fault_line(alloc, &fault)?),
    }
}
