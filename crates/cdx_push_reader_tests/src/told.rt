//! What a reader of bills answers, in a line.

use cdx_bom::PushError;
use cdx_models::XmlReadError;
use cdx_test_cases::faults::xml_fault_line;
use std::alloc::{AllocError, Global};

/// `more` where the piece was taken and no fault is told. Else the place of the refusal and the fault that is told.
pub fn told(
    alloc: Global,
    answer: Result<(), PushError>,
    fault: Option<&XmlReadError>,
) -> Result<String, AllocError> {
    match (answer, fault) {
        (Ok(()), None) => String::from_str(alloc, "more"),
        (Err(PushError::Refused { place }), Some(fault)) => {
            format!(in alloc; "{place}: {}", xml_fault_line(alloc, fault)?.as_str())
        }
        (Err(PushError::Memory(error)), _) => Err(error),
        _ => String::from_str(
            alloc,
            "a refusal without a fault, or a fault without a refusal",
        ),
    }
}
