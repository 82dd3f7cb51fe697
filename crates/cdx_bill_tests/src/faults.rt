//! Refusals of whole bills in one line each: the cause, and where it stands or how much went out.

use cdx_bom::RoadError;
use cdx_models::{BomError, JsonWriteError, Lack, XmlWriteError};
use cdx_test_cases::faults::{json_fault_line, xml_fault_line};
use std::alloc::{AllocError, Global};

// The version that asks for what the bill lacks.
fn of_bom(alloc: Global, fault: &BomError) -> Result<String, AllocError> {
    let BomError::BomSerializationError(version, Lack::VersionMissing) = fault else {
        return String::from_str(alloc, "another fault");
    };
    format!(in alloc; "version missing in {}", version.as_str())
}

/// Why a bill wasn't written as JSON, as a row has it.
pub fn of_json_writing(alloc: Global, fault: &JsonWriteError) -> Result<String, AllocError> {
    match fault {
        JsonWriteError::JsonElementWriteError { written } => format!(in alloc; "written {written}"),
        JsonWriteError::BomError(error) => of_bom(alloc, error),
        JsonWriteError::Memory(error) => Err(*error),
    }
}

/// Why a bill wasn't written as XML, as a row has it.
pub fn of_xml_writing(alloc: Global, fault: &XmlWriteError) -> Result<String, AllocError> {
    match fault {
        XmlWriteError::XmlElementWriteError { put } => format!(in alloc; "put {put}"),
        XmlWriteError::BomError(error) => of_bom(alloc, error),
        XmlWriteError::Memory(error) => Err(*error),
    }
}

/// Why a road made no documents, as a row has it.
pub fn of_road(alloc: Global, fault: &RoadError) -> Result<String, AllocError> {
    match fault {
        RoadError::Json(error) => json_fault_line(alloc, error),
        RoadError::Xml(error) => xml_fault_line(alloc, error),
        RoadError::Bom(error) => of_bom(alloc, error),
        RoadError::Memory(error) => Err(*error),
    }
}
