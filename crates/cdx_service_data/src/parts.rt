//! Records while their children are read.

use crate::service::{DataClassification, ServiceData};
use cdx_events::{List, Text};

/// A flow of data while its children are read.
#[derive(Drop)]
pub struct ServiceDataPart {
    /// Its name, which the attributes give.
    pub name: Option<Text>,
    /// Its description, which the attributes give.
    pub description: Option<Text>,
    /// Its classification, of the last child that is one.
    pub classification: Option<DataClassification>,
}

/// A service's data while it is read.
#[derive(Drop)]
pub struct DataPart {
    /// The classifications that were read so far.
    pub classifications: List<DataClassification>,
    /// The flows that were read so far.
    pub flows: List<ServiceData>,
}
