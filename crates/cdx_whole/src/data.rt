//! The data of services.

use crate::telling::{TellsKind, tell_list, tell_row};
use cdx_service_data::{Data, DataClassification, ServiceData};

impl TellsKind for DataClassification {
    fn tell(&self) {
        self.flow.tell();
        self.classification.tell();
    }
}

impl TellsKind for ServiceData {
    fn tell(&self) {
        tell_row(&self.name);
        tell_row(&self.description);
        self.classification.tell();
    }
}

impl TellsKind for Data {
    fn tell(&self) {
        match self {
            Data::Classification(classifications) => tell_list(classifications),
            Data::ServiceData(flows) => tell_list(flows),
        }
    }
}
