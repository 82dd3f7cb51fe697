//! Licenses.

use crate::telling::{TellsKind, tell_list, tell_row};
use cdx_license::{Expression, License, LicenseChoice, LicenseIdentifier, Licenses};

impl TellsKind for LicenseIdentifier {
    fn tell(&self) {
        match self {
            LicenseIdentifier::SpdxId(id) => id.tell(),
            LicenseIdentifier::Name(name) => name.tell(),
        }
    }
}

impl TellsKind for License {
    fn tell(&self) {
        tell_row(&self.bom_ref);
        self.license_identifier.tell();
        tell_row(&self.text);
        tell_row(&self.url);
        tell_row(&self.properties);
    }
}

impl TellsKind for Expression {
    fn tell(&self) {
        tell_row(&self.bom_ref);
        self.expression.tell();
    }
}

impl TellsKind for LicenseChoice {
    fn tell(&self) {
        match self {
            LicenseChoice::License(license) => license.tell(),
            LicenseChoice::Expression(expression) => expression.tell(),
        }
    }
}

impl TellsKind for Licenses {
    fn tell(&self) {
        tell_list(&self.0);
    }
}
