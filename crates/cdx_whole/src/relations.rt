//! Dependencies and compositions.

use crate::telling::{TellsKind, tell_list, tell_list_row, tell_row};
use cdx_relations::{BomReference, Composition, Compositions, Dependencies, Dependency};

impl TellsKind for Dependency {
    fn tell(&self) {
        self.dependency_ref.tell();
        tell_list(&self.depends_on);
    }
}

impl TellsKind for Dependencies {
    fn tell(&self) {
        tell_list(&self.0);
    }
}

impl TellsKind for BomReference {
    fn tell(&self) {
        self.0.tell();
    }
}

impl TellsKind for Composition {
    fn tell(&self) {
        tell_row(&self.bom_ref);
        self.aggregate.tell();
        tell_list_row(&self.assemblies);
        tell_list_row(&self.dependencies);
        tell_list_row(&self.vulnerabilities);
        tell_row(&self.signature);
    }
}

impl TellsKind for Compositions {
    fn tell(&self) {
        tell_list(&self.0);
    }
}
