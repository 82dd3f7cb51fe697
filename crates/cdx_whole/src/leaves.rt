//! The common leaf records.

use crate::telling::{TellsKind, tell_list, tell_list_row, tell_row};
use cdx_models::{
    AttachedText, ExternalReference, ExternalReferences, Hash, HashValue, Hashes,
    OrganizationalContact, OrganizationalEntity, Properties, Property, Tool, Uri, UrnUuid,
};

impl TellsKind for UrnUuid {
    fn tell(&self) {
        self.0.tell();
    }
}

impl TellsKind for AttachedText {
    fn tell(&self) {
        tell_row(&self.content_type);
        tell_row(&self.encoding);
        self.content.tell();
    }
}

impl TellsKind for HashValue {
    fn tell(&self) {
        self.0.tell();
    }
}

impl TellsKind for Hash {
    fn tell(&self) {
        self.alg.tell();
        self.content.tell();
    }
}

impl TellsKind for Hashes {
    fn tell(&self) {
        tell_list(&self.0);
    }
}

impl TellsKind for Property {
    fn tell(&self) {
        self.name.tell();
        self.value.tell();
    }
}

impl TellsKind for Properties {
    fn tell(&self) {
        tell_list(&self.0);
    }
}

impl TellsKind for OrganizationalContact {
    fn tell(&self) {
        tell_row(&self.bom_ref);
        tell_row(&self.name);
        tell_row(&self.email);
        tell_row(&self.phone);
    }
}

impl TellsKind for OrganizationalEntity {
    fn tell(&self) {
        tell_row(&self.bom_ref);
        tell_row(&self.name);
        tell_list_row(&self.url);
        tell_list_row(&self.contact);
    }
}

impl TellsKind for Uri {
    fn tell(&self) {
        let _text = self.as_str();
    }
}

impl TellsKind for ExternalReference {
    fn tell(&self) {
        self.external_reference_type.tell();
        self.url.tell();
        tell_row(&self.comment);
        tell_row(&self.hashes);
    }
}

impl TellsKind for ExternalReferences {
    fn tell(&self) {
        tell_list(&self.0);
    }
}

impl TellsKind for Tool {
    fn tell(&self) {
        tell_row(&self.vendor);
        tell_row(&self.name);
        tell_row(&self.version);
        tell_row(&self.hashes);
        tell_row(&self.external_references);
    }
}
