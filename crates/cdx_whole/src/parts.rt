//! What components are known by, and the evidence found in them.

use crate::telling::{TellsKind, tell_list, tell_row};
use cdx_component_parts::{ComponentEvidence, Copyright, CopyrightTexts, Cpe, MimeType, Swid};

impl TellsKind for MimeType {
    fn tell(&self) {
        self.0.tell();
    }
}

impl TellsKind for Cpe {
    fn tell(&self) {
        self.0.tell();
    }
}

impl TellsKind for Swid {
    fn tell(&self) {
        self.tag_id.tell();
        self.name.tell();
        tell_row(&self.version);
        tell_row(&self.tag_version);
        tell_row(&self.patch);
        tell_row(&self.text);
        tell_row(&self.url);
    }
}

impl TellsKind for Copyright {
    fn tell(&self) {
        self.text.tell();
    }
}

impl TellsKind for CopyrightTexts {
    fn tell(&self) {
        tell_list(&self.0);
    }
}

impl TellsKind for ComponentEvidence {
    fn tell(&self) {
        tell_row(&self.licenses);
        tell_row(&self.copyright);
    }
}
