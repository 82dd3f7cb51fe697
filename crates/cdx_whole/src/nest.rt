//! Tools and metadata.

use crate::telling::{TellsKind, tell_list, tell_list_row, tell_row};
use cdx_nest::{Metadata, Tools};

impl TellsKind for Tools {
    fn tell(&self) {
        match self {
            Tools::List(tools) => tell_list(tools),
            Tools::Object {
                services,
                components,
            } => {
                tell_row(services);
                tell_row(components);
            }
        }
    }
}

impl TellsKind for Metadata {
    fn tell(&self) {
        tell_row(&self.timestamp);
        tell_row(&self.tools);
        tell_list_row(&self.authors);
        tell_row(&self.component);
        tell_row(&self.manufacture);
        tell_row(&self.supplier);
        tell_row(&self.licenses);
        tell_row(&self.properties);
    }
}
