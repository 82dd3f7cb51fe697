//! Tools and metadata, read from XML by the machine with a stack.

ghost use Rattle.std.specs.Prelude.{refl};
ghost use Rattle.cdx_schema.specs.Depth.{top};

use crate::frames::{NestFrame, NestKind, NestValue};
use crate::metadata::Metadata;
use crate::tools::Tools;
use cdx_events::EventReader;
use cdx_leaf::{FromXml, Reading, Start};
use cdx_nest_machine::read_element;
use cdx_schema::Depth;

/// The tools where there is one, and else, in 1.5, the object of the services and components that were read last; before
/// 1.5 the empty list. Any other element and any text is unexpected at its place, and before 1.5 services and components
/// are too. Where services or components stand beside a tool, `tool array or services & components` is missing at the
/// element's end.
impl FromXml for Tools {
    ghost depth = { λ d. top };

    ghost at_top = { refl };

    fn read_from(reader: &mut EventReader<'_>, opened: &Start<'_>) -> Reading<Tools> {
        let depth = Depth::top();
        match read_element::<NestFrame>(reader, opened, NestKind::Tools, depth)? {
            NestValue::Tools(tools) => Ok(tools),
            _ => unreachable!(),
        }
    }
}

/// Each child that CycloneDX names, in any order; a repeated one is read each time, and the last counts. Other elements
/// are skipped whole, and a text is unexpected at its place.
impl FromXml for Metadata {
    ghost depth = { λ d. top };

    ghost at_top = { refl };

    fn read_from(reader: &mut EventReader<'_>, opened: &Start<'_>) -> Reading<Metadata> {
        let depth = Depth::top();
        match read_element::<NestFrame>(reader, opened, NestKind::Metadata, depth)? {
            NestValue::Metadata(metadata) => Ok(metadata),
            _ => unreachable!(),
        }
    }
}
