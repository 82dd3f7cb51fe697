//! Bills from events, per version, and from sources of events.

ghost use Rattle.std.specs.Prelude.{◌≡◌, IfOk, IfErr, OnOk};
ghost use Rattle.cdx_models.specs.declared.bom.SpecVersion.TheVariants.{V1_3, V1_4, V1_5};
ghost use Rattle.cdx_schema.specs.Laws.{IsShallow};
ghost use Rattle.cdx_bom.specs.Trees.{bom_tree};
ghost use Rattle.cdx_bom.specs.BillReading.{ReadsBill, ReadsBillFrom};
ghost use Rattle.cdx_push_reader.specs.Documents.{IsRefusal};

use crate::bom::Bom;
use crate::push::BillMachine;
use crate::xml::reading::whole::read_document;
use cdx_events::{EventSource, Events};
use cdx_models::{SpecVersion, XmlReadError};
use cdx_push_reader::read_gathered;
use std::alloc::Global;

impl Bom {
    /// The bill that the events denote in CycloneDX 1.3, which is shallow: no component stands inside 32 components, and
    /// no service inside 32 services. Else the first fault of the events: `UnexpectedElementReadError` of the root's
    /// name, then `InvalidNamespaceError`, `InvalidParseError` of the attribute `version`, and then the first in the
    /// order of the events, among them `RequiredDataMissing` and `TooDeep`.
    pub fn parse_from_xml_v1_3(alloc: Global, events: &Events) -> Result<Bom, XmlReadError>
        ensures bill { ReadsBill events.now.list V1_3 result }
        ensures shallow { IfOk result (λ b. IsShallow (bom_tree b)) }
        ensures faults { IfErr result IsRefusal }
    {
        read_document(alloc, events, SpecVersion::V1_3)
    }

    /// The bill that the events denote in CycloneDX 1.4, or else their first fault, as `parse_from_xml_v1_3`.
    pub fn parse_from_xml_v1_4(alloc: Global, events: &Events) -> Result<Bom, XmlReadError>
        ensures bill { ReadsBill events.now.list V1_4 result }
        ensures shallow { IfOk result (λ b. IsShallow (bom_tree b)) }
        ensures faults { IfErr result IsRefusal }
    {
        read_document(alloc, events, SpecVersion::V1_4)
    }

    /// The bill that the events denote in CycloneDX 1.5, or else their first fault, as `parse_from_xml_v1_3`.
    pub fn parse_from_xml_v1_5(alloc: Global, events: &Events) -> Result<Bom, XmlReadError>
        ensures bill { ReadsBill events.now.list V1_5 result }
        ensures shallow { IfOk result (λ b. IsShallow (bom_tree b)) }
        ensures faults { IfErr result IsRefusal }
    {
        read_document(alloc, events, SpecVersion::V1_5)
    }

    /// Takes the events of a source one at a time, at most `budget` of them, and reads the bill that they denote in
    /// `version`. It holds no event.
    ///
    /// `ElementReadError` comes where they are no document, whatever faults the bill has: of kind `Fault`, only where the
    /// count of the source rose, and of kind `Budget`, exactly where `budget` events were taken and none of them is a
    /// document end, each with the number of events taken; of kind `Unbalanced`, exactly where neither of these comes
    /// and what was taken isn't balanced, with the place where it breaks. Then come the faults of `parse_from_xml_v1_3`,
    /// for `version`.
    pub fn parse_from_xml_source<E: EventSource>(
        alloc: Global,
        source: &mut E,
        version: SpecVersion,
        budget: usize,
    ) -> Result<Bom, XmlReadError>
        ensures source { ReadsBillFrom budget (E.left source.old) (E.left source.new)
            (E.faults source.old) (E.faults source.new) version result }
        ensures shallow { IfOk result (λ b. IsShallow (bom_tree b)) }
        ensures sound { OnOk result (E.faults source.new ≡ E.faults source.old) }
    {
        read_gathered::<BillMachine, E>(alloc, source, version, budget)
    }
}
