//! The calls that write bills as events.

ghost use Rattle.cdx_models.specs.declared.bom.SpecVersion.TheVariants.{V1_3, V1_4, V1_5};
ghost use Rattle.cdx_bom.specs.Trees.{bom_tree};
ghost use Rattle.cdx_bom.specs.BillWriting.{WritesBill, PutsBill};

use crate::bom::Bom;
use crate::refused::lacks_version;
use crate::xml::writing::document_events;
use cdx_events::{EventSink, Events, SendError, send};
use cdx_models::{SpecVersion, XmlWriteError};
use cdx_schema::Target;
use std::alloc::Global;

impl Bom {
    /// The events of the document of what the version keeps of the bill.
    /// `BomError(BomSerializationError(V1_3, VersionMissing))` comes exactly where the version is 1.3 and a component
    /// has no version, those in the metadata's tools excepted. Otherwise only want of memory refuses.
    pub fn output_xml(&self, alloc: Global, version: SpecVersion) -> Result<Events, XmlWriteError>
        ensures { WritesBill (bom_tree self.now) version result }
    {
        if !self.fits(version) {
            return Err(XmlWriteError::BomError(lacks_version()));
        }
        Ok(document_events(self, Target { alloc, version })?)
    }

    /// The events of the bill in CycloneDX 1.3, with the refusals of `output_xml`.
    pub fn output_as_xml_v1_3(&self, alloc: Global) -> Result<Events, XmlWriteError>
        ensures { WritesBill (bom_tree self.now) V1_3 result }
    {
        self.output_xml(alloc, SpecVersion::V1_3)
    }

    /// The events of the bill in CycloneDX 1.4: the document of what the version keeps. Only want of memory refuses.
    pub fn output_as_xml_v1_4(&self, alloc: Global) -> Result<Events, XmlWriteError>
        ensures { WritesBill (bom_tree self.now) V1_4 result }
    {
        self.output_xml(alloc, SpecVersion::V1_4)
    }

    /// The events of the bill in CycloneDX 1.5: the document of what the version keeps. Only want of memory refuses.
    pub fn output_as_xml_v1_5(&self, alloc: Global) -> Result<Events, XmlWriteError>
        ensures { WritesBill (bom_tree self.now) V1_5 result }
    {
        self.output_xml(alloc, SpecVersion::V1_5)
    }

    /// Puts the events of the document of what the version keeps into the sink, in order.
    ///
    /// `BomError(BomSerializationError(V1_3, VersionMissing))`, exactly where the bill doesn't fit the version, and
    /// `Memory` come before the first put. `XmlElementWriteError` comes only where the count of the sink rose; the
    /// first `put` events went out.
    pub fn write_xml_events<K: EventSink>(
        &self,
        alloc: Global,
        version: SpecVersion,
        sink: &mut K,
    ) -> Result<(), XmlWriteError>
        ensures { PutsBill (bom_tree self.now) version (K.written sink.old) (K.written sink.new)
            (K.faults sink.old) (K.faults sink.new) result }
    {
        let events = self.output_xml(alloc, version)?;
        match send(events, sink) {
            Ok(()) => Ok(()),
            Err(SendError { put }) => Err(XmlWriteError::XmlElementWriteError { put }),
        }
    }
}
