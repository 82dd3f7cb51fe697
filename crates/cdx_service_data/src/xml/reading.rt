//! The data of services.

ghost use Rattle.cdx_models.specs.Trees.{classification, service_data};
ghost use Rattle.cdx_leaf.specs.RowContents.{content_from_rows};
ghost use Rattle.cdx_service_data.specs.Whole.{classification_whole};
ghost use Rattle.cdx_leaf.specs.Parts.{text_alone};
ghost use Rattle.std.specs.Prelude.{refl};
ghost use Rattle.cdx_schema.specs.XmlReading.{record_plan, data_plan};
ghost use Rattle.cdx_service_data.specs.Parts.{service_data_part, data_part};

use crate::parts::{DataPart, ServiceDataPart};
use crate::service::{Data, DataClassification, ServiceData};
use cdx_events::{EventReader, List, Text};
use cdx_leaf::{
    Children, End, FromXml, Reading, Rule, Start, Taken, TextRecord, XmlRecord, attribute_or_none,
    child_or_error, read_record, read_text_record, required_attribute, take_into, take_one,
};
use cdx_models::SpecVersion;

impl TextRecord for DataClassification {
    type Start = Text;

    ghost start = { text_alone };

    ghost at = { 1 };

    ghost content = { content_from_rows classification };

    ghost whole = { classification_whole };

    fn begin(opened: &Start<'_>) -> Reading<Text> {
        required_attribute(opened, "flow")
    }

    fn with_text(begun: Text, content: Text) -> DataClassification {
        DataClassification {
            flow: begun,
            classification: content,
        }
    }
}

impl FromXml for DataClassification {
    ghost depth = { λ d. d };

    ghost at_top = { refl };

    fn read_from(reader: &mut EventReader<'_>, opened: &Start<'_>) -> Reading<DataClassification> {
        read_text_record(reader, opened)
    }
}

impl Children for ServiceDataPart {
    ghost slots = { service_data_part };

    ghost plan = { λ r. record_plan service_data };

    ghost depth = { λ r d. d };

    fn rule(&self) -> Rule {
        Rule::Lax
    }

    fn read_child(&mut self, reader: &mut EventReader<'_>, opened: &Start<'_>) -> Reading<Taken> {
        match opened.element.local_name.as_str() {
            "classification" => take_one(reader, opened, &mut self.classification),
            _ => Ok(Taken::Unknown),
        }
    }
}

impl XmlRecord for ServiceData {
    type Part = ServiceDataPart;

    ghost no_content = { content_from_rows service_data };

    ghost by_rows = { λ part. (refl, refl) };

    fn begin(opened: &Start<'_>) -> Reading<ServiceDataPart> {
        Ok(ServiceDataPart {
            name: attribute_or_none(opened.alloc, opened.attributes, "name")?,
            description: attribute_or_none(opened.alloc, opened.attributes, "description")?,
            classification: None,
        })
    }

    fn finish(closed: &End<'_>, part: ServiceDataPart) -> Reading<ServiceData> {
        let classification = child_or_error(closed, part.classification, "classification")?;
        Ok(ServiceData {
            name: part.name,
            description: part.description,
            classification,
        })
    }
}

impl Children for DataPart {
    ghost slots = { data_part };

    ghost plan = { λ r. data_plan };

    ghost depth = { λ r d. d };

    fn rule(&self) -> Rule {
        Rule::Passing
    }

    fn read_child(&mut self, reader: &mut EventReader<'_>, opened: &Start<'_>) -> Reading<Taken> {
        match opened.element.local_name.as_str() {
            "classification" => take_into(reader, opened, &mut self.classifications),
            "dataflow" => {
                if !SpecVersion::V1_5.is_known_to(opened.version) {
                    return Ok(Taken::Unknown);
                }
                take_into(reader, opened, &mut self.flows)
            }
            _ => Ok(Taken::Unknown),
        }
    }
}

/// The flows where there is one, which only 1.5 knows; classifications that stand beside them are read and dropped. Else
/// the classifications. Unknown elements are skipped, and texts are passed over.
impl FromXml for Data {
    ghost depth = { λ d. d };

    ghost at_top = { refl };

    fn read_from(reader: &mut EventReader<'_>, opened: &Start<'_>) -> Reading<Data> {
        let begun = Ok(DataPart {
            classifications: List::new(opened.alloc),
            flows: List::new(opened.alloc),
        });
        let part: DataPart = read_record(reader, opened, begun)?;
        if part.flows.len() == 0 {
            return Ok(Data::Classification(part.classifications));
        }
        Ok(Data::ServiceData(part.flows))
    }
}
