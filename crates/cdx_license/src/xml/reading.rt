//! Licenses.

ghost use Rattle.std.specs.Prelude.{refl};
ghost use Rattle.cdx_models.specs.Trees.{license, expression};
ghost use Rattle.cdx_schema.specs.XmlReading.{record_plan, choice_plan};
ghost use Rattle.cdx_license.specs.Parts.{license_part, reference_alone, choices_part};
ghost use Rattle.cdx_leaf.specs.RowContents.{content_from_rows};
ghost use Rattle.cdx_license.specs.Whole.{expression_whole};
ghost use Rattle.cdx_schema.specs.Kinds.{licenses};

use crate::license::{Expression, License, LicenseChoice, LicenseIdentifier, Licenses};
use crate::parts::{ChoicesPart, LicensePart};
use cdx_events::{EventReader, List, Text};
use cdx_leaf::{
    Children, End, FromXml, Reading, Rule, Start, Taken, TextRecord, XmlRecord, attribute_or_none,
    attribute_since, child_or_error, read_exact_content, read_record, read_text_record,
    refuse_missing, take_into, take_one, take_one_since,
};
use cdx_models::SpecVersion;

/// An `id` or a `name`. An element of another name lacks `id or name`, at its start.
impl FromXml for LicenseIdentifier {
    ghost depth = { λ d. d };

    ghost at_top = { refl };

    fn read_from(reader: &mut EventReader<'_>, opened: &Start<'_>) -> Reading<LicenseIdentifier> {
        if opened.element.local_name.is("id") {
            let (_, id) = read_exact_content(reader, opened, Ok(()))?;
            return Ok(LicenseIdentifier::SpdxId(id));
        }
        if opened.element.local_name.is("name") {
            let (_, name) = read_exact_content(reader, opened, Ok(()))?;
            return Ok(LicenseIdentifier::Name(name));
        }
        refuse_missing(
            opened.alloc,
            reader.place() - 1,
            opened.element,
            "id or name",
        )
    }
}

impl Children for LicensePart {
    ghost slots = { license_part };

    ghost plan = { λ r. record_plan license };

    ghost depth = { λ r d. d };

    fn rule(&self) -> Rule {
        Rule::Lax
    }

    fn read_child(&mut self, reader: &mut EventReader<'_>, opened: &Start<'_>) -> Reading<Taken> {
        match opened.element.local_name.as_str() {
            "id" => {
                if self.license_identifier.is_some() {
                    return Ok(Taken::Second);
                }
                take_one(reader, opened, &mut self.license_identifier)
            }
            "name" => {
                if self.license_identifier.is_some() {
                    return Ok(Taken::Second);
                }
                take_one(reader, opened, &mut self.license_identifier)
            }
            "text" => take_one(reader, opened, &mut self.text),
            "url" => take_one(reader, opened, &mut self.url),
            "properties" => take_one_since(reader, opened, SpecVersion::V1_5, &mut self.properties),
            _ => Ok(Taken::Unknown),
        }
    }
}

impl XmlRecord for License {
    type Part = LicensePart;

    ghost no_content = { content_from_rows license };

    ghost by_rows = { λ part. (refl, refl) };

    fn begin(opened: &Start<'_>) -> Reading<LicensePart> {
        Ok(LicensePart {
            bom_ref: attribute_since(opened, SpecVersion::V1_5, "bom-ref")?,
            license_identifier: None,
            text: None,
            url: None,
            properties: None,
        })
    }

    fn finish(closed: &End<'_>, part: LicensePart) -> Reading<License> {
        let license_identifier = child_or_error(closed, part.license_identifier, "id or name")?;
        Ok(License {
            bom_ref: part.bom_ref,
            license_identifier,
            text: part.text,
            url: part.url,
            properties: part.properties,
        })
    }
}

impl TextRecord for Expression {
    type Start = Option<Text>;

    ghost start = { reference_alone };

    ghost at = { 1 };

    ghost content = { content_from_rows expression };

    ghost whole = { expression_whole };

    fn begin(opened: &Start<'_>) -> Reading<Option<Text>> {
        Ok(attribute_or_none(opened.alloc, opened.attributes, "bom-ref")?)
    }

    fn with_text(begun: Option<Text>, content: Text) -> Expression {
        Expression {
            bom_ref: begun,
            expression: content,
        }
    }
}

impl FromXml for Expression {
    ghost depth = { λ d. d };

    ghost at_top = { refl };

    fn read_from(reader: &mut EventReader<'_>, opened: &Start<'_>) -> Reading<Expression> {
        read_text_record(reader, opened)
    }
}

/// A `license` or an `expression`. An element of another name lacks `license or expression`, at its start.
impl FromXml for LicenseChoice {
    ghost depth = { λ d. d };

    ghost at_top = { refl };

    fn read_from(reader: &mut EventReader<'_>, opened: &Start<'_>) -> Reading<LicenseChoice> {
        if opened.element.local_name.is("license") {
            let license = License::read_from(reader, opened)?;
            return Ok(LicenseChoice::License(license));
        }
        if opened.element.local_name.is("expression") {
            let expression = Expression::read_from(reader, opened)?;
            return Ok(LicenseChoice::Expression(expression));
        }
        refuse_missing(
            opened.alloc,
            reader.place() - 1,
            opened.element,
            "license or expression",
        )
    }
}

impl Children for ChoicesPart {
    ghost slots = { choices_part };

    ghost plan = { λ r. choice_plan licenses };

    ghost depth = { λ r d. d };

    fn rule(&self) -> Rule {
        Rule::Strict
    }

    fn read_child(&mut self, reader: &mut EventReader<'_>, opened: &Start<'_>) -> Reading<Taken> {
        match opened.element.local_name.as_str() {
            "license" => take_into(reader, opened, &mut self.items),
            "expression" => take_into(reader, opened, &mut self.items),
            _ => Ok(Taken::Unknown),
        }
    }
}

impl FromXml for Licenses {
    ghost depth = { λ d. d };

    ghost at_top = { refl };

    fn read_from(reader: &mut EventReader<'_>, opened: &Start<'_>) -> Reading<Licenses> {
        let begun = Ok(ChoicesPart {
            items: List::new(opened.alloc),
        });
        let part: ChoicesPart = read_record(reader, opened, begun)?;
        Ok(Licenses(part.items))
    }
}
