//! Which component or service depends on which.

ghost use Rattle.cdx_models.specs.Trees.{text, dependency};
ghost use Rattle.cdx_schema.specs.Kinds.{a_reference};
ghost use Rattle.cdx_leaf.specs.Reading.{IsIn};
ghost use Rattle.cdx_leaf.specs.Children.{TakesMore};
ghost use Rattle.cdx_leaf.specs.Trees.{collected};
ghost use Rattle.cdx_schema.specs.XmlReading.{record_plan};
ghost use Rattle.cdx_relations.specs.Parts.{dependency_part};
ghost use Rattle.std.specs.Prelude.{refl};
ghost use Rattle.cdx_leaf.specs.RowContents.{content_from_rows};

use crate::composition::BomReference;
use crate::dependency::{Dependencies, Dependency};
use cdx_events::{EventReader, List, Text};
use cdx_leaf::{
    Children, End, FromXml, Reading, Rule, Start, Taken, XmlRecord, read_items, required_attribute,
};

// Reads a reference to the end of the list of its texts.
fn take_reference(
    reader: &mut EventReader<'_>,
    opened: &Start<'_>,
    field: &mut List<Text>,
) -> Reading<Taken>
    requires { IsIn reader.old opened.now.element.now }
    ensures { TakesMore (collected text field.old) (collected text field.new) reader.old reader.new
        opened.now.version a_reference (λ d. d) opened.now.element.now
        opened.now.attributes.now result }
{
    let reference = BomReference::read_from(reader, opened)?;
    field.push(reference.0)?;
    Ok(Taken::Read)
}

impl Children for Dependency {
    ghost slots = { dependency_part };

    ghost plan = { λ r. record_plan dependency };

    ghost depth = { λ r d. d };

    fn rule(&self) -> Rule {
        Rule::Strict
    }

    fn read_child(&mut self, reader: &mut EventReader<'_>, opened: &Start<'_>) -> Reading<Taken> {
        match opened.element.local_name.as_str() {
            "dependency" => take_reference(reader, opened, &mut self.depends_on),
            _ => Ok(Taken::Unknown),
        }
    }
}

impl XmlRecord for Dependency {
    type Part = Dependency;

    ghost no_content = { content_from_rows dependency };

    ghost by_rows = { λ part. (refl, refl) };

    fn begin(opened: &Start<'_>) -> Reading<Dependency> {
        Ok(Dependency {
            dependency_ref: required_attribute(opened, "ref")?,
            depends_on: List::new(opened.alloc),
        })
    }

    fn finish(_closed: &End<'_>, part: Dependency) -> Reading<Dependency> {
        Ok(part)
    }
}

impl FromXml for Dependencies {
    ghost depth = { λ d. d };

    ghost at_top = { refl };

    fn read_from(reader: &mut EventReader<'_>, opened: &Start<'_>) -> Reading<Dependencies> {
        Ok(Dependencies(read_items(reader, opened, "dependency", Rule::Strict)?))
    }
}
