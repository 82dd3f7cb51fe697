//! The text that is the content of an element.

ghost use Rattle.cdx_schema.specs.XmlReading.{simple_text, exact_text};
ghost use Rattle.cdx_leaf.specs.Reading.{IsIn};
ghost use Rattle.cdx_leaf.specs.Content.{ReadsContent};

use crate::error::Reading;
use crate::start::Start;
use crate::tags::{read_exact_tag, read_simple_tag};
use cdx_events::{EventReader, Text};

/// What the attributes began, and the element's text.
pub fn read_content<A: Drop>(
    reader: &mut EventReader<'_>,
    opened: &Start<'_>,
    begun: Reading<A>,
) -> Reading<(A, Text)>
    requires { IsIn reader.old opened.now.element.now }
    ensures { ReadsContent (λ nodes el q. simple_text nodes el q) reader.old reader.new
        opened.now.element.now begun result }
{
    let begun = begun?;
    let text = read_simple_tag(opened.alloc, reader, opened.element)?;
    Ok((begun, text))
}

/// The same, where there must be a text.
pub fn read_exact_content<A: Drop>(
    reader: &mut EventReader<'_>,
    opened: &Start<'_>,
    begun: Reading<A>,
) -> Reading<(A, Text)>
    requires { IsIn reader.old opened.now.element.now }
    ensures { ReadsContent (λ nodes el q. exact_text nodes el q) reader.old reader.new
        opened.now.element.now begun result }
{
    let begun = begun?;
    let text = read_exact_tag(opened.alloc, reader, opened.element)?;
    Ok((begun, text))
}
