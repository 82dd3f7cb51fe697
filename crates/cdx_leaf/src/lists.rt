//! Lists.

ghost use Rattle.cdx_leaf.specs.Reading.{IsIn};
ghost use Rattle.cdx_leaf.specs.Listing.{ReadsList, ReadsItems};
ghost use Rattle.cdx_leaf.specs.declared.rule.Rule.TheVariants as rules;

use crate::children::{Children, read_record};
use crate::error::Reading;
use crate::from_xml::FromXml;
use crate::rule::Rule;
use crate::start::Start;
use crate::take::take_into;
use crate::taken::Taken;
use cdx_events::{EventReader, List, OwnedName};
use cdx_models::{SpecVersion, XmlReadError};
use std::alloc::Global;

/// A list while its items are read.
#[derive(Drop)]
struct Listing<'a, X> {
    inner: &'a str,
    rule: Rule,
    items: List<X>,
}

impl<'a, X: FromXml> Children for Listing<'a, X> {
    ghost use Rattle.cdx_leaf.specs.Trees.{collected};
    ghost use Rattle.cdx_leaf.specs.Listing.{listing_slots, listing_plan};

    ghost slots = { λ l. listing_slots X.tree l.items };

    ghost plan = { λ l. listing_plan l.rule l.inner.now X.kind };

    ghost depth = { λ l d. X.depth d };

    fn rule(&self) -> Rule {
        self.rule
    }

    fn read_child(&mut self, reader: &mut EventReader<'_>, opened: &Start<'_>) -> Reading<Taken> {
        if !opened.element.local_name.is(self.inner) {
            return Ok(Taken::Unknown);
        }
        take_into(reader, opened, &mut self.items)
    }
}

/// The items of the element, by the rule for what else stands in it.
pub fn read_items<X: FromXml>(
    reader: &mut EventReader<'_>,
    opened: &Start<'_>,
    inner: &str,
    rule: Rule,
) -> Reading<List<X>>
    requires { IsIn reader.old opened.now.element.now }
    ensures { ReadsItems X.tree X.kind X.depth reader.old reader.new opened.now.version
        opened.now.element.now inner.now rule result }
{
    let begun = Ok(Listing {
        inner,
        rule,
        items: List::new(opened.alloc),
    });
    let listing: Listing<'_, X> = read_record(reader, opened, begun)?;
    Ok(listing.items)
}

// The items of the element that the reader is in, as above: its attributes aren't asked for.
fn read_list_by_rule<X: FromXml>(
    alloc: Global,
    reader: &mut EventReader<'_>,
    version: SpecVersion,
    element: &OwnedName,
    inner: &str,
    rule: Rule,
) -> Reading<List<X>>
    requires { IsIn reader.old element.now }
    ensures { ReadsList X.tree X.kind X.depth reader.old reader.new version element.now
        inner.now rule result }
{
    let none = List::new(alloc);
    let opened = Start {
        alloc,
        place: reader.place() - 1,
        version,
        element,
        attributes: &none,
    };
    read_items(reader, &opened, inner, rule)
}

/// The items of the element in their order: each child is named `inner`. Any other event is unexpected at its place.
pub fn read_list_tag<X: FromXml>(
    alloc: Global,
    reader: &mut EventReader<'_>,
    version: SpecVersion,
    element: &OwnedName,
    inner: &str,
) -> Result<List<X>, XmlReadError>
    requires { IsIn reader.old element.now }
    ensures { ReadsList X.tree X.kind X.depth reader.old reader.new version element.now
        inner.now rules.Strict result }
{
    read_list_by_rule(alloc, reader, version, element, inner, Rule::Strict)
}

/// The items of the element in their order: the children named `inner`. Children of other names are skipped whole; a
/// text is unexpected at its place.
pub fn read_lax_validation_list_tag<X: FromXml>(
    alloc: Global,
    reader: &mut EventReader<'_>,
    version: SpecVersion,
    element: &OwnedName,
    inner: &str,
) -> Result<List<X>, XmlReadError>
    requires { IsIn reader.old element.now }
    ensures { ReadsList X.tree X.kind X.depth reader.old reader.new version element.now
        inner.now rules.Lax result }
{
    read_list_by_rule(alloc, reader, version, element, inner, Rule::Lax)
}
