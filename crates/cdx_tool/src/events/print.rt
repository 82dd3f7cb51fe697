//! Events printed as JSON, one after another.

ghost use Rattle.std.specs.Prelude.{◌≡◌, ◌++◌, codes, map as each, IfOk, OnOk, string_bytes};
ghost use Rattle.serde_json.specs.Data.{array};
ghost use Rattle.serde_json.specs.View.{items_of};
ghost use Rattle.serde_json.specs.Written.{compact_text};
ghost use Rattle.cdx_bom.specs.Trees.{bom_tree};
ghost use Rattle.cdx_bom.specs.BillWriting.{document_in};
ghost use Rattle.cdx_print.specs.Prints.{then_text};
ghost use Rattle.cdx_request.specs.EventValues.{attribute_value, event_value, events_value};
ghost use Rattle.cdx_print.specs.Printed.{printed};
ghost use Rattle.cdx_tool.specs.Prints.{then_text_if, then_name, then_default, then_attributes, PrintsItems};

use cdx_bom::Bom;
use cdx_events::{Events, List as Items, OwnedAttribute, OwnedName, Text, XmlEvent as Event};
use cdx_models::SpecVersion;
use cdx_print::{Printed, Printer, print_comma_if};
use std::alloc::{AllocError, Global};

fn print_text_if(
    printer: &mut Printer,
    out: &mut String,
    start: &str,
    text: &Option<Text>,
) -> Result<(), AllocError>
    ensures { OnOk result
        (string_bytes out.new ≡ then_text_if start.now text.now (string_bytes out.old)) }
{
    match text {
        None => Ok(()),
        Some(text) => printer.print_text(out, start, text.as_str()),
    }
}

// The members of a name, in byte order as all members are.
fn print_name(
    printer: &mut Printer,
    out: &mut String,
    start: &str,
    name: &OwnedName,
) -> Result<(), AllocError>
    ensures { OnOk result
        (string_bytes out.new ≡ then_name start.now name.now (string_bytes out.old)) }
{
    printer.print_name(out, start, name.local_name.as_str())?;
    print_text_if(printer, out, ",\"prefix\":", &name.prefix)?;
    print_text_if(printer, out, ",\"uri\":", &name.namespace)
}

fn print_attribute(
    printer: &mut Printer,
    out: &mut String,
    attribute: &OwnedAttribute,
) -> Result<(), AllocError>
    ensures { OnOk result (string_bytes out.new
        ≡ string_bytes out.old ++ compact_text (attribute_value attribute.now)) }
{
    print_name(printer, out, "{\"name\":", &attribute.name)?;
    printer.print_text(out, ",\"value\":", attribute.value.as_str())?;
    out.push_str("}")
}

fn print_list(
    printer: &mut Printer,
    out: &mut String,
    attributes: &[OwnedAttribute],
) -> Result<(), AllocError>
    ensures { OnOk result (string_bytes out.new ≡ string_bytes out.old
        ++ compact_text (array (items_of (each attribute_value attributes.now)))) }
{
    out.push_str("[")?;
    let mut is_later = false;
    for attribute in attributes {
        print_comma_if(out, is_later)?;
        print_attribute(printer, out, attribute)?;
        is_later = true;
    }
    out.push_str("]")
}

// The attributes, where there are some, before the member that follows.
fn print_attributes(
    printer: &mut Printer,
    out: &mut String,
    attributes: &Items<OwnedAttribute>,
) -> Result<(), AllocError>
    ensures { OnOk result
        (string_bytes out.new ≡ then_attributes attributes.now (string_bytes out.old)) }
{
    match attributes.as_slice() {
        [] => Ok(()),
        some => {
            out.push_str("\"attributes\":")?;
            print_list(printer, out, some)?;
            out.push_str(",")
        }
    }
}

// The default namespace, where there is one, before the member that follows.
fn print_default(
    printer: &mut Printer,
    out: &mut String,
    default: &Option<Text>,
) -> Result<(), AllocError>
    ensures { OnOk result
        (string_bytes out.new ≡ then_default default.now (string_bytes out.old)) }
{
    match default {
        None => Ok(()),
        Some(text) => {
            printer.print_text(out, "\"default\":", text.as_str())?;
            out.push_str(",")
        }
    }
}

fn print_start(
    printer: &mut Printer,
    out: &mut String,
    name: &OwnedName,
    attributes: &Items<OwnedAttribute>,
    default: &Option<Text>,
) -> Result<(), AllocError>
    ensures { OnOk result (string_bytes out.new ≡ then_name (codes "\"element\":") name.now
        (then_default default.now
        (then_attributes attributes.now (string_bytes out.old ++ codes "{")))
        ++ codes "}") }
{
    out.push_str("{")?;
    print_attributes(printer, out, attributes)?;
    print_default(printer, out, default)?;
    print_name(printer, out, "\"element\":", name)?;
    out.push_str("}")
}

fn print_end(printer: &mut Printer, out: &mut String, name: &OwnedName) -> Result<(), AllocError>
    ensures { OnOk result (string_bytes out.new
        ≡ then_name (codes "{\"end\":") name.now (string_bytes out.old) ++ codes "}") }
{
    print_name(printer, out, "{\"end\":", name)?;
    out.push_str("}")
}

// An object with this text alone.
fn print_only(
    printer: &mut Printer,
    out: &mut String,
    start: &str,
    text: &str,
) -> Result<(), AllocError>
    ensures { OnOk result (string_bytes out.new
        ≡ then_text start.now text.now (string_bytes out.old) ++ codes "}") }
{
    printer.print_text(out, start, text)?;
    out.push_str("}")
}

fn print_event(printer: &mut Printer, out: &mut String, event: &Event) -> Result<(), AllocError>
    ensures { OnOk result (string_bytes out.new
        ≡ string_bytes out.old ++ compact_text (event_value event.now)) }
{
    match event {
        Event::StartDocument => print_only(printer, out, "{\"document\":", "start"),
        Event::EndDocument => print_only(printer, out, "{\"document\":", "end"),
        Event::StartElement {
            name,
            attributes,
            namespace,
        } => print_start(printer, out, name, attributes, &namespace.default),
        Event::EndElement { name } => print_end(printer, out, name),
        Event::Characters(text) => print_only(printer, out, "{\"text\":", text.as_str()),
        Event::CData(text) => print_only(printer, out, "{\"cdata\":", text.as_str()),
    }
}

// The events, after others where one stands before them. It gives whether one stands before what follows.
fn print_events_from(
    printer: &mut Printer,
    out: &mut String,
    events: &[Event],
    is_later: bool,
) -> Result<bool, AllocError>
    ensures { IfOk result (λ later. PrintsItems (each event_value events.now)
        (string_bytes out.old) is_later (string_bytes out.new) later) }
{
    let mut later = is_later;
    for event in events {
        print_comma_if(out, later)?;
        print_event(printer, out, event)?;
        later = true;
    }
    Ok(later)
}

/// The text of `events_to_json` of the document of what the version keeps of a bill. A piece of its events is made, printed
/// and freed before the next. Only want of memory refuses.
pub(crate) fn print_document(
    alloc: Global,
    out: &mut Printed,
    bill: &Bom,
    version: SpecVersion,
) -> Result<(), AllocError>
    ensures { OnOk result (printed out.new ≡ printed out.old
        ++ compact_text (events_value (document_in version (bom_tree bill.now)))) }
{
    let mut pieces = bill.document_pieces(alloc, version);
    let mut printer = Printer::new(alloc);
    out.push_str("[")?;
    let mut is_later = false;
    while let Some(piece) = pieces.next()? {
        is_later = print_events_from(&mut printer, &mut out.last, piece.as_slice(), is_later)?;
        out.break_if_long(alloc)?;
    }
    out.push_str("]")
}
