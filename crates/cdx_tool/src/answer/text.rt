//! The documents of a road as text, each made while it is printed.

ghost use Rattle.std.specs.Prelude.{◌≡◌, ◌++◌, codes, Ok, OnOk};
ghost use Rattle.serde_json.specs.Written.{compact_text};
ghost use Rattle.cdx_models.specs.declared.bom.SpecVersion.{SpecVersion};
ghost use Rattle.cdx_schema.specs.Roads.{Doc as SchemaDoc, denotes, hops_from};
ghost use Rattle.cdx_bom.specs.Trees.{bom_tree};
ghost use Rattle.cdx_bom.specs.Docs.{hop_of, hops_of};
ghost use Rattle.cdx_bom.specs.Hops.{hop_document};
ghost use Rattle.cdx_bom.specs.Outputs.{compact_kept};
ghost use Rattle.cdx_bom.specs.BillWriting.{document_in};
ghost use Rattle.cdx_request.specs.EventValues.{events_value};
ghost use Rattle.cdx_request.specs.Replies.{doc_value};
ghost use Rattle.cdx_print.specs.Printed.{printed};
ghost use Rattle.cdx_tool.specs.Prints.{PrintsRoad, AnswersLine};

use crate::events::print_document;
use cdx_bom::{Bom, Form, Hop, RoadError, next_bill};
use cdx_models::SpecVersion;
use cdx_print::{LongText, Printed};
use std::alloc::{AllocError, Global};

fn push_kept(
    alloc: Global,
    text: &mut Printed,
    bill: &Bom,
    version: SpecVersion,
) -> Result<(), AllocError>
    ensures { OnOk result (printed text.new
        ≡ ((printed text.old ++ codes "{\"json\":")
        ++ compact_kept version (bom_tree bill.now)) ++ codes "}") }
{
    text.push_str("{\"json\":")?;
    bill.print_json(alloc, version, text)?;
    text.push_str("}")
}

fn push_document(
    alloc: Global,
    text: &mut Printed,
    bill: &Bom,
    version: SpecVersion,
) -> Result<(), AllocError>
    ensures { OnOk result (printed text.new
        ≡ ((printed text.old ++ codes "{\"xml\":")
        ++ compact_text (events_value (document_in version (bom_tree bill.now)))) ++ codes "}") }
{
    text.push_str("{\"xml\":")?;
    print_document(alloc, text, bill, version)?;
    text.push_str("}")
}

// The document that a hop makes of the bill.
fn push_hop(alloc: Global, text: &mut Printed, bill: &Bom, hop: Hop) -> Result<(), AllocError>
    ensures { OnOk result (printed text.new ≡ printed text.old
        ++ compact_text (doc_value (hop_document (bom_tree bill.now) (hop_of hop)))) }
{
    match hop.form {
        Form::Json => push_kept(alloc, text, bill, hop.version),
        Form::Xml => push_document(alloc, text, bill, hop.version),
    }
}

// The documents of the hops, one after another, and the bracket behind them. The first hop writes the bill.
fn push_hops(alloc: Global, text: &mut Printed, start: Bom, hops: &[Hop]) -> Result<(), RoadError>
    ensures { (x : SchemaDoc) (v : SpecVersion) → denotes x v ≡ Ok (bom_tree start)
        → PrintsRoad (hops_from x v (hops_of hops.now))
        (printed text.old) (printed text.new) result }
{
    let Some((first, rest)) = hops.split_first() else {
        drop(start);
        return Ok(text.push_str("]")?);
    };
    let mut bill = start;
    let mut hop = *first;
    push_hop(alloc, text, &bill, hop)?;
    for next in rest {
        bill = next_bill(alloc, bill, hop)?;
        hop = *next;
        text.push_str(",")?;
        push_hop(alloc, text, &bill, hop)?;
    }
    drop(bill);
    Ok(text.push_str("]")?)
}

/// The line of `documents_value` of the documents of a road along these hops, which starts with the bill, or the road's
/// refusal: without its value, and no document of it is ever there as a whole.
pub(crate) fn road_line(alloc: Global, bill: Bom, hops: &[Hop]) -> Result<LongText, RoadError>
    ensures { (x : SchemaDoc) (v : SpecVersion) → denotes x v ≡ Ok (bom_tree bill)
        → AnswersLine (hops_from x v (hops_of hops.now)) result }
{
    let mut text = Printed::new(alloc);
    text.push_str("{\"documents\":[")?;
    push_hops(alloc, &mut text, bill, hops)?;
    text.push_str("}\n")?;
    Ok(text.finish()?)
}
