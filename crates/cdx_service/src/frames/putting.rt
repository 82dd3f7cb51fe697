//! What the children of a service were read as, put into the groups of its rows.

ghost use Rattle.std.specs.Prelude.{◌≡◌, ◌+◌, Some, OnOk};
ghost use Rattle.cdx_models.specs.Trees.{service};
ghost use Rattle.cdx_schema.specs.Kinds.{services};
ghost use Rattle.cdx_schema.specs.XmlReading.{record_plan, plan_of_list};
ghost use Rattle.cdx_machine.specs.Records.{items_slots};
ghost use Rattle.cdx_machine.specs.Several.{at_position, Puts};
ghost use Rattle.cdx_nest_machine.specs.declared.nested.ChildReader.TheVariants.{Leaf, Nested};
ghost use Rattle.cdx_push.specs.Leaf.{value_kind as leaf_value_kind, value_tree as leaf_value_tree};
ghost use Rattle.cdx_service.specs.Frames.{value_kind, value_tree, service_readers, services_readers, naming_readers, access_readers, contents_readers};
ghost use Rattle.cdx_service.specs.Trees.{service_tree, service_items};
ghost use Rattle.cdx_service.specs.ReadingParts.{service_part};

use crate::frames::ServiceValue;
use crate::service::Services;
use crate::xml::reading::parts::ServicePart;
use cdx_push::LeafValue;
use std::alloc::AllocError;

#[tactic(auto, unfolding(cdx_machine::proofs::OnRows::on_rows))]
fn put_naming(part: &mut ServicePart, position: usize, value: LeafValue)
    requires { at_position naming_readers position ≡ Some (Leaf (leaf_value_kind value)) }
    ensures { Puts (record_plan service).children position (leaf_value_tree value)
        (service_part part.old) (service_part part.new) }
{
    match (position, value) {
        (0, LeafValue::Entity(provider)) => part.naming.provider = Some(provider),
        (1, LeafValue::Text(group)) => part.naming.group = Some(group),
        (2, LeafValue::Text(name)) => part.naming.name = Some(name),
        (3, LeafValue::Text(version)) => part.naming.version = Some(version),
        (4, LeafValue::Text(description)) => part.naming.description = Some(description),
        _ => unreachable!(),
    }
}

// The position counts from the group's first child on.
#[tactic(auto, unfolding(cdx_machine::proofs::OnRows::on_rows))]
fn put_access(part: &mut ServicePart, position: usize, value: LeafValue)
    requires { at_position access_readers position ≡ Some (Leaf (leaf_value_kind value)) }
    ensures { Puts (record_plan service).children (5 + position) (leaf_value_tree value)
        (service_part part.old) (service_part part.new) }
{
    match (position, value) {
        (0, LeafValue::Endpoints(endpoints)) => part.access.endpoints = Some(endpoints),
        (1, LeafValue::Flag(flag)) => part.access.authenticated = Some(flag),
        (2, LeafValue::Flag(flag)) => part.access.x_trust_boundary = Some(flag),
        (3, LeafValue::Data(items)) => part.access.data_items = Some(items),
        (4, LeafValue::Licenses(licenses)) => part.access.licenses = Some(licenses),
        (5, LeafValue::ExternalReferences(references)) => part.access.external_references = Some(
            references,
        ),
        _ => unreachable!(),
    }
}

// The position counts from the group's first child on.
#[tactic(auto, unfolding(cdx_machine::proofs::OnRows::on_rows))]
fn put_contents(part: &mut ServicePart, position: usize, value: LeafValue)
    requires { at_position contents_readers position ≡ Some (Leaf (leaf_value_kind value)) }
    ensures { Puts (record_plan service).children (11 + position) (leaf_value_tree value)
        (service_part part.old) (service_part part.new) }
{
    match (position, value) {
        (0, LeafValue::Properties(properties)) => part.contents.properties = Some(properties),
        (2, LeafValue::Signature(signature)) => part.contents.signature = Some(signature),
        (3, LeafValue::Text(trust_zone)) => part.contents.trust_zone = Some(trust_zone),
        _ => unreachable!(),
    }
}

/// Puts what the child of the position, which holds no service, was read as into its row.
pub(crate) fn put_service_leaf(part: &mut ServicePart, position: usize, value: LeafValue)
    requires { at_position service_readers position ≡ Some (Leaf (leaf_value_kind value)) }
    ensures { Puts (record_plan service).children position (leaf_value_tree value)
        (service_part part.old) (service_part part.new) }
{
    match position {
        0..5 => put_naming(part, position, value),
        5..11 => put_access(part, position - 5, value),
        _ => put_contents(part, position - 11, value),
    }
}

/// Puts the services that the child of the position was read as into their row.
#[tactic(auto, unfolding(cdx_machine::proofs::OnRows::on_rows))]
pub(crate) fn put_services(part: &mut ServicePart, position: usize, value: ServiceValue)
    requires { at_position service_readers position ≡ Some (Nested (value_kind value)) }
    ensures { Puts (record_plan service).children position (value_tree value)
        (service_part part.old) (service_part part.new) }
{
    match (position, value) {
        (12, ServiceValue::Services(services)) => part.contents.services = Some(services),
        _ => unreachable!(),
    }
}

/// Puts the service that the child of the position was read as to the end of a list.
pub(crate) fn push_service(
    list: &mut Services,
    position: usize,
    value: ServiceValue,
) -> Result<(), AllocError>
    requires { at_position services_readers position ≡ Some (Nested (value_kind value)) }
    ensures { OnOk result (Puts (plan_of_list services).children position
        (value_tree value) (items_slots service_tree (service_items list.old))
        (items_slots service_tree (service_items list.new))) }
{
    match (position, value) {
        (0, ServiceValue::Service(service)) => list.push(service),
        _ => unreachable!(),
    }
}
