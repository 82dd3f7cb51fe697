//! The children of a service by their names, in the groups of its rows.

ghost use Rattle.std.specs.Prelude.{◌≡◌};
ghost use Rattle.cdx_models.specs.Trees.{service, Trees};
ghost use Rattle.cdx_models.specs.declared.bom.SpecVersion.{SpecVersion};
ghost use Rattle.cdx_schema.specs.XmlReading.{children_from, record_plan};
ghost use Rattle.cdx_schema.specs.Groups.{group};
ghost use Rattle.cdx_machine.specs.Several.{found_from};

use cdx_events::OwnedName;
use cdx_machine::FoundChild;
use cdx_models::SpecVersion;

#[tactic(auto, unfolding(cdx_machine::proofs::OnRows::on_rows), using(cdx_machine::proofs::OnRows::by_rows))]
fn find_naming(name: &OwnedName) -> FoundChild
    ensures { (ts : Trees) (v : SpecVersion) → result ≡
        found_from 0 (children_from 0 (group 0 service)) ts v name.now.local_name }
{
    match name.local_name.as_str() {
        "provider" => FoundChild::At(0),
        "group" => FoundChild::At(1),
        "name" => FoundChild::At(2),
        "version" => FoundChild::At(3),
        "description" => FoundChild::At(4),
        _ => FoundChild::Unknown,
    }
}

#[tactic(auto, unfolding(cdx_machine::proofs::OnRows::on_rows), using(cdx_machine::proofs::OnRows::by_rows))]
fn find_access(name: &OwnedName) -> FoundChild
    ensures { (ts : Trees) (v : SpecVersion) → result ≡
        found_from 5 (children_from 6 (group 1 service)) ts v name.now.local_name }
{
    match name.local_name.as_str() {
        "endpoints" => FoundChild::At(5),
        "authenticated" => FoundChild::At(6),
        "x-trust-boundary" => FoundChild::At(7),
        "data" => FoundChild::At(8),
        "licenses" => FoundChild::At(9),
        "externalReferences" => FoundChild::At(10),
        _ => FoundChild::Unknown,
    }
}

#[tactic(auto, unfolding(cdx_machine::proofs::OnRows::on_rows), using(cdx_machine::proofs::OnRows::by_rows))]
fn find_contents(version: SpecVersion, name: &OwnedName) -> FoundChild
    ensures { (ts : Trees) → result ≡
        found_from 11 (children_from 12 (group 2 service)) ts version name.now.local_name }
{
    match name.local_name.as_str() {
        "properties" => FoundChild::At(11),
        "services" => FoundChild::At(12),
        "signature" => FoundChild::since(SpecVersion::V1_4, version, 13),
        "trustZone" => FoundChild::since(SpecVersion::V1_5, version, 14),
        _ => FoundChild::Unknown,
    }
}

/// The child of a service that has the name, where the version knows it. The last of several counts, so none is a second
/// one.
pub(crate) fn find_in_service(version: SpecVersion, name: &OwnedName) -> FoundChild
    ensures { (ts : Trees) → result ≡
        found_from 0 (record_plan service).children ts version name.now.local_name }
{
    match find_naming(name) {
        FoundChild::Unknown => match find_access(name) {
            FoundChild::Unknown => find_contents(version, name),
            found => found,
        },
        found => found,
    }
}
