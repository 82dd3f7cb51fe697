//! Which child a name stands for, by its position in the plan.

ghost use Rattle.std.specs.Prelude.{◌≡◌, drop};
ghost use Rattle.cdx_models.specs.declared.bom.SpecVersion.{SpecVersion};
ghost use Rattle.cdx_models.specs.Trees.{component, pedigree, Trees};
ghost use Rattle.cdx_schema.specs.Kinds.{components};
ghost use Rattle.cdx_schema.specs.Table.{rows};
ghost use Rattle.cdx_schema.specs.XmlReading.{children_from, record_plan, items_plan};
ghost use Rattle.cdx_machine.specs.Several.{found_from};

use cdx_events::OwnedName;
use cdx_machine::FoundChild;
use cdx_models::SpecVersion;

/// The child of a component that has the name, where the version knows it. The last of several counts, so none is a second
/// one.
#[tactic(auto, unfolding(cdx_machine::proofs::OnRows::on_rows), using(cdx_machine::proofs::OnRows::by_rows))]
pub(crate) fn find_in_component(version: SpecVersion, name: &OwnedName) -> FoundChild
    ensures { (ts : Trees)
        → result ≡ found_from 0 (record_plan component).children ts version name.now.local_name }
{
    match name.local_name.as_str() {
        "supplier" => FoundChild::At(0),
        "author" => FoundChild::At(1),
        "publisher" => FoundChild::At(2),
        _ => find_naming(version, name),
    }
}

// The same among the children of the rows from the group on.
#[tactic(auto, unfolding(cdx_machine::proofs::OnRows::on_rows), using(cdx_machine::proofs::OnRows::by_rows))]
fn find_naming(version: SpecVersion, name: &OwnedName) -> FoundChild
    ensures { (ts : Trees) → result
        ≡ found_from 3 (children_from 6 (drop 6 (rows component))) ts version
        name.now.local_name }
{
    match name.local_name.as_str() {
        "group" => FoundChild::At(3),
        "name" => FoundChild::At(4),
        "version" => FoundChild::At(5),
        "description" => FoundChild::At(6),
        "scope" => FoundChild::At(7),
        "hashes" => FoundChild::At(8),
        _ => find_marks(version, name),
    }
}

// The same among the children of the rows from the licenses on.
#[tactic(auto, unfolding(cdx_machine::proofs::OnRows::on_rows), using(cdx_machine::proofs::OnRows::by_rows))]
fn find_marks(version: SpecVersion, name: &OwnedName) -> FoundChild
    ensures { (ts : Trees) → result
        ≡ found_from 9 (children_from 12 (drop 12 (rows component))) ts version
        name.now.local_name }
{
    match name.local_name.as_str() {
        "licenses" => FoundChild::At(9),
        "copyright" => FoundChild::At(10),
        "cpe" => FoundChild::At(11),
        "purl" => FoundChild::At(12),
        "swid" => FoundChild::At(13),
        "modified" => FoundChild::At(14),
        _ => find_contents(version, name),
    }
}

// The same among the children of the rows from the pedigree on.
#[tactic(auto, unfolding(cdx_machine::proofs::OnRows::on_rows), using(cdx_machine::proofs::OnRows::by_rows))]
fn find_contents(version: SpecVersion, name: &OwnedName) -> FoundChild
    ensures { (ts : Trees) → result
        ≡ found_from 15 (children_from 18 (drop 18 (rows component))) ts version
        name.now.local_name }
{
    match name.local_name.as_str() {
        "pedigree" => FoundChild::At(15),
        "externalReferences" => FoundChild::At(16),
        "properties" => FoundChild::At(17),
        "components" => FoundChild::At(18),
        "evidence" => FoundChild::At(19),
        "signature" => FoundChild::since(SpecVersion::V1_4, version, 20),
        _ => FoundChild::Unknown,
    }
}

/// The child of a pedigree that has the name.
#[tactic(auto, unfolding(cdx_machine::proofs::OnRows::on_rows), using(cdx_machine::proofs::OnRows::by_rows))]
pub(crate) fn find_in_pedigree(name: &OwnedName) -> FoundChild
    ensures { (v : SpecVersion) (ts : Trees)
        → result ≡ found_from 0 (record_plan pedigree).children ts v name.now.local_name }
{
    match name.local_name.as_str() {
        "ancestors" => FoundChild::At(0),
        "descendants" => FoundChild::At(1),
        "variants" => FoundChild::At(2),
        "commits" => FoundChild::At(3),
        "patches" => FoundChild::At(4),
        "notes" => FoundChild::At(5),
        _ => FoundChild::Unknown,
    }
}

/// The child of a list of components that has the name: a component alone.
#[tactic(auto, unfolding(cdx_machine::proofs::OnRows::on_rows), using(cdx_machine::proofs::OnRows::by_rows))]
pub(crate) fn find_in_list(name: &OwnedName) -> FoundChild
    ensures { (v : SpecVersion) (ts : Trees)
        → result ≡ found_from 0 (items_plan components).children ts v name.now.local_name }
{
    if name.local_name.is("component") {
        return FoundChild::At(0);
    }
    FoundChild::Unknown
}
