//! Building a bill and writing it.

ghost use Rattle.std.specs.Prelude.{◌≡◌, Ok, IfOk};
ghost use Rattle.serde_json.specs.View.{view};
ghost use Rattle.cdx_models.specs.declared.bom.SpecVersion.{SpecVersion};
ghost use Rattle.cdx_component.specs.Trees.{component_tree, components_tree};
ghost use Rattle.cdx_schema.specs.JsonReading.{json_denotes};
ghost use Rattle.cdx_json.specs.Gives.{Makes};
ghost use Rattle.cdx_bom.specs.Trees.{bom_tree};
ghost use Rattle.cdx_uses.specs.Uses.{components_alone, library_bill};

use cdx_bom::Bom;
use cdx_component::{Component, Components};
use cdx_events::Text;
use cdx_models::{JsonWriteError, SpecVersion};
use serde_json::Value;
use std::alloc::{AllocError, Global};

// The list of one component.
fn alone(alloc: Global, component: Component) -> Result<Components, AllocError>
    ensures { IfOk result (λ cs. components_tree cs ≡ components_alone (component_tree component)) }
{
    let mut components = Components::new(alloc);
    components.push(component)?;
    Ok(components)
}

/// The bill of 1.5 whose one component is the library of this name and version. Only want of memory refuses.
pub fn library_bill(alloc: Global, name: &str, version: &str) -> Result<Bom, AllocError>
    ensures { IfOk result (λ bill. bom_tree bill ≡ library_bill name.now version.now) }
{
    let component_type = Text::new(alloc, "library")?;
    let name = Text::new(alloc, name)?;
    let version = Text::new(alloc, version)?;
    let component = Component::new(component_type, name, Some(version));
    let components = alone(alloc, component)?;
    let mut bill = Bom::new(SpecVersion::V1_5);
    bill.components = Some(components);
    Ok(bill)
}

/// The JSON document of that bill. Whoever reads it in 1.5 gets exactly that bill. Only want of memory refuses.
pub fn library_document(alloc: Global, name: &str, version: &str) -> Result<Value, JsonWriteError>
    ensures { Makes result (λ document.
        json_denotes (view document) SpecVersion.V1_5 ≡ Ok (library_bill name.now version.now)) }
{
    let bill = match library_bill(alloc, name, version) {
        Ok(bill) => bill,
        Err(error) => return Err(JsonWriteError::Memory(error)),
    };
    cdx_schema::laws::reads_back_json();
    bill.output_as_json_v1_5(alloc)
}
