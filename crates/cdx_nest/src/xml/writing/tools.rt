//! Tools.

ghost use Rattle.std.specs.Prelude.{refl, codes};
ghost use Rattle.cdx_schema.specs.Kinds.{a_tools};
ghost use Rattle.cdx_write.specs.Spelling.{inner};
ghost use Rattle.cdx_write.specs.Writing.{Appends};
ghost use Rattle.cdx_nest.specs.Trees.{tools_tree, object_tree};

use crate::tools::Tools;
use cdx_component::Components;
use cdx_events::EventWriter;
use cdx_models::SpecVersion;
use cdx_schema::Target;
use cdx_service::Services;
use cdx_write::{
    Element, HasContent, Tagged, WriteResult, put_child, write_close_tag, write_items,
    write_start_tag,
};

/// Appends the services and then the components, and before 1.5 nothing.
fn write_parts(
    writer: &mut EventWriter,
    services: &Option<Services>,
    components: &Option<Components>,
    target: Target,
) -> WriteResult
    ensures { Appends writer.old writer.new
        (inner (object_tree services.now components.now) target.version a_tools) result }
{
    if !SpecVersion::V1_5.is_known_to(target.version) {
        return Ok(());
    }
    put_child(writer, "services", services, target)?;
    put_child(writer, "components", components, target)
}

/// Appends what stands between the tags.
fn write_content(writer: &mut EventWriter, held: &Tools, target: Target) -> WriteResult
    ensures { Appends writer.old writer.new (inner (tools_tree held.now) target.version a_tools)
        result }
{
    match held {
        Tools::List(held) => write_items(writer, "tool", held, target),
        Tools::Object {
            services,
            components,
        } => write_parts(writer, services, components, target),
    }
}

impl Element for Tools {
    ghost keeps = { refl };

    fn write_as(&self, writer: &mut EventWriter, tag: &str, target: Target) -> WriteResult {
        write_start_tag(target.alloc, writer, tag)?;
        write_content(writer, self, target)?;
        write_close_tag(target.alloc, writer, tag)
    }
}

impl HasContent for Tools {
    fn has_content(&self) -> bool {
        true
    }
}

impl Tagged for Tools {
    ghost own_name = { codes "tools" };

    fn own_name() -> &'static str {
        "tools"
    }
}
