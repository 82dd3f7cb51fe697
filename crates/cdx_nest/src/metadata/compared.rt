//! Whether metadata are equal.

ghost use Rattle.std.specs.Prelude.{◌≡◌};
ghost use Rattle.cdx_models.specs.Equal.{equal, equal_each};
ghost use Rattle.cdx_nest.specs.Trees.{metadata_tree, makers, terms};

use crate::metadata::Metadata;
use cdx_models::{HasTree, equal_row};

fn equal_makers(one: &Metadata, other: &Metadata) -> bool
    ensures { result ≡ equal_each (makers one.now) (makers other.now) }
{
    equal_row(&one.timestamp, &other.timestamp)
        && equal_row(&one.tools, &other.tools)
        && equal_row(&one.authors, &other.authors)
        && equal_row(&one.component, &other.component)
        && equal_row(&one.manufacture, &other.manufacture)
        && equal_row(&one.supplier, &other.supplier)
}

fn equal_terms(one: &Metadata, other: &Metadata) -> bool
    ensures { result ≡ equal_each (terms one.now) (terms other.now) }
{
    equal_row(&one.licenses, &other.licenses) && equal_row(&one.properties, &other.properties)
}

#[tactic(auto, using(crate::proofs::Compared::metadata_compared))]
pub(crate) fn equal_metadata(one: &Metadata, other: &Metadata) -> bool
    ensures { result ≡ equal (metadata_tree one.now) (metadata_tree other.now) }
{
    equal_makers(one, other) && equal_terms(one, other)
}
