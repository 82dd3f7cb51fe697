//! What counts of a road, and why it takes something.

ghost use Rattle.std.specs.Prelude.{◌≡◌, not, ◌&&◌, is_some};
ghost use Rattle.cdx_models.specs.Versions.{knows};
ghost use Rattle.cdx_schema.specs.Trips.{lowest_of};
ghost use Rattle.cdx_schema.specs.Laws.{xml_count};
ghost use Rattle.cdx_bom.specs.Docs.{hops_of};
ghost use Rattle.cdx_losses.specs.declared.loss.Reason.TheVariants.{Version, Xml};
ghost use Rattle.cdx_losses.specs.Losses.{if_so};
ghost use Rattle.cdx_losses.specs.LeftOut.{after_a_trip};

use crate::loss::Reason;
use cdx_bom::{Form, Hop};
use cdx_models::SpecVersion;

/// What counts of a road.
#[derive(Clone, Copy)]
pub(crate) struct Road {
    /// The lowest version of its hops.
    pub version: SpecVersion,
    /// How many of its hops go through XML, counted to two.
    pub trips: u8,
}

impl Road {
    /// Why it takes a member that is known from a version on.
    pub(crate) fn unknown<T>(self, since: SpecVersion, held: &Option<T>) -> Option<Reason>
        ensures { result ≡ if_so (is_some held.now && not (knows since self.version)) Version }
    {
        if held.is_some() && !since.is_known_to(self.version) {
            Some(Reason::Version)
        } else {
            None
        }
    }

    /// Why it takes what a trip through XML may leave out.
    pub(crate) fn unwritten(self, left_out: bool) -> Option<Reason>
        ensures { result ≡ if_so (after_a_trip self.trips left_out) Xml }
    {
        if self.trips > 0 && left_out {
            Some(Reason::Xml)
        } else {
            None
        }
    }
}

/// The lowest of a version and those of the hops.
pub(crate) fn lowest_version(first: SpecVersion, hops: &[Hop]) -> SpecVersion
    ensures { result ≡ lowest_of first (hops_of hops.now) }
{
    let mut lowest = first;
    for hop in hops {
        lowest = lowest.lowest(hop.version);
    }
    lowest
}

/// How many hops go through XML, counted to two.
pub(crate) fn xml_trips(hops: &[Hop]) -> u8
    ensures { result ≡ xml_count 2 (hops_of hops.now) }
{
    let mut trips = 0;
    for hop in hops {
        if hop.form == Form::Xml && trips < 2 {
            trips += 1;
        }
    }
    trips
}
