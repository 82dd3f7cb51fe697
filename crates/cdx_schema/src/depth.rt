//! How deep a reader stands.

ghost use Rattle.std.specs.Prelude.{◌≡◌};
ghost use Rattle.cdx_schema.specs.Depth.{top};
ghost use Rattle.cdx_schema.specs.Depths.{depth_of};

/// How many components and how many services stand around a value.
#[derive(Clone, Copy, Debug, PartialEq, Eq)]
pub struct Depth {
    /// How many components stand around the value.
    pub components: u32,
    /// How many services stand around the value.
    pub services: u32,
}

impl Depth {
    /// Outside all components and services.
    pub fn top() -> Depth
        ensures { depth_of result ≡ top }
    {
        Depth {
            components: 0,
            services: 0,
        }
    }
}
