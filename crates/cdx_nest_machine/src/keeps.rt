//! What contracts say of the events that were taken.

/// What takes the events of an element of one of several kinds, as contracts see it.
pub trait HoldsBegun {
    ghost use Rattle.std.specs.Prelude.{ℕ};
    ghost use Rattle.cdx_models.specs.declared.bom.SpecVersion.{SpecVersion};
    ghost use Rattle.cdx_schema.specs.Depth.{Depth};
    ghost use Rattle.cdx_machine.specs.Begun.{Begun};

    /// The names of the kinds.
    type Sort: Drop;

    /// What is kept of the events so far of an element that is read as this: in a version, with the element's start at a
    /// place, at a depth.
    ghost holds: { Self.Sort → Self → SpecVersion → ℕ → Depth → Begun → Type 0 };
}
