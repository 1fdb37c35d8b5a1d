//! Which runs of writes may go out together.
ghost use Rattle.std.specs.Prelude.{List};

/// A rule on runs of writes, for laws that hold whatever the rule is.
pub trait Rule {
    /// A write, or what the rule reads of it.
    type Write;

    /// Holds of the runs that may go out together.
    ghost fits: { Self → List Self.Write → Type 0 };
}
