//! The law of the constant that definitions name.
ghost use Rattle.std.specs.Prelude.{◌≡◌};
ghost use Rattle.script_run.specs.declared.streams.TheConstants.{LIMIT};

/// The input has so many bytes at most.
pub fn the_input_has_its_limit()
    ensures { LIMIT ≡ 16777216 }
{}
