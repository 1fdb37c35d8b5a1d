//! Laws of the constants that definitions name.
ghost use Rattle.driver_ops.specs.Keys.{HaveTexts};

/// The keys of options and replies that stand in this crate have these texts.
pub fn the_keys_have_their_texts()
    ensures { HaveTexts }
{}
