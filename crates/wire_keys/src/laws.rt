//! Laws of the constants that definitions name.
ghost use Rattle.wire_keys.specs.Keys.{HaveTexts};

/// The keys, names of commands and messages have these texts.
pub fn the_keys_have_their_texts()
    ensures { HaveTexts }
{}
