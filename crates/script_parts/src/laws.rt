//! Laws of the constants that definitions name.
ghost use Rattle.script_parts.specs.Keys.{HasLimit, HaveTexts};

/// The keys of a script have these texts.
pub fn the_keys_have_their_texts()
    ensures { HaveTexts }
{}

/// A script has so many calls at most.
pub fn a_script_has_its_limit()
    ensures { HasLimit }
{}
