//! A law of the constants that definitions name.
ghost use Rattle.memory_links.specs.FakeAddress.{IsFakeAddress};

/// A fake link's server that was asked for no other stands here.
pub fn a_fake_server_has_its_address()
    ensures { IsFakeAddress }
{}
