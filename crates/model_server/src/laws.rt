//! A law of the model server: where it stands.
ghost use Rattle.model_server.specs.ModelAddress.{IsModelAddress};

/// The model server stands here.
pub fn the_model_server_has_its_address()
    ensures { IsModelAddress }
{}
