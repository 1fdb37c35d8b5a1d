//! Where the ids of sessions and documents come from.
ghost use Rattle.std.specs.Prelude.{◌≡◌, List, [], ◌∷◌};
ghost use Rattle.driver_link.specs.Ids.{IdsToCome};
ghost use Rattle.driver_link.specs.declared.ids.IdKind.{IdKind as Kind};
ghost use Rattle.driver_link.specs.declared.ids.IdKind.TheVariants.{Session, Object};

/// Whose id is drawn.
#[derive(Clone, Copy, Debug, PartialEq, Eq)]
pub enum IdKind {
    Session,
    Object,
}

/// A source of ids that tells those to come.
pub trait IdSource {
    // The id of a kind that it gives after these draws, the next draw first.
    ghost to_come: { Self → IdsToCome };

    /// The next session id.
    fn session_id(&mut self) -> [u8; 16]
        ensures next { result ≡ to_come self.old [] Session }
        ensures rest { (kinds : List Kind) (kind : Kind) →
            to_come self.new kinds kind ≡ to_come self.old (Session ∷ kinds) kind };

    /// The next object id.
    fn object_id(&mut self) -> [u8; 12]
        ensures next { result ≡ to_come self.old [] Object }
        ensures rest { (kinds : List Kind) (kind : Kind) →
            to_come self.new kinds kind ≡ to_come self.old (Object ∷ kinds) kind };
}
