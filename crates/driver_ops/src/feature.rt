//! An option of an operation, which it may have, take from what it is run with, or not know.
ghost use Rattle.std.specs.Prelude.{◌≡◌};
ghost use Rattle.driver_ops.specs.Features.{is_set, is_supported};

/// What an operation says of one of its options.
#[derive(Debug, Drop)]
pub enum Feature<T> {
    /// It has this value.
    Set(T),
    /// It takes the value of what it is run with: its collection, its client or its transaction.
    Inherit,
    /// Its command has no such option.
    NotSupported,
}

impl<T> From<Option<T>> for Feature<T> {
    ghost use Rattle.std.specs.Prelude.{◌≡◌};
    ghost use Rattle.driver_ops.specs.Features.{feature_of};

    ghost from_gives = { λ value feature. feature ≡ feature_of value };

    fn from(value: Option<T>) -> Feature<T> {
        match value {
            Some(value) => Feature::Set(value),
            None => Feature::Inherit,
        }
    }
}

impl<T> Feature<T> {
    /// Whether it has a value of its own.
    pub fn is_set(&self) -> bool
        ensures { result ≡ is_set self.now }
    {
        match self {
            Feature::Set(_) => true,
            _ => false,
        }
    }

    /// Whether the command has such an option.
    pub fn supported(&self) -> bool
        ensures { result ≡ is_supported self.now }
    {
        match self {
            Feature::NotSupported => false,
            _ => true,
        }
    }
}
