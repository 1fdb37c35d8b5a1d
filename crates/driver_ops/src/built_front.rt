//! How many writes a build took.
ghost use Rattle.std.specs.Prelude.{◌<◌};

/// The front of an operation's writes that a build took, by how many they are. Later builds take as many.
#[derive(Clone, Copy)]
pub struct BuiltFront {
    pub count: usize,
    ghost some: { 0 < count },
}
