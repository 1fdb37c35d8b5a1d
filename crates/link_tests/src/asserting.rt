//! What a test asserts and what it takes for granted, each proved once here and not where it stands.
ghost use Rattle.std.specs.Prelude.{◌≡◌, Ok, true};

use std::fmt::Debug;
use std::process::Abort;

/// Ends the test, with the text, where something does not hold.
pub(crate) fn holds(rt: &impl Abort, is_so: bool, text: &str)
    ensures { is_so ≡ true }
{
    assert!(rt; is_so, "{text}");
}

/// Ends the test, with the text and both values, where what was found is not what was wanted.
pub(crate) fn alike<T: PartialEq + Debug + Drop>(rt: &impl Abort, found: T, wanted: T, text: &str) {
    assert!(rt; found == wanted, "{text}: {found:?} in place of {wanted:?}");
}

/// A result that is no fault here, where there is memory enough.
pub(crate) trait Made<T> {
    /// What was made, or the end of the test.
    fn made(self, rt: &impl Abort) -> T;
}

impl<T, E: Debug + Drop> Made<T> for Result<T, E> {
    fn made(self, rt: &impl Abort) -> T
        ensures { self ≡ Ok result }
    {
        self.expect(rt, "a fault that the test does not expect")
    }
}
