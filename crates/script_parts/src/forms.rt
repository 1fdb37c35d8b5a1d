//! What readers ask of a value of JSON before they read its parts: that it is an object of certain keys, and for how
//! many items there is to be room; and why a value is not read.
ghost use Rattle.std.specs.Prelude.{◌≡◌, map};
ghost use Rattle.script_parts.specs.Json.{has_only, has_keys_among, among};
ghost use Rattle.script_parts.specs.inside.Tree.{view, members_view};

use crate::keys::MOST_CALLS;
use crate::tree::{Json, Members};
use std::alloc::AllocError;

/// Why a value was not read.
#[derive(Clone, Copy, PartialEq, Eq)]
pub enum Unread {
    /// It has not the form that is asked for.
    Wrong,
    Memory,
}

impl From<AllocError> for Unread {
    ghost use Rattle.std.specs.Prelude.{◌≡◌};
    ghost use Rattle.script_parts.specs.declared.forms.Unread.TheVariants.{Memory};

    ghost from_gives = { λ _ unread. unread ≡ Memory };

    fn from(_refused: AllocError) -> Unread {
        Unread::Memory
    }
}

/// For how many items of a value room is made before they are read: no more than a script has calls, since the first
/// item may be wrong.
pub fn room_for(value: &Json<'_, '_>) -> usize {
    let Some(mut items) = value.items() else {
        return 0;
    };
    for count in 0..MOST_CALLS {
        if items.next().is_none() {
            return count;
        }
    }
    MOST_CALLS
}

/// Whether a value is an object with no other keys than these.
#[tactic(auto, unfolding(crate::specs::Json::has_only), using(crate::proofs::OtherForms::has_none))]
pub fn is_object_of(value: &Json<'_, '_>, keys: &[&str]) -> bool
    ensures { result ≡ has_only (map (λ key. key.now) keys.now) (view value.now) }
{
    match value.members() {
        Some(members) => have_keys_among(members, keys),
        None => false,
    }
}

/// Whether each member's key is one of these.
#[tactic(auto, using(crate::proofs::MemberKeys::keys_view), unfolding(crate::specs::inside::Members::keys_in))]
fn have_keys_among(members: Members<'_, '_>, keys: &[&str]) -> bool
    ensures { result ≡ has_keys_among (map (λ key. key.now) keys.now) (members_view members.entry) }
{
    let mut rest = members;
    while let Some((key, _)) = rest.next() {
        if !is_among(key, keys) {
            return false;
        }
    }
    true
}

#[tactic(auto, unfolding(crate::specs::Json::among))]
fn is_among(key: &str, keys: &[&str]) -> bool
    ensures { result ≡ among (map (λ known. known.now) keys.now) key.now }
{
    for known in keys {
        if *known == key {
            return true;
        }
    }
    false
}
