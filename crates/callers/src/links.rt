//! A caller of `driver_link`: a server that takes writes, selected over any link.
ghost use Rattle.std.specs.Prelude.{◌≡◌, [], Some};
ghost use Rattle.driver_link.specs.Faults.{HasLinkCause};
ghost use Rattle.driver_link.specs.LinkState.{GainsAnswer, MayGain};
ghost use Rattle.driver_options.specs.declared.options.ReadPreference.TheVariants as preference;
ghost use Rattle.driver_options.specs.declared.options.SelectionCriteria.TheVariants as criteria;

use driver_link::{Link, LinkError};
use driver_options::{Address, ReadPreference, SelectionCriteria};
use std::alloc::Global;

/// The address of a server that takes writes: the primary is asked for. A fault comes only where the link's count of
/// faults rose or stands at its end, an address is told among those that were selected, and no connection is checked
/// out for it.
pub fn primary<L: Link>(alloc: Global, link: &mut L) -> Result<Address, LinkError>
    ensures cause { HasLinkCause (L.tells link.old).faults (L.tells link.new).faults result }
    ensures asked { MayGain (L.tells link.old).asked (L.tells link.new).asked
        (record { criteria = Some (criteria.ReadPreference preference.Primary); deprioritized = [] }) result }
    ensures told { GainsAnswer (L.tells link.old).addresses (L.tells link.new).addresses result }
    ensures out { (L.tells link.new).out ≡ (L.tells link.old).out }
{
    let criteria = SelectionCriteria::ReadPreference(ReadPreference::Primary);
    link.select(alloc, Some(&criteria), &[])
}
