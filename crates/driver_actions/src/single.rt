//! Single writes of a client.
ghost use Rattle.std.specs.Prelude.{◌≡◌, IfErr};
ghost use Rattle.driver_attempt.specs.Client.{options_of};
ghost use Rattle.driver_attempt.specs.Failures.{MemoryAlone};
ghost use Rattle.driver_attempt.specs.Moment.{moment_of};
ghost use Rattle.driver_actions.specs.Causes.{WriteCaused};
ghost use Rattle.driver_actions.specs.SingleCalls.{Makes, first_place};
ghost use Rattle.driver_actions.specs.SingleCompleteness.{CompletesSingle, RaisesNumbers};
ghost use Rattle.driver_actions.specs.SingleEntries.{KeepsSingle, OkHasEntry};
ghost use Rattle.driver_inputs.specs.Calls.{written};
ghost use Rattle.driver_inputs.specs.Forms.{form_of};

use crate::delete::delete;
use crate::find::{find_one_and_delete, find_one_and_replace, find_one_and_update};
use crate::insert::insert_one;
use crate::update::{replace, update};
use driver_attempt::{Client, Outside};
use driver_error::Result;
use driver_inputs::{SingleAnswer, SingleWrite};
use driver_link::{Clock, Link, Place};
use driver_session::SessionStore;
use rand_core::Rng;
use std::alloc::Global;

/// Writes of one statement each, which a client makes outside transactions.
pub trait SingleWrites {
    /// Makes a single write, in the first place of the current call (`outside.call`).
    fn single<L: Link, K: Clock, R: Rng>(
        &mut self,
        alloc: Global,
        write: &SingleWrite,
        outside: &mut Outside<L, K, R>,
    ) -> Result<SingleAnswer>;
}

impl<S: SessionStore> SingleWrites for Client<S> {
    /// Makes a single write: its input is judged before anything is drawn or asked of the link, then its operation
    /// is executed (`makes`), and each error has its cause (`cause`). Where store and link tell, and such a write
    /// may be made there, it keeps what stands between the operations of one client (`keeps`), and an Ok has its
    /// entry in the log (`entry`); a valid one whose part of the schedule is gentle ends well (`complete`), and the
    /// numbers of idle sessions rise by one at most (`raises`). An error of want of memory tells of nothing else
    /// (`memory`).
    fn single<L: Link, K: Clock, R: Rng>(
        &mut self,
        alloc: Global,
        write: &SingleWrite,
        outside: &mut Outside<L, K, R>,
    ) -> Result<SingleAnswer>
        ensures makes { Makes
            (moment_of S.tells L.tells K.tells R.stream self.old outside.old)
            (moment_of S.tells L.tells K.tells R.stream self.new outside.new)
            (form_of write.now) (first_place outside.old.call) result }
        ensures cause { WriteCaused
            (moment_of S.tells L.tells K.tells R.stream self.old outside.old)
            (moment_of S.tells L.tells K.tells R.stream self.new outside.new)
            (form_of write.now) result }
        ensures keeps { KeepsSingle
            (moment_of S.tells L.tells K.tells R.stream self.old outside.old)
            (moment_of S.tells L.tells K.tells R.stream self.new outside.new)
            (first_place outside.old.call) }
        ensures entry { OkHasEntry
            (moment_of S.tells L.tells K.tells R.stream self.old outside.old)
            (moment_of S.tells L.tells K.tells R.stream self.new outside.new)
            (written write.now) (first_place outside.old.call) result }
        ensures complete { CompletesSingle
            (moment_of S.tells L.tells K.tells R.stream self.old outside.old)
            (moment_of S.tells L.tells K.tells R.stream self.new outside.new)
            (form_of write.now) (first_place outside.old.call) result }
        ensures raises { RaisesNumbers
            (moment_of S.tells L.tells K.tells R.stream self.old outside.old)
            (moment_of S.tells L.tells K.tells R.stream self.new outside.new) }
        ensures memory { IfErr result (λ error. MemoryAlone error) }
        ensures options { options_of self.new ≡ options_of self.old }
        ensures call { outside.new.call ≡ outside.old.call }
    {
        let place = Place {
            call: outside.call,
            index: 0,
        };
        make_in(alloc, self, outside, write, place)
    }
}

/// Makes a single write in a place, by its kind.
fn make_in<S: SessionStore, L: Link, K: Clock, R: Rng>(
    alloc: Global,
    client: &mut Client<S>,
    outside: &mut Outside<L, K, R>,
    write: &SingleWrite,
    place: Place,
) -> Result<SingleAnswer>
    ensures makes { Makes
        (moment_of S.tells L.tells K.tells R.stream client.old outside.old)
        (moment_of S.tells L.tells K.tells R.stream client.new outside.new)
        (form_of write.now) place result }
    ensures cause { WriteCaused
        (moment_of S.tells L.tells K.tells R.stream client.old outside.old)
        (moment_of S.tells L.tells K.tells R.stream client.new outside.new)
        (form_of write.now) result }
    ensures memory { IfErr result (λ error. MemoryAlone error) }
    ensures options { options_of client.new ≡ options_of client.old }
    ensures call { outside.new.call ≡ outside.old.call }
{
    match write {
        SingleWrite::InsertOne(write) => insert_one(alloc, client, outside, write, place),
        SingleWrite::UpdateOne(write) => update(alloc, client, outside, write, false, place),
        SingleWrite::UpdateMany(write) => update(alloc, client, outside, write, true, place),
        SingleWrite::ReplaceOne(write) => replace(alloc, client, outside, write, place),
        SingleWrite::DeleteOne(write) => delete(alloc, client, outside, write, false, place),
        SingleWrite::DeleteMany(write) => delete(alloc, client, outside, write, true, place),
        SingleWrite::FindOneAndDelete(write) => {
            find_one_and_delete(alloc, client, outside, write, place)
        }
        SingleWrite::FindOneAndUpdate(write) => {
            find_one_and_update(alloc, client, outside, write, place)
        }
        SingleWrite::FindOneAndReplace(write) => {
            find_one_and_replace(alloc, client, outside, write, place)
        }
    }
}
