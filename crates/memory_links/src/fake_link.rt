//! A link whose answers are chosen beforehand, for tests of what stands above a link.
ghost use Rattle.std.specs.Prelude.{◌≡◌, ◌<◌, ◌++◌, ◌∷◌, [], length, slice_get, Some, IfOk, OnOk, OnErr};
ghost use Rattle.std.specs.Option.{option_copied};
ghost use Rattle.memory_links.specs.FakeLink.{FindsNewest, address_for as selected_address, description_at as given_description, step_at as taken_step, note_of as taken_note, fresh_link};
ghost use Rattle.driver_link.specs.LinkState.{without_newest};

use bson_lite::{Bytes, List, Text, TryClone};
use driver_error::{Error, IoKind};
use driver_link::{Answered, Frame, Link, LinkCall, LinkError, LinkFault, Place};
use driver_options::{Address, Asked, Conn, Description, SelectionCriteria};
use std::alloc::{AllocError, Global};
use std::marker::Model;

/// The host that is selected where no address is asked for.
pub const HOST: &str = "fake";

/// Its port.
pub const PORT: u16 = 27017;

/// What one exchange of a fake link answers.
#[derive(Debug, Drop)]
pub enum FakeStep {
    /// The bytes of a reply.
    Reply(Bytes),
    /// A fault without labels.
    Fault(LinkFault),
}

impl TryClone for FakeStep {
    fn try_clone(&self, alloc: Global) -> Result<FakeStep, AllocError> {
        Ok(match self {
            FakeStep::Reply(bytes) => FakeStep::Reply(bytes.try_clone(alloc)?),
            FakeStep::Fault(fault) => FakeStep::Fault(fault.try_clone(alloc)?),
        })
    }
}

/// A connection as a link notes it: unlike the connection it may be let go.
#[derive(Debug)]
pub struct NotedConn {
    address: Address,
    description: Description,
    number: u64,
}

impl Drop for NotedConn {
    fn drop(self) {
        let NotedConn {
            address,
            description: _,
            number: _,
        } = self;
        drop(address);
    }
}

impl Model for NotedConn {
    ghost use Rattle.std.specs.Coded.{codes};
    ghost use Rattle.driver_options.specs.contracts.options.Conn as conn_contract;
    ghost use Rattle.driver_options.specs.declared.options.Conn.{Conn};

    ghost Value = { Conn };

    ghost coded = { Prim.hlevel (codes, conn_contract.the_row.coded) };

    ghost view = { λ conn. record {
      address = conn.address;
      description = conn.description;
      number = conn.number;
    } };
}

impl NotedConn {
    /// A note of the connection with these parts.
    fn new(address: Address, description: Description, number: u64) -> NotedConn
        ensures { result ≡ record { address = address; description = description; number = number } }
    {
        NotedConn {
            address,
            description,
            number,
        }
    }

    /// The number of the connection.
    pub fn number(&self) -> u64
        ensures { result ≡ self.now.number }
    {
        self.number
    }

    /// The address that it leads to.
    pub fn address(&self) -> &Address
        ensures { result.now ≡ self.now.address }
    {
        &self.address
    }
}

/// A link without a server, which answers by its steps and keeps what it was asked and given.
#[derive(Debug)]
pub struct FakeLink {
    descriptions: List<Description>,
    steps: List<FakeStep>,
    check_outs: u64,
    exchanges: u64,
    asked: List<Asked>,
    addresses: List<Address>,
    connections: List<NotedConn>,
    out: Vec<NotedConn>,
    frames: List<Frame>,
    over: List<u64>,
    answered: List<Answered>,
    faults: u64,
}

impl Drop for FakeLink {
    fn drop(self) {
        let FakeLink {
            descriptions,
            steps,
            check_outs: _,
            exchanges: _,
            asked,
            addresses,
            connections,
            out,
            frames,
            over,
            answered,
            faults: _,
        } = self;
        drop(descriptions);
        drop(steps);
        drop(asked);
        drop(addresses);
        drop(connections);
        drop(out);
        drop(frames);
        drop(over);
        drop(answered);
    }
}

impl Model for FakeLink {
    ghost use Rattle.std.specs.Prelude.{◌<◌, length};
    ghost use Rattle.memory_links.specs.FakeLink.{Fake};

    ghost Value = { Fake };

    ghost view = { λ link. record {
      descriptions = link.descriptions;
      steps = link.steps;
      check_outs = link.check_outs;
      exchanges = link.exchanges;
      asked = link.asked;
      addresses = link.addresses;
      connections = link.connections;
      out = link.out.items;
      frames = link.frames;
      over = link.over;
      answered = link.answered;
      faults = link.faults;
    } };

    ghost invariant = { λ link. 0 < length link.descriptions };
}

impl FakeLink {
    /// A link that has had no calls. It takes no memory.
    pub fn new(alloc: Global, descriptions: List<Description>, steps: List<FakeStep>) -> FakeLink
        requires { 0 < length descriptions }
        ensures { result ≡ fresh_link descriptions steps }
    {
        FakeLink {
            descriptions,
            steps,
            check_outs: 0,
            exchanges: 0,
            asked: List::new(alloc),
            addresses: List::new(alloc),
            connections: List::new(alloc),
            out: Vec::new(alloc),
            frames: List::new(alloc),
            over: List::new(alloc),
            answered: List::new(alloc),
            faults: 0,
        }
    }

    /// What each selection asked, the oldest first.
    pub fn asked(&self) -> &[Asked]
        ensures { result.now ≡ self.now.asked }
    {
        self.asked.as_slice()
    }

    /// What each selection answered, the oldest first.
    pub fn addresses(&self) -> &[Address]
        ensures { result.now ≡ self.now.addresses }
    {
        self.addresses.as_slice()
    }

    /// The connections that were checked out, the oldest first.
    pub fn connections(&self) -> &[NotedConn]
        ensures { result.now ≡ self.now.connections }
    {
        self.connections.as_slice()
    }

    /// Those of them that were not handed back.
    pub fn out(&self) -> &[NotedConn]
        ensures { result.now ≡ self.now.out }
    {
        self.out.as_slice()
    }

    /// The numbers of the connections that the frames went over, the oldest first.
    pub fn over(&self) -> &[u64]
        ensures { result.now ≡ self.now.over }
    {
        self.over.as_slice()
    }

    /// The frames of its exchanges, the oldest first.
    pub fn frames(&self) -> &[Frame]
        ensures { result.now ≡ self.now.frames }
    {
        self.frames.as_slice()
    }

    /// What its exchanges answered, the oldest first.
    pub fn answered(&self) -> &[Answered]
        ensures { result.now ≡ self.now.answered }
    {
        self.answered.as_slice()
    }

    /// How many of its answers were faults. The count stands still at the greatest u64.
    pub fn faults(&self) -> u64
        ensures { result ≡ self.now.faults }
    {
        self.faults
    }
}

impl Link for FakeLink {
    ghost use Rattle.std.specs.Prelude.{◌≡◌, Ok, None, Some, true, IfSome, slice_get};
    ghost use Rattle.std.specs.Option.{option_copied, option_map};
    ghost use Rattle.memory_links.specs.FakeLink.{FakeChecksIn, FakeChecksOut, FakeExchanges, FakeSelects, fake_tells};
    ghost use Rattle.driver_link.specs.LinkCalls.{AsksSupport, ChecksInConnection, ChecksOutConnection, ExchangesFrame, Reauthenticates, SelectsServer};
    ghost use Rattle.driver_link.specs.LinkState.{setup_of};
    ghost use Rattle.driver_link.specs.Reads.{Reads};
    ghost use Rattle.driver_link.specs.declared.machine.Send.{Send as Sent};

    ghost tells = { fake_tells };

    fn select(
        &mut self,
        alloc: Global,
        criteria: Option<&SelectionCriteria>,
        deprioritized: &[Address],
    ) -> Result<Address, LinkError>
        ensures told { SelectsServer (fake_tells self.old) (fake_tells self.new)
            (record { criteria = option_copied criteria.entry; deprioritized = deprioritized.now }) result }
        ensures selects { FakeSelects self.old self.new
            (record { criteria = option_copied criteria.entry; deprioritized = deprioritized.now }) result }
    {
        let address = address_for(alloc, criteria)?;
        let asked = Asked {
            criteria: copied_criteria(alloc, criteria)?,
            deprioritized: copied_addresses(alloc, deprioritized)?,
        };
        let noted = address.try_clone(alloc)?;
        push_both(&mut self.asked, &mut self.addresses, asked, noted)?;
        Ok(address)
    }

    fn is_sharded(&self) -> bool
        ensures told { IfSome (setup_of (fake_tells self.now)) (λ setup. result ≡ setup.description.sharded) }
        ensures first { option_map (λ description. description.sharded) (slice_get self.now.descriptions 0)
            ≡ Some result }
    {
        self.descriptions.as_slice()[0].sharded
    }

    fn session_timeout_ms(&self) -> Option<u64>
        ensures told { IfSome (setup_of (fake_tells self.now)) (λ setup. result ≡ setup.timeout_ms) }
        ensures none { result ≡ None }
    {
        None
    }

    fn transaction_support(&mut self, _alloc: Global) -> Result<bool, LinkError>
        ensures told { AsksSupport (fake_tells self.old) (fake_tells self.new) result }
        ensures supported { result ≡ Ok true }
        ensures unchanged { self.new ≡ self.old }
    {
        Ok(true)
    }

    fn check_out(&mut self, alloc: Global, address: &Address) -> Result<Conn, LinkError>
        ensures told { ChecksOutConnection (fake_tells self.old) (fake_tells self.new) address.now result }
        ensures checks_out { FakeChecksOut self.old self.new address.now result }
    {
        let number = self.check_outs;
        let description = description_at(self.descriptions.as_slice(), number);
        let noted = NotedConn::new(address.try_clone(alloc)?, description, number);
        let lent = NotedConn::new(address.try_clone(alloc)?, description, number);
        let address = address.try_clone(alloc)?;
        note_conn(&mut self.connections, &mut self.out, noted, lent)?;
        self.check_outs = number.saturating_add(1);
        Ok(Conn {
            address,
            description,
            number,
        })
    }

    fn exchange(
        &mut self,
        alloc: Global,
        conn: &Conn,
        frame: &Frame,
        places: &[Place],
    ) -> Result<Bytes, LinkError>
        requires { (send : Sent) × Reads frame.now places.now send }
        ensures told { ExchangesFrame (fake_tells self.old) (fake_tells self.new)
            conn.now frame.now places.now result }
        ensures exchanges { FakeExchanges self.old self.new conn.now.number frame.now result }
    {
        let step = step_at(alloc, &self.steps, self.exchanges)?;
        let note = note_of(alloc, &step)?;
        let frame = frame.try_clone(alloc)?;
        let (frames, over) = (&mut self.frames, &mut self.over);
        keep(frames, over, &mut self.answered, frame, conn.number, note)?;
        self.exchanges = self.exchanges.saturating_add(1);
        match step {
            FakeStep::Reply(reply) => Ok(reply),
            FakeStep::Fault(fault) => {
                self.faults = self.faults.saturating_add(1);
                Err(LinkError::Fault {
                    fault,
                    labels: List::new(alloc),
                })
            }
        }
    }

    fn reauthenticate(&mut self, _alloc: Global, _conn: &Conn) -> Result<(), LinkError>
        ensures told { Reauthenticates (fake_tells self.old) (fake_tells self.new) result }
        ensures authenticated { result ≡ Ok tt }
        ensures unchanged { self.new ≡ self.old }
    {
        Ok(())
    }

    fn check_in(&mut self, conn: Conn)
        ensures told { ChecksInConnection (fake_tells self.old) (fake_tells self.new) conn }
        ensures checks_in { FakeChecksIn self.old self.new conn.number }
    {
        let Conn {
            address,
            description: _,
            number,
        } = conn;
        drop(address);
        hand_back(&mut self.out, number);
    }

    fn report(&mut self, _address: &Address, _error: &Error)
        ensures told { fake_tells self.new ≡ fake_tells self.old }
        ensures unchanged { self.new ≡ self.old }
    {}
}

/// The address that is selected: the one that is asked for, else that of a fake link.
fn address_for(alloc: Global, criteria: Option<&SelectionCriteria>) -> Result<Address, AllocError>
    ensures { IfOk result (λ address. address ≡ selected_address (option_copied criteria.entry)) }
{
    match criteria {
        Some(SelectionCriteria::Address(address)) => address.try_clone(alloc),
        _ => Ok(Address {
            host: Text::from_str(alloc, HOST)?,
            port: PORT,
        }),
    }
}

/// A copy of criteria where there are any.
fn copied_criteria(
    alloc: Global,
    criteria: Option<&SelectionCriteria>,
) -> Result<Option<SelectionCriteria>, AllocError>
    ensures { IfOk result (λ copy. copy ≡ option_copied criteria.entry) }
{
    match criteria {
        Some(criteria) => Ok(Some(criteria.try_clone(alloc)?)),
        None => Ok(None),
    }
}

/// A copy of a list of addresses.
fn copied_addresses(alloc: Global, addresses: &[Address]) -> Result<List<Address>, AllocError>
    ensures { IfOk result (λ copies. copies ≡ addresses.now) }
{
    let mut copies = List::with_capacity(alloc, addresses.len())?;
    for address in addresses {
        copies.push(address.try_clone(alloc)?)?;
    }
    Ok(copies)
}

/// The description that the check-out of a number gives: the one at that place, and the last one from then on.
fn description_at(descriptions: &[Description], number: u64) -> Description
    requires { 0 < length descriptions.now }
    ensures { given_description descriptions.now number ≡ Some result }
{
    let at = (number as usize).min(descriptions.len() - 1);
    descriptions[at]
}

/// A copy of the step of the exchange of a number: after the steps each connection is reset.
fn step_at(alloc: Global, steps: &List<FakeStep>, number: u64) -> Result<FakeStep, AllocError>
    ensures { IfOk result (λ step. step ≡ taken_step steps.now number) }
{
    match steps.get(number as usize) {
        Some(step) => step.try_clone(alloc),
        None => Ok(FakeStep::Fault(LinkFault::Io(IoKind::ConnectionReset))),
    }
}

/// What an exchange notes of its step.
fn note_of(alloc: Global, step: &FakeStep) -> Result<Answered, AllocError>
    ensures { IfOk result (λ note. note ≡ taken_note step.now) }
{
    Ok(match step {
        FakeStep::Reply(bytes) => Answered::Reply(bytes.try_clone(alloc)?),
        FakeStep::Fault(fault) => Answered::Fault {
            call: LinkCall::Exchange,
            fault: fault.try_clone(alloc)?,
            labels: List::new(alloc),
        },
    })
}

/// Notes a connection that is checked out, among all and among those that are out. A refusal changes
/// nothing.
fn note_conn(
    connections: &mut List<NotedConn>,
    out: &mut Vec<NotedConn>,
    noted: NotedConn,
    lent: NotedConn,
) -> Result<(), AllocError>
    ensures connections { OnOk result (connections.new ≡ connections.old ++ noted ∷ []) }
    ensures out { OnOk result (out.new.items ≡ out.old.items ++ lent ∷ []) }
    ensures connections_err { OnErr result (connections.new ≡ connections.old) }
    ensures out_err { OnErr result (out.new.items ≡ out.old.items) }
{
    out.reserve(1)?;
    connections.push(noted)?;
    out.push_reserved(lent);
    Ok(())
}

/// Takes the newest connection of a number from those that are out, where one is.
#[tactic(auto, using(crate::proofs::NewestOut::none_newest))]
fn hand_back(out: &mut Vec<NotedConn>, number: u64)
    ensures { out.new.items ≡ without_newest number out.old.items }
{
    if let Some(at) = newest_of(out.as_slice(), number) {
        drop(out.remove(at));
    }
}

/// Where the newest connection of a number stands.
fn newest_of(out: &[NotedConn], number: u64) -> Option<usize>
    ensures { FindsNewest number out.now result }
{
    let mut at = out.len();
    'back: while at > 0 {
        at -= 1;
        if out[at].number() == number {
            return Some(at);
        }
    }
    None
}

/// Appends an item to each of two lists. A refusal changes nothing.
fn push_both<A: Drop, B: Drop>(
    first: &mut List<A>,
    second: &mut List<B>,
    a: A,
    b: B,
) -> Result<(), AllocError>
    ensures first { OnOk result (first.new ≡ first.old ++ a ∷ []) }
    ensures second { OnOk result (second.new ≡ second.old ++ b ∷ []) }
    ensures first_err { OnErr result (first.new ≡ first.old) }
    ensures second_err { OnErr result (second.new ≡ second.old) }
{
    let had = first.len();
    first.push(a)?;
    match second.push(b) {
        Ok(()) => Ok(()),
        Err(refused) => {
            first.truncate(had);
            Err(refused)
        }
    }
}

/// Keeps the frame of an exchange, the number of its connection and its note. A refusal changes nothing.
fn keep(
    frames: &mut List<Frame>,
    over: &mut List<u64>,
    answered: &mut List<Answered>,
    frame: Frame,
    number: u64,
    note: Answered,
) -> Result<(), AllocError>
    ensures frame { OnOk result (frames.new ≡ frames.old ++ frame ∷ []) }
    ensures over { OnOk result (over.new ≡ over.old ++ number ∷ []) }
    ensures note { OnOk result (answered.new ≡ answered.old ++ note ∷ []) }
    ensures frames_err { OnErr result (frames.new ≡ frames.old) }
    ensures over_err { OnErr result (over.new ≡ over.old) }
    ensures answered_err { OnErr result (answered.new ≡ answered.old) }
{
    let had = over.len();
    over.push(number)?;
    match push_both(frames, answered, frame, note) {
        Ok(()) => Ok(()),
        Err(refused) => {
            over.truncate(had);
            Err(refused)
        }
    }
}
