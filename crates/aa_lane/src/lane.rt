//! A lane that runs: one owner sends requests, one server answers them, and neither waits.

ghost use Rattle.std.specs.Prelude.{◌≡◌, ◌≢◌, ℕ, ◌<◌, ◌≤◌, ◌++◌, [], true, false, IfOk, IfErr, OnOk, MatchResult, Some, length, replicate};
ghost use Rattle.aa_lane.specs.Shows.{first_view};
ghost use Rattle.aa_lane.specs.Ends.{LaneSeen, known, IsCapacity, Denies, MaySend, Refuses, new_owner, new_server, new_shutter};
ghost use Rattle.aa_lane.specs.Answers as answers;
ghost use Rattle.aa_lane.specs.Totals.{HasOneOrder};
ghost use Rattle.aa_lane.specs.declared.cells.Who.TheVariants.{ByOwner, ByServer, ByShutter};
ghost use Rattle.aa_lane.specs.declared.event.Event.TheVariants as event;
ghost use Rattle.aa_lane.specs.declared.event.Reply.TheVariants as says;

use crate::cells::{Cell, Key, View};
use crate::event::{LaneFault, MOST_ACCEPTED, MOST_SLOTS, SendFault};
use crate::plays::{Serves, Shutting};
use crate::rule::LaneRule;
use crate::steps;
use aa_machine::Machine;
use atomic_table::{Seat, Table};
use std::alloc::{AllocError, Global};
use std::marker::Model;

type LaneTable<'m, M> = Table<Cell<M>, View<M>, Key<'m, M>, LaneRule<M>, Global>;

/// A queue of at most `capacity` requests on their way, which one server answers in order.
///
/// It has two words and a ring of slots, and is shared by reference. Its three ends do all that happens at it, each by
/// single atomic steps, and no call waits. All orderings are sequentially consistent.
#[derive(Drop)]
pub struct Lane<'m, M: Machine> {
    machine: &'m M,
    tag: u32,
    capacity: u64,
    table: LaneTable<'m, M>,
}

impl<'m, M: Machine> Model for Lane<'m, M> {
    ghost use Rattle.std.specs.Prelude.{◌≡◌, ◌<◌};
    ghost use Rattle.aa_lane.specs.Ends.{LaneSeen};

    ghost Value = { LaneSeen M M.State };

    ghost view = { λ l. record { table = l.table.shared.table_id; machine = l.machine.now; start = l.table.shared.key.start; tag = l.tag } };

    ghost invariant = { λ l. (l.table.shared.key.machine.now ≡ l.machine.now) × (l.table.shared.key.capacity ≡ l.capacity) × (l.table.shared.table_id.slots ≡ l.capacity) × (l.table.shared.table_id.words ≡ 17) × (0 < l.capacity) };
}

// The owner's seat, with its own counts.
#[derive(Drop)]
struct Sending<M: Machine> {
    seat: Seat<Cell<M>, View<M>>,
    tag: u32,
    sent: u64,
    got: u64,
}

impl<M: Machine> Model for Sending<M> {
    ghost use Rattle.aa_lane.specs.Ends.{OwnerSeen, owner_seen, OwnerOk};

    ghost Value = { OwnerSeen M M.State M.Request M.Answer };

    ghost view = { λ o. owner_seen o.seat.table_id o.seat.me.0 o.tag };

    ghost invariant = { λ o. OwnerOk o.seat.table_id o.seat.me.0 o.seat.me.1 o.sent o.got };
}

/// The end that sends requests and collects the answers to them.
#[derive(Drop)]
pub struct Owner<M: Machine> {
    end: Sending<M>,
}

impl<M: Machine> Model for Owner<M> {
    ghost use Rattle.std.specs.Prelude.{◌≡◌, false};
    ghost use Rattle.aa_lane.specs.Ends.{OwnerSeen};

    ghost Value = { OwnerSeen M M.State M.Request M.Answer };

    ghost view = { λ o. o.end };

    ghost invariant = { λ o. o.end.left ≡ false };
}

/// A request that wasn't accepted, and why.
#[derive(Drop)]
pub struct Unsent<M: Machine> {
    pub fault: SendFault,
    pub request: M::Request,
}

/// A request, its number, counted from 0, and its answer.
#[derive(Drop)]
pub struct Answered<M: Machine> {
    pub number: u64,
    pub request: M::Request,
    pub answer: M::Answer,
}

impl<M: Machine> Sending<M> {
    fn send(&mut self, lane: &Lane<M>, request: M::Request) -> Result<u64, Unsent<M>>
        requires lane { self.old.lane ≡ known lane.now }
        requires stays { self.old.left ≡ false }
        ensures accepted { IfOk result (λ n. MaySend self.old × (n ≡ length self.old.sent) × (self.new ≡ answers.sent_of self.old request self.new.log)) }
        ensures open { OnOk result (self.old.closed ≢ true) }
        ensures unsent { IfErr result (λ u. (u.request ≡ request) × Refuses u.fault request self.old self.new) }
        ensures happens { answers.SendHappens M.next M.reply lane.now self.old request self.new result }
        ensures gotten { self.old.got ≤ length self.old.sent }
    {
        if self.sent == MOST_ACCEPTED {
            return Err(Unsent {
                fault: SendFault::Spent,
                request,
            });
        }
        if self.sent - self.got == lane.capacity {
            return Err(Unsent {
                fault: SendFault::Full,
                request,
            });
        }
        let slot = (self.sent % lane.capacity) as usize;
        match steps::send(&lane.table.shared, &mut self.seat, self.sent, slot, request) {
            Ok(()) => {
                let number = self.sent;
                self.sent += 1;
                Ok(number)
            }
            Err(request) => Err(Unsent {
                fault: SendFault::Closed,
                request,
            }),
        }
    }

    fn collect(&mut self, lane: &Lane<M>) -> Option<Answered<M>>
        requires { self.old.lane ≡ known lane.now }
        ensures look { answers.Collects M.next M.reply lane.now self.old self.new result }
        ensures happens { answers.CollectHappens M.next M.reply lane.now self.old self.new result }
    {
        let slot = (self.got % lane.capacity) as usize;
        let number = self.got;
        let (_found, pair) = steps::collect(&lane.table.shared, &mut self.seat, number, slot);
        match pair {
            Some((request, answer)) => {
                self.got += 1;
                Some(Answered {
                    number,
                    request,
                    answer,
                })
            }
            None => None,
        }
    }

    fn exit(&mut self, lane: &Lane<M>)
        requires { self.old.lane ≡ known lane.now }
        ensures left { self.new ≡ answers.left_of self.old self.new.log }
        ensures happens { answers.HappensAt M.next M.reply lane.now ByOwner self.old.log event.Shut (says.Count (length self.old.sent)) self.new.log }
    {
        steps::exit(&lane.table.shared, &mut self.seat);
    }
}

impl<M: Machine> Owner<M> {
    /// The tag of the lane that this end is of.
    pub fn tag(&self) -> u32
        ensures { result ≡ self.now.lane.tag }
    {
        self.end.tag
    }

    /// Sends a request, by one try at the gate. Accepted, it has the number that is answered, counted from 0.
    ///
    /// Errors, in this order: `Spent` where 2^62 - 1 requests were accepted; `Full` where as many requests as the capacity
    /// aren't collected yet; `Closed` where the lane was shut, which its shutter alone can have done. The owner's own counts
    /// decide the first two, without a step. A request that isn't accepted comes back.
    // No clause can name the gate's value at the step. That Closed is answered only where the gate was shut is said by
    // `world_laws` and `notes_stay_true`. An accepted request comes of an owner that hasn't found the lane shut, so a loop that
    // met Closed need not try again.
    pub fn send(&mut self, lane: &Lane<M>, request: M::Request) -> Result<u64, Unsent<M>>
        requires { self.old.lane ≡ known lane.now }
        ensures accepted { IfOk result (λ n. MaySend self.old × (n ≡ length self.old.sent) × (self.new ≡ answers.sent_of self.old request self.new.log)) }
        ensures open { OnOk result (self.old.closed ≢ true) }
        ensures unsent { IfErr result (λ u. (u.request ≡ request) × Refuses u.fault request self.old self.new) }
        ensures happens { answers.SendHappens M.next M.reply lane.now self.old request self.new result }
        ensures collected { answers.collected_by M.next M.reply lane.now self.new ≡ answers.collected_by M.next M.reply lane.now self.old }
    {
        self.end.send(lane, request)
    }

    /// Collects the next answer if there is one, by one load of the number of answers.
    pub fn collect(&mut self, lane: &Lane<M>) -> Option<Answered<M>>
        requires { self.old.lane ≡ known lane.now }
        ensures look { answers.Collects M.next M.reply lane.now self.old self.new result }
        ensures happens { answers.CollectHappens M.next M.reply lane.now self.old self.new result }
        ensures collected { answers.collected_by M.next M.reply lane.now self.new ≡ answers.collected_by M.next M.reply lane.now self.old ++ answers.look result }
    {
        self.end.collect(lane)
    }

    /// Shuts the lane and leaves it. No request is accepted any more; the answers to come can still be collected.
    pub fn exit(self, lane: &Lane<M>) -> Leaver<M>
        requires { self.lane ≡ known lane.now }
        ensures left { result ≡ answers.left_of self result.log }
        ensures happens { answers.HappensAt M.next M.reply lane.now ByOwner self.log event.Shut (says.Count (length self.sent)) result.log }
    {
        let Owner { mut end } = self;
        end.exit(lane);
        Leaver { owner: end }
    }
}

/// An owner that has left its lane, and can only collect.
#[derive(Drop)]
pub struct Leaver<M: Machine> {
    owner: Sending<M>,
}

impl<M: Machine> Model for Leaver<M> {
    ghost use Rattle.std.specs.Prelude.{◌≡◌, true};
    ghost use Rattle.aa_lane.specs.Ends.{OwnerSeen};

    ghost Value = { OwnerSeen M M.State M.Request M.Answer };

    ghost view = { λ o. o.owner };

    ghost invariant = { λ o. o.owner.left ≡ true };
}

impl<M: Machine> Leaver<M> {
    /// The tag of the lane that this end is of.
    pub fn tag(&self) -> u32
        ensures { result ≡ self.now.lane.tag }
    {
        self.owner.tag
    }

    /// Collects the next answer if there is one, by one load of the number of answers.
    pub fn collect(&mut self, lane: &Lane<M>) -> Option<Answered<M>>
        requires { self.old.lane ≡ known lane.now }
        ensures look { answers.Collects M.next M.reply lane.now self.old self.new result }
        ensures happens { answers.CollectHappens M.next M.reply lane.now self.old self.new result }
        ensures collected { answers.collected_by M.next M.reply lane.now self.new ≡ answers.collected_by M.next M.reply lane.now self.old ++ answers.look result }
    {
        self.owner.collect(lane)
    }

    /// The number of all requests that the lane ever accepted.
    pub fn accepted(&self) -> u64
        ensures { result ≡ length self.now.sent }
    {
        self.owner.sent
    }
}

/// The end that answers requests.
#[derive(Drop)]
pub struct Server<M: Machine> {
    seat: Seat<Cell<M>, View<M>>,
    tag: u32,
    done: u64,
    state: M::State,
}

impl<M: Machine> Model for Server<M> {
    ghost use Rattle.aa_lane.specs.Ends.{ServerSeen, server_seen, ServerOk};

    ghost Value = { ServerSeen M M.State M.Request M.Answer };

    ghost view = { λ o. server_seen o.seat.table_id o.seat.me.0 o.tag };

    ghost invariant = { λ o. ServerOk M.next M.reply o.seat.table_id o.seat.me.0 o.seat.me.1 o.done o.state };
}

/// A server with a request in hand. Where it is dropped, so is the request, and the lane answers no more.
#[derive(Drop)]
pub struct Busy<M: Machine> {
    seat: Seat<Cell<M>, View<M>>,
    tag: u32,
    done: u64,
    state: M::State,
    request: M::Request,
}

impl<M: Machine> Model for Busy<M> {
    ghost use Rattle.aa_lane.specs.Ends.{BusySeen, server_seen, BusyOk};

    ghost Value = { BusySeen M M.State M.Request M.Answer };

    ghost view = { λ o. record { server = server_seen o.seat.table_id o.seat.me.0 o.tag; request = o.request } };

    ghost invariant = { λ o. BusyOk M.next M.reply o.seat.table_id o.seat.me.0 o.seat.me.1 o.done o.state o.request };
}

/// What a look for the next request found.
#[derive(Drop)]
pub enum Taken<M: Machine> {
    /// There is a request, and the server has it in hand.
    Job(Busy<M>),
    /// There is no request now.
    Idle(Server<M>),
    /// The lane is shut, and all accepted requests are answered.
    Settled(Server<M>),
}

/// What a call to serve came to.
#[derive(Drop)]
pub enum Served<M: Machine> {
    /// One request was answered.
    Did(Server<M>),
    /// There was no request.
    Idle(Server<M>),
    /// The lane is shut, and all accepted requests are answered.
    Settled(Server<M>),
}

impl<M: Machine> Server<M> {
    /// The tag of the lane that this end is of.
    pub fn tag(&self) -> u32
        ensures { result ≡ self.now.lane.tag }
    {
        let Server { tag, .. } = self;
        *tag
    }

    /// Takes the next request if there is one, by one load of the gate.
    pub fn take(self, lane: &Lane<M>) -> Taken<M>
        requires { self.lane ≡ known lane.now }
        ensures taken { answers.Takes self result }
        ensures happens { answers.TakeHappens M.next M.reply lane.now self result }
        ensures settled { self.settled ≡ true → answers.SaysSettled result }
    {
        let Server {
            mut seat,
            tag,
            done,
            state,
        } = self;
        let slot = (done % lane.capacity) as usize;
        let (gate, request) = steps::take(&lane.table.shared, &mut seat, done, slot);
        if let Some(request) = request {
            return Taken::Job(Busy {
                seat,
                tag,
                done,
                state,
                request,
            });
        }
        let server = Server {
            seat,
            tag,
            done,
            state,
        };
        if gate % 2 == 1 {
            Taken::Settled(server)
        } else {
            Taken::Idle(server)
        }
    }

    /// Takes the next request if there is one, and answers it: `take`, and then `finish`.
    pub fn serve(self, lane: &Lane<M>) -> Served<M>
        requires { self.lane ≡ known lane.now }
        ensures served { answers.Serves self result }
        ensures happens { answers.ServeHappens M.next M.reply lane.now self result }
        ensures settled { self.settled ≡ true → answers.StaysSettled result }
    {
        match self.take(lane) {
            Taken::Job(busy) => Served::Did(busy.finish(lane)),
            Taken::Idle(server) => Served::Idle(server),
            Taken::Settled(server) => Served::Settled(server),
        }
    }
}

impl<M: Machine> Busy<M> {
    /// The tag of the lane that this end is of.
    pub fn tag(&self) -> u32
        ensures { result ≡ self.now.server.lane.tag }
    {
        let Busy { tag, .. } = self;
        *tag
    }

    /// The request in hand.
    pub fn request(&self) -> &M::Request
        ensures { result.now ≡ self.now.request }
    {
        &self.request
    }

    /// Decides the request by the lane's machine, and publishes the answer by one store of the number of answers.
    pub fn finish(self, lane: &Lane<M>) -> Server<M>
        requires { self.server.lane ≡ known lane.now }
        ensures finished { result ≡ answers.finished_of self.server result.log }
        ensures happens { answers.HappensAt M.next M.reply lane.now ByServer self.server.log event.Finish (says.Finished self.server.done) result.log }
    {
        let Busy {
            mut seat,
            tag,
            done,
            mut state,
            request,
        } = self;
        let slot = (done % lane.capacity) as usize;
        let answer = lane.machine.step(&mut state, &request);
        steps::finish(&lane.table.shared, &mut seat, done, slot, request, answer);
        Server {
            seat,
            tag,
            done: done + 1,
            state,
        }
    }
}

/// The end that shuts a lane from outside.
#[derive(Drop)]
pub struct Shutter<M: Machine> {
    seat: Seat<Cell<M>, View<M>>,
    tag: u32,
}

impl<M: Machine> Model for Shutter<M> {
    ghost use Rattle.aa_lane.specs.Ends.{ShutterSeen, shutter_seen, ShutterOk};

    ghost Value = { ShutterSeen M M.State M.Request M.Answer };

    ghost view = { λ o. shutter_seen o.seat.table_id o.seat.me.0 o.tag };

    ghost invariant = { λ o. ShutterOk o.seat.table_id o.seat.me.0 o.seat.me.1 };
}

impl<M: Machine> Shutter<M> {
    /// The tag of the lane that this end is of.
    pub fn tag(&self) -> u32
        ensures { result ≡ self.now.lane.tag }
    {
        let Shutter { tag, .. } = self;
        *tag
    }

    /// Shuts the lane, and gives the number of all requests that it accepted, the same each time.
    pub fn shut(&mut self, lane: &Lane<M>) -> u64
        requires { self.old.lane ≡ known lane.now }
        ensures shut { self.new ≡ answers.shut_of self.old result self.new.log }
        ensures happens { answers.HappensAt M.next M.reply lane.now ByShutter self.old.log event.Shut (says.Count result) self.new.log }
        ensures again { (c : ℕ) → self.old.count ≡ Some c → result ≡ c }
    {
        steps::shut(&lane.table.shared, &mut self.seat)
    }
}

/// The three ends of a lane, as `close` wants them back.
#[derive(Drop)]
pub struct Ends<M: Machine> {
    pub owner: Leaver<M>,
    pub server: Server<M>,
    pub shutter: Shutter<M>,
}

/// How many requests were accepted, answered and collected, and the state that the answered ones leave.
#[derive(Drop)]
pub struct Totals<M: Machine> {
    pub accepted: u64,
    pub answered: u64,
    pub collected: u64,
    pub state: M::State,
}

// Empty slots.
fn vacant<M: Machine>(alloc: Global, count: usize) -> Result<Vec<Cell<M>>, AllocError>
    ensures { IfOk result (λ v. v.items ≡ replicate count Cell.Vacant) }
{
    let mut slots = Vec::new(alloc);
    for i in 0..count {
        let _ = i;
        slots.reserve(1)?;
        slots.push_reserved(Cell::Vacant);
    }
    Ok(slots)
}

// A table with an open gate, no answer and empty slots, and its first seat, which has all three roles.
fn open_table<'m, M: Machine>(
    alloc: Global,
    machine: &'m M,
    capacity: u32,
    start: M::State,
) -> Result<(LaneTable<'m, M>, Seat<Cell<M>, View<M>>), AllocError>
    requires { 0 < capacity }
    ensures table { IfOk result (λ r. (r.0.shared.table_id.words ≡ 17) × (r.0.shared.table_id.slots ≡ capacity)) }
    ensures key { IfOk result (λ r. (r.0.shared.key.machine.now ≡ machine.now) × (r.0.shared.key.start ≡ start) × (r.0.shared.key.capacity ≡ capacity)) }
    ensures seat { IfOk result (λ r. (r.1.table_id ≡ r.0.shared.table_id) × (r.1.me ≡ (first_view r.0.shared.key, []))) }
{
    let slots = vacant(alloc, capacity as usize)?;
    let key = Key {
        machine,
        start,
        capacity: u64::from(capacity),
    };
    match LaneTable::<'m, M>::new(alloc, &[0; 17], slots, &key) {
        Ok(opened) => Ok(opened),
        Err(_) => Err(AllocError),
    }
}

// The three ends of a lane whose table was opened just now, given its first seat.
fn ends_of<'m, M: Machine>(
    table: &LaneTable<'m, M>,
    seat: Seat<Cell<M>, View<M>>,
    tag: u32,
    start: M::State,
) -> (Owner<M>, Server<M>, Shutter<M>)
    requires words { table.now.shared.table_id.words ≡ 17 }
    requires slots { IsCapacity table.now.shared.table_id.slots }
    requires start { table.now.shared.key.start ≡ start }
    requires seat { (seat.table_id ≡ table.now.shared.table_id) × (seat.me ≡ (first_view table.now.shared.key, [])) }
    ensures { let l : LaneSeen M M.State = record { table = table.now.shared.table_id; machine = table.now.shared.key.machine.now; start = table.now.shared.key.start; tag = tag } in
        (result.0 ≡ new_owner l) × (result.1 ≡ new_server l) × (result.2 ≡ new_shutter l) }
{
    let mut seat = seat;
    steps::ready(&table.shared, &mut seat);
    let second = table.shared.split_seat::<Serves>(&mut seat);
    let third = table.shared.split_seat::<Shutting>(&mut seat);
    let server = Server {
        seat: second,
        tag,
        done: 0,
        state: start,
    };
    let shutter = Shutter { seat: third, tag };
    let end = Sending {
        seat,
        tag,
        sent: 0,
        got: 0,
    };
    (Owner { end }, server, shutter)
}

impl<'m, M: Machine> Lane<'m, M> {
    /// Makes a lane with that many slots, and its three ends. `start` is the machine's state before the first request, and
    /// `tag` a number of the caller's, which the lane and its ends answer with. Only this call takes memory.
    ///
    /// Errors, in this order: `BadCapacity` where the capacity is 0 or over 1,024; `NoMemory`.
    pub fn new(
        alloc: Global,
        machine: &'m M,
        tag: u32,
        capacity: u32,
        start: M::State,
    ) -> Result<(Lane<'m, M>, Owner<M>, Server<M>, Shutter<M>), LaneFault>
        ensures lane { IfOk result (λ r. (r.0.machine ≡ machine.now) × (r.0.start ≡ start) × (r.0.table.slots ≡ capacity) × (r.0.tag ≡ tag)) }
        ensures ends { IfOk result (λ r. (r.1 ≡ new_owner r.0) × (r.2 ≡ new_server r.0) × (r.3 ≡ new_shutter r.0)) }
        ensures capacity { MatchResult result (λ _. IsCapacity capacity) (λ f. Denies f capacity) }
    {
        if capacity == 0 || capacity > MOST_SLOTS {
            return Err(LaneFault::BadCapacity);
        }
        let Ok((table, seat)) = open_table(alloc, machine, capacity, start) else {
            return Err(LaneFault::NoMemory);
        };
        let (owner, server, shutter) = ends_of(&table, seat, tag, start);
        let lane = Lane {
            machine,
            tag,
            capacity: u64::from(capacity),
            table,
        };
        Ok((lane, owner, server, shutter))
    }

    /// The number that the lane was made with.
    pub fn tag(&self) -> u32
        ensures { result ≡ self.now.tag }
    {
        self.tag
    }

    /// Closes the lane, and tells what became of it. What wasn't answered or collected is dropped.
    pub fn close(self, ends: Ends<M>) -> Totals<M>
        requires { (ends.owner.lane ≡ known self) × (ends.server.lane ≡ known self) × (ends.shutter.lane ≡ known self) }
        ensures { HasOneOrder M.next M.reply self.entry ends result }
    {
        let Lane { table, .. } = self;
        let Ends {
            owner,
            server,
            shutter,
        } = ends;
        let Leaver { owner: end } = owner;
        let Sending {
            seat,
            sent,
            got,
            ..
        } = end;
        let Server {
            seat: second,
            done,
            state,
            ..
        } = server;
        let Shutter { seat: third, .. } = shutter;
        steps::close(table, seat, second, third);
        Totals {
            accepted: sent,
            answered: done,
            collected: got,
            state,
        }
    }
}
