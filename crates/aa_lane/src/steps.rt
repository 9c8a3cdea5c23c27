//! The steps of a seat at a lane's table.

ghost use Rattle.std.specs.Prelude.{◌≡◌, ◌≢◌, OnOk, cond, length, ◌+◌, ◌^◌, ◌/◌, ◌%◌, ◌<◌, ◌≤◌, ◌==◌, ◌||◌, ◌∷◌, ◌++◌, ℕ, MatchResult, MatchOption, true, false, [], slice_get, Some};
ghost use Rattle.atomic_table.specs.Table.{rest, turned};
ghost use Rattle.aa_lane.specs.Ends.{vacant};
ghost use Rattle.aa_lane.specs.Plays.{Gives, Makes, StillSettled, ready_view, sent_view, unsent_view, taken_view, idle_view, finished_view, collected_view, uncollected_view, shut_view, left_view};
ghost use Rattle.aa_lane.specs.Law.{StepsAreEvents, NotesStayTrue};
ghost use Rattle.aa_lane.specs.Log.{LogLaws};
ghost use Rattle.aa_lane.specs.Totals.{LastState, joined};
ghost use Rattle.std.specs.Slots.{IsFull};
ghost use Rattle.aa_lane.specs.Steps.{CanReady, CanSend, CanTake, CanFinish, CanCollect};
ghost use Rattle.aa_lane.specs.declared.cells.Cell.TheVariants.{Vacant};
ghost use Rattle.aa_lane.specs.declared.cells.Who.TheVariants.{ByOwner, ByServer, ByShutter};
ghost use Rattle.aa_lane.specs.declared.event.SendFault.TheVariants.{Closed as ClosedFault};
ghost use Rattle.aa_lane.specs.declared.event.Event.TheVariants as event;
ghost use Rattle.aa_lane.specs.declared.event.Reply.TheVariants as says;

use crate::cells::{Cell, Key, View};
use crate::plays::{Collects, Exits, Finishes, Readies, Sends, Serves, Shuts, Shutting, Takes};
use crate::rule::LaneRule;
use aa_machine::Machine;
use atomic_table::{Closed, Seat, Shared, Table};
use std::alloc::{Allocator, Global};

// Twice the number of accepted requests, and one more where the lane is shut.
pub const GATE: usize = 0;

// The number of answers. It stands 128 bytes behind the gate, so that the two never share a cache line, nor two lines that
// are loaded together. The words between are not used.
pub const DONE: usize = 16;

// Takes all slots.
pub fn ready<M: Machine>(
    shared: &Shared<Cell<M>, View<M>, Key<M>, LaneRule<M>>,
    seat: &mut Seat<Cell<M>, View<M>>,
)
    requires table { seat.old.table_id ≡ shared.now.table_id }
    requires ready { CanReady seat.old.table_id seat.old.me }
    ensures table { (seat.new.table_id ≡ seat.old.table_id) × (seat.new.id ≡ seat.old.id) }
    ensures ready { seat.new.me ≡ (ready_view seat.old.me.0, vacant seat.old.table_id.slots 0 seat.old.table_id.slots) }
{
    shared.load::<Readies>(seat, GATE);
}

// Loads the gate, and takes the next request if there is one.
pub fn take<M: Machine>(
    shared: &Shared<Cell<M>, View<M>, Key<M>, LaneRule<M>>,
    seat: &mut Seat<Cell<M>, View<M>>,
    done: u64,
    slot: usize,
) -> (u64, Option<M::Request>)
    requires table { seat.old.table_id ≡ shared.now.table_id }
    requires ready { CanTake seat.old.table_id seat.old.me done slot }
    ensures table { (seat.new.table_id ≡ seat.old.table_id) × (seat.new.id ≡ seat.old.id) }
    ensures small { result.0 < 2 ^ 64 }
    ensures taken { MatchOption result.1
        ((result.0 / 2 ≤ done) × (seat.new.me ≡ (idle_view seat.old.me.0 (result.0 / 2) (result.0 % 2 == 1) seat.new.me.0.server.log, [])))
        (λ q. (done < result.0 / 2) × (seat.new.me ≡ (taken_view seat.old.me.0 (result.0 / 2) q seat.new.me.0.server.log, (slot, Vacant) ∷ []))) }
    ensures happens { MatchOption result.1
        (Makes M.next M.reply seat.old.table_id.slots seat.old.me.0 ByServer event.Take (cond (result.0 % 2 == 1) says.Settled says.Idle) seat.new.me.0)
        (λ _. Makes M.next M.reply seat.old.table_id.slots seat.old.me.0 ByServer event.Take (says.Taken done) seat.new.me.0) }
    ensures settled { StillSettled seat.old.me.0 result.0 }
{
    let gate = shared.load::<Takes>(seat, GATE);
    if gate / 2 <= done {
        return (gate, None);
    }
    match shared.exchange(seat, slot, Cell::Vacant) {
        Cell::Asked(request) => (gate, Some(request)),
        _ => unreachable!(),
    }
}

// Publishes the answer to the request in hand.
pub fn finish<M: Machine>(
    shared: &Shared<Cell<M>, View<M>, Key<M>, LaneRule<M>>,
    seat: &mut Seat<Cell<M>, View<M>>,
    done: u64,
    slot: usize,
    request: M::Request,
    answer: M::Answer,
)
    requires table { seat.old.table_id ≡ shared.now.table_id }
    requires ready { CanFinish M.next M.reply seat.old.table_id seat.old.me done slot request answer }
    ensures table { (seat.new.table_id ≡ seat.old.table_id) × (seat.new.id ≡ seat.old.id) }
    ensures done { seat.new.me ≡ (finished_view seat.old.me.0 seat.new.me.0.server.log, []) }
    ensures happens { Makes M.next M.reply seat.old.table_id.slots seat.old.me.0 ByServer event.Finish (says.Finished done) seat.new.me.0 }
{
    drop(shared.exchange(seat, slot, Cell::Answered(request, answer)));
    shared.store::<Finishes>(seat, DONE, done + 1);
}

// Loads the number of answers, and collects the next one if there is one.
pub fn collect<M: Machine>(
    shared: &Shared<Cell<M>, View<M>, Key<M>, LaneRule<M>>,
    seat: &mut Seat<Cell<M>, View<M>>,
    got: u64,
    slot: usize,
) -> (u64, Option<(M::Request, M::Answer)>)
    requires table { seat.old.table_id ≡ shared.now.table_id }
    requires ready { CanCollect seat.old.table_id seat.old.me got slot }
    ensures table { (seat.new.table_id ≡ seat.old.table_id) × (seat.new.id ≡ seat.old.id) }
    ensures collected { MatchOption result.1
        ((result.0 ≤ got) × (seat.new.me ≡ (uncollected_view seat.old.me.0 result.0 seat.new.me.0.owner.log, seat.old.me.1)))
        (λ p. (got < result.0) × Gives M.next M.reply seat.old.me.0 got p.0 p.1 × (seat.new.me ≡ (collected_view seat.old.me.0 result.0 seat.new.me.0.owner.log, seat.old.me.1 ++ (slot, Vacant) ∷ []))) }
    ensures happens { MatchOption result.1
        (Makes M.next M.reply seat.old.table_id.slots seat.old.me.0 ByOwner event.Collect says.Nothing seat.new.me.0)
        (λ _. Makes M.next M.reply seat.old.table_id.slots seat.old.me.0 ByOwner event.Collect (says.Given got) seat.new.me.0) }
{
    let found = shared.load::<Collects>(seat, DONE);
    if found <= got {
        return (found, None);
    }
    match shared.exchange(seat, slot, Cell::Vacant) {
        Cell::Answered(request, answer) => {
            seat.turn();
            (found, Some((request, answer)))
        }
        _ => unreachable!(),
    }
}

// Puts the request into its slot and tries once to have it accepted. Where the lane was shut, it comes back.
pub fn send<M: Machine>(
    shared: &Shared<Cell<M>, View<M>, Key<M>, LaneRule<M>>,
    seat: &mut Seat<Cell<M>, View<M>>,
    number: u64,
    slot: usize,
    request: M::Request,
) -> Result<(), M::Request>
    requires table { seat.old.table_id ≡ shared.now.table_id }
    requires ready { CanSend seat.old.table_id seat.old.me number slot }
    ensures table { (seat.new.table_id ≡ seat.old.table_id) × (seat.new.id ≡ seat.old.id) }
    ensures sent { MatchResult result (λ _. seat.new.me ≡ (sent_view seat.old.me.0 request seat.new.me.0.owner.log, rest seat.old.me.1)) (λ q. (q ≡ request) × (seat.new.me ≡ (unsent_view seat.old.me.0 seat.new.me.0.owner.log, seat.old.me.1))) }
    ensures happens { MatchResult result (λ _. Makes M.next M.reply seat.old.table_id.slots seat.old.me.0 ByOwner (event.Send request) (says.Accepted number) seat.new.me.0) (λ _. Makes M.next M.reply seat.old.table_id.slots seat.old.me.0 ByOwner (event.Send request) (says.Unsent ClosedFault request) seat.new.me.0) }
    ensures open { OnOk result (seat.old.me.0.owner.closed ≢ true) }
{
    drop(shared.exchange(seat, slot, Cell::Asked(request)));
    let found = shared.compare_exchange::<Sends>(seat, GATE, 2 * number, 2 * number + 2);
    if found == 2 * number {
        return Ok(());
    }
    match shared.exchange(seat, slot, Cell::Vacant) {
        Cell::Asked(request) => Err(request),
        _ => unreachable!(),
    }
}

// Shuts the lane, and gives the number of accepted requests.
pub fn shut<M: Machine>(
    shared: &Shared<Cell<M>, View<M>, Key<M>, LaneRule<M>>,
    seat: &mut Seat<Cell<M>, View<M>>,
) -> u64
    requires table { seat.old.table_id ≡ shared.now.table_id }
    requires ready { (seat.old.me.0.shuts ≡ true) × (seat.old.table_id.words ≡ 17) }
    ensures table { (seat.new.table_id ≡ seat.old.table_id) × (seat.new.id ≡ seat.old.id) }
    ensures shut { seat.new.me ≡ (shut_view seat.old.me.0 result seat.new.me.0.shutter.log, seat.old.me.1) }
    ensures happens { Makes M.next M.reply seat.old.table_id.slots seat.old.me.0 ByShutter event.Shut (says.Count result) seat.new.me.0 }
    ensures again { (c : ℕ) → seat.old.me.0.shutter.count ≡ Some c → result ≡ c }
{
    shared.fetch_or::<Shuts>(seat, GATE, 1) / 2
}

// Shuts the lane as its owner.
pub fn exit<M: Machine>(
    shared: &Shared<Cell<M>, View<M>, Key<M>, LaneRule<M>>,
    seat: &mut Seat<Cell<M>, View<M>>,
)
    requires table { seat.old.table_id ≡ shared.now.table_id }
    requires ready { (seat.old.me.0.owns ≡ true) × (seat.old.table_id.words ≡ 17) }
    ensures table { (seat.new.table_id ≡ seat.old.table_id) × (seat.new.id ≡ seat.old.id) }
    ensures left { seat.new.me ≡ (left_view seat.old.me.0 seat.new.me.0.owner.log, seat.old.me.1) }
    ensures happens { Makes M.next M.reply seat.old.table_id.slots seat.old.me.0 ByOwner event.Shut (says.Count (length seat.old.me.0.owner.sent)) seat.new.me.0 }
{
    shared.fetch_or::<Exits>(seat, GATE, 1);
}

// Drops what the slots hold.
fn discard<S: Drop, A: Allocator>(closed: Closed<S, A>)
    requires { IsFull closed.slots }
{
    let mut closed = closed;
    let mut i = 0;
    while i < closed.slot_count() {
        drop(closed.take(i));
        i += 1;
    }
    closed.free();
}

// Joins the seats and takes the table apart.
pub fn close<'m, M: Machine>(
    table: Table<Cell<M>, View<M>, Key<'m, M>, LaneRule<M>, Global>,
    owner: Seat<Cell<M>, View<M>>,
    server: Seat<Cell<M>, View<M>>,
    shutter: Seat<Cell<M>, View<M>>,
)
    requires tables { (owner.table_id ≡ table.shared.table_id) × (server.table_id ≡ table.shared.table_id) × (shutter.table_id ≡ table.shared.table_id) }
    requires words { table.shared.table_id.words ≡ 17 }
    requires roles { (owner.me.0.owns ≡ true) × (server.me.0.serves ≡ true) × (shutter.me.0.shuts ≡ true) }
    requires alone { (server.me.0.owns ≡ false) × (server.me.0.shuts ≡ false) × (shutter.me.0.owns ≡ false) × (shutter.me.0.serves ≡ false) }
    requires held { (server.me.1 ≡ []) × (shutter.me.1 ≡ []) }
    ensures { LastState M.next M.reply table.entry.shared.key (joined owner.me.0 server.me.0 shutter.me.0) }
{
    let mut seat = owner;
    table.shared.join_seat::<Serves>(&mut seat, server);
    table.shared.join_seat::<Shutting>(&mut seat, shutter);
    discard(table.close_with(seat));
}

/// What words, views and slots show at a lane is the opening world as it is made, each step of an end that is an event
/// of the world leaves what that event leaves, with the world's reply, and each other step leaves the world as it is.
pub fn steps_are_events<M: Machine>()
    ensures { StepsAreEvents M.next M.reply }
{}

/// What an end has noted of its lane holds at every moment from then on.
pub fn notes_stay_true<M: Machine>()
    ensures { NotesStayTrue M.next M.reply }
{}

/// What each event that a call makes happen does to the log that its end has seen: it begins with all that the end had seen
/// before, and has this event more of the end's, and no other.
pub fn log_laws<M: Machine>()
    ensures { LogLaws M.next M.reply }
{}
