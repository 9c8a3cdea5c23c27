//! Lanes are closed, once each has been fed and served.
ghost use Rattle.std.specs.Prelude.{◌≡◌, ℕ, ◌<◌, ◌≤◌, [], length, vec_len, vec_capacity, map, slice_index_or};
ghost use Rattle.std.specs.List.Sorted.{IsPermutation};
ghost use Rattle.aa_lane.specs.Ends.{known, new_shutter};
ghost use Rattle.aa_pool.specs.Closed.{WasClosed, WereClosed};

use crate::feed::Finished;
use crate::next::next_of;
use aa_lane::{Answered, Ends, Lane, Server, Shutter, Totals};
use aa_machine::Machine;

/// The answers to all requests of a task, and what its lane counted.
#[derive(Drop)]
pub struct Outcome<M: Machine> {
    pub answers: Vec<Answered<M>>,
    pub totals: Totals<M>,
}

// Closes the lane of a task.
fn close<'m, M: Machine>(
    lane: Lane<'m, M>,
    finished: Finished<M>,
    server: Server<M>,
    shutter: Shutter<M>,
) -> Outcome<M>
    requires owner { finished.leaver.lane ≡ known lane }
    requires server { server.lane ≡ known lane }
    requires shutter { shutter ≡ new_shutter lane }
    ensures answers { result.answers.items ≡ finished.answers.items }
    ensures closed { WasClosed M.next M.reply lane.entry result }
{
    let Finished { leaver, answers } = finished;
    let totals = lane.close(Ends {
        owner: leaver,
        server,
        shutter,
    });
    Outcome { answers, totals }
}

/// Servers in the order of their lanes.
pub fn in_order<'m, M: Machine>(lanes: &[Lane<'m, M>], servers: Vec<Server<M>>) -> Vec<Server<M>>
    requires tags { (i : ℕ) (d : _) → i < length lanes.now → (slice_index_or lanes.now i d).tag ≡ i }
    requires servers { IsPermutation (map known lanes.now) (map (λ s. s.lane) servers.items) }
    ensures { map (λ s. s.lane) result.items ≡ map known lanes.now }
{
    let _ = lanes;
    let mut servers = servers;
    servers.sort_unstable_by_key(|server| server.tag());
    servers
}

/// Closes all lanes, each with its own ends.
pub fn close_all<'m, M: Machine>(
    lanes: Vec<Lane<'m, M>>,
    finished: Vec<Finished<M>>,
    servers: Vec<Server<M>>,
    shutters: Vec<Shutter<M>>,
    room: Vec<Outcome<M>>,
) -> Vec<Outcome<M>>
    requires owners { map (λ f. f.leaver.lane) finished.items ≡ map known lanes.items }
    requires servers { map (λ s. s.lane) servers.items ≡ map known lanes.items }
    requires shutters { shutters.items ≡ map new_shutter lanes.items }
    requires empty { room.items ≡ [] }
    requires room { vec_len lanes ≤ vec_capacity room }
    ensures answers { map (λ o. o.answers.items) result.items ≡ map (λ f. f.answers.items) finished.items }
    ensures closed { WereClosed M.next M.reply lanes.entry.items result.items }
{
    let mut outcomes = room;
    let mut finished = finished.into_iter();
    let mut servers = servers.into_iter();
    let mut shutters = shutters.into_iter();
    for lane in lanes {
        let finished = next_of(&mut finished);
        let server = next_of(&mut servers);
        let shutter = next_of(&mut shutters);
        outcomes.push_reserved(close(lane, finished, server, shutter));
    }
    outcomes
}
