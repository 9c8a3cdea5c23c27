//! A server beside its lane, and the turns that a worker serves it for.
ghost use Rattle.std.specs.Prelude.{◌≡◌};
ghost use Rattle.aa_lane.specs.Ends.{known};

use crate::serving::{Serving, Turn};
use aa_lane::{Lane, Served, Server};
use aa_machine::Machine;

/// How many requests are answered in one turn at most.
const MOST_A_TURN: u32 = 64;

/// A server beside its lane.
#[derive(Drop)]
pub struct LaneServer<'l, 'm, M: Machine> {
    pub lane: &'l Lane<'m, M>,
    pub server: Server<M>,
    pub ghost of: { server.lane ≡ known lane.now },
}

impl<'l, 'm, M: Machine> Serving for LaneServer<'l, 'm, M> {
    type Place = Lane<'m, M>;

    ghost place = { λ s. s.lane.now };

    ghost is_settled = { λ s. s.server.settled };

    fn serve(self, did: &mut u64) -> Turn<LaneServer<'l, 'm, M>> {
        let LaneServer { lane, server } = self;
        let mut server = server;
        *did = 0;
        'requests: for _ in 0..MOST_A_TURN {
            match server.serve(lane) {
                Served::Did(next) => {
                    *did = did.wrapping_add(1);
                    server = next;
                }
                Served::Idle(server) => return Turn::GoesOn(LaneServer { lane, server }),
                Served::Settled(server) => return Turn::Settled(LaneServer { lane, server }),
            }
        }
        Turn::GoesOn(LaneServer { lane, server })
    }
}
