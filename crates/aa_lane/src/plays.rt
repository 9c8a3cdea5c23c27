//! What each step tells. These types are for the proofs alone.

ghost use Rattle.aa_lane.specs.Plays.{readied, sent, took, finished, collected, shut_told, exited, without_server, only_server, with_server, without_shutter, only_shutter, with_shutter};
ghost use Rattle.aa_lane.specs.Shows.{spent_view};

use crate::cells::{Cell, View};
use aa_machine::Machine;
use atomic_table::{Join, Play, Split};

pub struct Readies;

impl<M: Machine> Play<Cell<M>, View<M>> for Readies {
    ghost then = { readied };
}

pub struct Sends;

impl<M: Machine> Play<Cell<M>, View<M>> for Sends {
    ghost then = { sent M.next M.reply };
}

pub struct Takes;

impl<M: Machine> Play<Cell<M>, View<M>> for Takes {
    ghost then = { took M.next M.reply };
}

pub struct Finishes;

impl<M: Machine> Play<Cell<M>, View<M>> for Finishes {
    ghost then = { finished M.next M.reply };
}

pub struct Collects;

impl<M: Machine> Play<Cell<M>, View<M>> for Collects {
    ghost then = { collected M.next M.reply };
}

pub struct Shuts;

impl<M: Machine> Play<Cell<M>, View<M>> for Shuts {
    ghost then = { shut_told M.next M.reply };
}

pub struct Exits;

impl<M: Machine> Play<Cell<M>, View<M>> for Exits {
    ghost then = { exited M.next M.reply };
}

// The server's part is cut off, and put back.
pub struct Serves;

impl<M: Machine> Split<View<M>> for Serves {
    ghost left = { without_server };

    ghost right = { only_server };
}

impl<M: Machine> Join<View<M>> for Serves {
    ghost both = { with_server };

    ghost spent = { spent_view };
}

// The shutter's part is cut off, and put back.
pub struct Shutting;

impl<M: Machine> Split<View<M>> for Shutting {
    ghost left = { without_shutter };

    ghost right = { only_shutter };
}

impl<M: Machine> Join<View<M>> for Shutting {
    ghost both = { with_shutter };

    ghost spent = { spent_view };
}
