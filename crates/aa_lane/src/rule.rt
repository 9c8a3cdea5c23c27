//! The rule of a lane's table.

ghost use Rattle.aa_lane.specs.Shows.{HasLog, first_view};

use crate::cells::{Cell, Key, View};
use aa_machine::Machine;
use atomic_table::TableRule;
use std::marker::PhantomData;

// The law of its steps (`StepsAreEvents`) has a row for the making of the table and one for the load that takes its slots (one
// load takes all of them), two splits, two joins, and nine rows for the six kinds of step that are events, three of which have
// two outcomes. "Shut" is exactly the owner's leaving or the shutter's count. The joins ask that the joined seat is another one
// with that role alone, and the row of a refused send that the owner hasn't left; the ends' invariants give both.
pub struct LaneRule<M> {
    marker: PhantomData<M>,
}

impl<'m, M: Machine> TableRule<Cell<M>, View<M>, Key<'m, M>> for LaneRule<M> {
    ghost holds = { HasLog M.next M.reply };

    ghost first = { first_view };
}
