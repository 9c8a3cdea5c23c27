//! Labels with shortest lists of requests that lead to them, one after another.

ghost use Rattle.std.specs.Prelude.{◌≡◌, ◌+◌, ◌<◌, true, IfOk, OnOk, length};
ghost use Rattle.aa_representatives.specs.Askable.{IsAskable};
ghost use Rattle.aa_reachability.specs.Granted.{IsGranted};
ghost use Rattle.aa_reachability.specs.Course.{label_on, IsDecidedOn};
ghost use Rattle.aa_reachability.specs.Trail.{arrival_at, IsTrail, IsLevel, IsWithin, Extends, AreAddedBy};

use crate::beside::{Course, label_on};
use crate::codes::code_of;
use aa_model::{Label, Request};
use indexmap::IndexSet;
use std::alloc::{AllocError, Global};

/// The last request of a list, and the number (from 0) of the arrival to which those before it lead.
#[derive(Drop)]
pub struct Step {
    pub from: usize,
    pub request: Request,
}

/// A label that a task can get to, by how many requests, and the last of these; none where the task begins.
#[derive(Drop)]
pub struct Arrival {
    pub label: Label,
    pub length: usize,
    pub step: Option<Step>,
}

/// Arrivals at different labels, and the numbers of these labels.
#[derive(Drop)]
pub(crate) struct Trail {
    pub(crate) known: IndexSet<u64>,
    pub(crate) arrivals: Vec<Arrival>,
}

impl Trail {
    /// The first arrival: at the label where the task begins.
    pub(crate) fn started(
        alloc: Global,
        course: Course<'_>,
        from: Label,
    ) -> Result<Trail, AllocError>
        ensures trail { IfOk result (λ t. IsTrail (label_on course.entry) from t.known.keys t.arrivals.items) }
        ensures level { IfOk result (λ t. IsLevel t.arrivals.items 0) }
        ensures one { IfOk result (λ t. length t.arrivals.items ≡ 1) }
    {
        let mut known = IndexSet::new(alloc);
        known.insert(code_of(from))?;
        let mut arrivals = Vec::new(alloc);
        arrivals.push(Arrival {
            label: from,
            length: 0,
            step: None,
        })?;
        Ok(Trail { known, arrivals })
    }

    /// Goes on from an arrival by one request, where its label isn't known yet.
    pub(crate) fn follow(
        &mut self,
        alloc: Global,
        course: Course<'_>,
        from: Label,
        number: usize,
        request: &Request,
        are_granted: bool,
        are_sure: bool,
    ) -> Result<(), AllocError>
        requires trail { IsTrail (label_on course) from self.old.known.keys self.old.arrivals.items }
        requires within { number < length self.old.arrivals.items }
        requires level { IsLevel self.old.arrivals.items number }
        requires asked { IsAskable request.now }
        requires granted { are_granted ≡ true → IsGranted course.going.policies.now (arrival_at self.old.arrivals.items number).label request.now }
        requires sure { are_sure ≡ true → IsDecidedOn course (arrival_at self.old.arrivals.items number).label request.now }
        ensures trail { OnOk result (IsTrail (label_on course.entry) from self.new.known.keys self.new.arrivals.items) }
        ensures level { OnOk result (IsLevel self.new.arrivals.items number) }
        ensures extends { OnOk result (Extends number self.old.arrivals.items self.new.arrivals.items) }
        ensures added { OnOk result (AreAddedBy request.now (length self.old.arrivals.items) self.new.arrivals.items) }
        ensures reached { OnOk result (IsWithin self.new.arrivals.items (label_on course.entry (arrival_at self.old.arrivals.items number).label request.now) ((arrival_at self.old.arrivals.items number).length + 1)) }
    {
        let before = &self.arrivals[number];
        let from_label = before.label;
        let length = before.length + 1;
        let label = label_on(alloc, course, from_label, request, are_granted, are_sure)?;
        let (_, is_new) = self.known.insert_full(code_of(label))?;
        if !is_new {
            return Ok(());
        }
        let request = request.try_clone()?;
        let step = Some(Step {
            from: number,
            request,
        });
        self.arrivals.push(Arrival {
            label,
            length,
            step,
        })?;
        Ok(())
    }

    pub(crate) fn into_arrivals(self) -> Vec<Arrival>
        ensures { result.items ≡ self.arrivals.items }
    {
        let Trail { arrivals, .. } = self;
        arrivals
    }
}
