//! A list of policies that decides requests.

ghost use Rattle.std.specs.Prelude.{◌≡◌};
ghost use Rattle.aa_mediate.specs.Attachments.{attached_in, attached_child_in};
ghost use Rattle.aa_mediate.specs.Reply.{reply};

use crate::attachments::{attached_child_in, attached_in};
use crate::reply::answer_to;
use aa_compile::Compiled;
use aa_machine::Machine;
use aa_model::{Answer, Label, Request};
use std::marker::Model;

/// Decides requests by compiled policies, and is seen as the list of these policies.
#[derive(Drop)]
pub struct Mediator<'p> {
    policies: &'p [Compiled],
}

impl<'p> Model for Mediator<'p> {
    ghost use Rattle.std.specs.Prelude.{List};
    ghost use Rattle.std.specs.Coded.{coded_list};
    ghost use Rattle.aa_model.specs.contracts.policy.Policy as contract;
    ghost use Rattle.aa_model.specs.declared.policy.Policy.{Policy};

    ghost Value = { List Policy };

    ghost coded = { coded_list contract.the_row.coded };

    ghost view = { λ m. m.policies.now };
}

impl<'p> Mediator<'p> {
    /// Policies are numbered from 0.
    pub fn new(policies: &'p [Compiled]) -> Mediator<'p>
        ensures { result ≡ policies.now }
    {
        Mediator { policies }
    }

    /// The top-level profile of a policy that is attached to a path; none for a policy that isn't there
    /// (apparmor.d(5), "Profiles").
    pub fn attach(&self, policy: u16, path: &[u8]) -> Option<u16>
        ensures { result ≡ attached_in self.now policy path.now }
    {
        attached_in(self.policies, policy, path)
    }

    /// The child of a profile of a policy that is attached to a path; none for a policy or a profile that isn't there
    /// (apparmor.d(5), "Profiles").
    pub fn attach_child(&self, policy: u16, parent: u16, path: &[u8]) -> Option<u16>
        ensures { result ≡ attached_child_in self.now policy parent path.now }
    {
        attached_child_in(self.policies, policy, parent, path)
    }
}

impl<'p> Machine for Mediator<'p> {
    type State = Label;

    type Request = Request;

    type Answer = Answer;

    ghost next = { λ policies label request. (reply policies label request).label };

    ghost reply = { λ policies label request. reply policies label request };

    /// Answers a request of a task, and moves its label to that of the answer.
    fn step(&self, state: &mut Label, request: &Request) -> Answer {
        let answer = answer_to(self.policies, *state, request);
        *state = answer.label;
        answer
    }
}
