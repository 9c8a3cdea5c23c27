//! Policies that become one.

ghost use Rattle.std.specs.Prelude.{◌≡◌, ◌⊎◌, None, Some, OnOk, OnErr, IfErr};
ghost use Rattle.aa_load.specs.Rows.{no_rows};
ghost use Rattle.aa_load.specs.Joined.{rows_of, joined};
ghost use Rattle.aa_load.specs.Faults.{fault_of};

use crate::join_fault::{JoinFault, Refused};
use crate::kept::{Kept, check, make_room, take_in};
use aa_base::Seq;
use aa_model::Policy;
use std::alloc::Global;
use std::collections::BTreeMap;
use std::marker::Model;

/// Policies that are read one after another and become one, seen as the profiles and the passed-over rules so far.
#[derive(Drop)]
pub struct Joining {
    alloc: Global,
    kept: Kept,
}

impl Model for Joining {
    ghost use Rattle.aa_load.specs.Rows.{Rows, rows_code};

    ghost Value = { Rows };

    ghost coded = { rows_code };

    ghost use Rattle.aa_load.specs.Kept.{kept_rows, IsKept};

    ghost view = { λ j. kept_rows j.kept };

    ghost invariant = { λ j. IsKept j.kept };
}

impl Joining {
    /// No policy yet.
    pub fn new(alloc: Global) -> Joining
        ensures { result ≡ no_rows }
    {
        let kept = Kept {
            profiles: Vec::new(alloc),
            passed_over: Vec::new(alloc),
            numbers: BTreeMap::new(alloc),
            attachments: 0,
        };
        Joining { alloc, kept }
    }

    /// Adds a policy: its profiles stand behind those that are there, and what names one of them by its number follows. An
    /// execution rule of one policy then finds the profiles of all, as where the policies are loaded into one kernel.
    ///
    /// Refused, in this order: `DuplicateProfile` where a name is there, with the first profile of the policy of which that
    /// holds; `TooLarge` where there would be more than 4,096 profiles, more than 65,535 attachment patterns of top-level
    /// profiles, or a passed-over rule of a profile whose number would be more than 65,535, which none is that a policy's
    /// profile has; `NoMemory`. A refused policy is handed back, and nothing is changed.
    pub fn add(&mut self, policy: Policy) -> Result<(), Refused>
        ensures ok { OnOk result (self.new ≡ joined self.old (rows_of policy)) }
        ensures none { OnOk result (fault_of self.old (rows_of policy) ≡ None) }
        ensures err { OnErr result (self.new ≡ self.old) }
        ensures fault { IfErr result (λ r. (fault_of self.old (rows_of policy) ≡ Some r.fault)
            ⊎ ((r.fault ≡ JoinFault.NoMemory) × (fault_of self.old (rows_of policy) ≡ None))) }
        ensures back { IfErr result (λ r. r.policy ≡ policy) }
    {
        let attachments = match check(&self.kept, &policy) {
            Ok(attachments) => attachments,
            Err(fault) => return Err(Refused { fault, policy }),
        };
        if make_room(self.alloc, &mut self.kept, &policy).is_err() {
            return Err(Refused {
                fault: JoinFault::NoMemory,
                policy,
            });
        }
        take_in(&mut self.kept, policy, attachments);
        Ok(())
    }

    /// The one policy.
    pub fn into_policy(self) -> Policy
        ensures { rows_of result ≡ self }
    {
        let Joining { kept, .. } = self;
        Policy {
            profiles: Seq::from_vec(kept.profiles),
            passed_over: Seq::from_vec(kept.passed_over),
        }
    }
}
