//! Rules without which every reply is as it is, by the places where they stand.
//!
//! A rule of an included file stands at one place, and may be a rule of several profiles. `redundant_places` takes
//! profiles, the `PlaceNumbers` of each, which places are held, and a limit. It gives a `Redundant`: the places that
//! can go each by itself, those that can go together, a `Reason` for each of the first, which names the places beside
//! whose rules it is redundant, and the profiles of which that can't be told. `place_of` gives the place of a rule, and
//! `marks_of_places` makes marks of some places. The meaning lies in `AreGoing` and `AreReasons`, told by what rules
//! say of whatever can be asked; the law `spared_rules_change_no_reply` says that answers stay. Regions are left to
//! `aa_regions`; numbers are given to places, and rules printed, by `aa_redundant`.
//!
//! An example, from `aa_decision_tests` (`no_rule_goes_of_a_profile_whose_patterns_need_too_many_states`):
//!
//! ```text
//! let text = "profile p { /a r, /a r, /b r, } profile q { /a r, change_profile -> /opt/tool, }";
//! let list = policies_in(&rt, text);
//! let profiles = profiles_in(&rt, list.as_slice());
//! let mut places = Vec::new(rt.alloc());
//! places.push(of_files(&rt, &[0, 1, 2])).expect(&rt, "memory");
//! places.push(of_files(&rt, &[0])).expect(&rt, "memory");
//! let found = redundant_places(rt.alloc(), profiles, places.as_slice(), 3, &[], 7);
//! let found = found.ok().expect(&rt, text);
//! let told = told(&rt, &found.going);
//! equal(&rt, str::from_utf8(told.as_slice()).ok(), Some(".g."));
//! ```
#![tactic(auto)]

mod beside;
mod entries;
mod fault;
mod files;
mod going;
mod kept;
mod laws;
mod marks;
mod mentions;
mod names;
mod needed;
mod places;
mod reasons;
mod redundant;
mod rights;
mod rows;
mod saying;
mod tables;

pub use fault::{Excess, RedundancyFault, UntoldProfile};
pub use going::Going;
pub use laws::{
    kept_profiles_say_the_same, rules_beside_none_match_nothing, same_sayings_reply_alike,
    spared_rules_change_no_reply,
};
pub use places::{PlaceNumbers, marks_of_places, place_of};
pub use reasons::Reason;
pub use redundant::{Redundant, redundant_places};
