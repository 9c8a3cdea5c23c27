//! Whether requests at clean paths alone lead to labels.

ghost use Rattle.std.specs.Prelude.{◌≡◌};
ghost use Rattle.std.specs.List.{list_all};
ghost use Rattle.aa_reachability.specs.Clean.{is_clean_step, has_clean_step};

use crate::trail::{Arrival, Step};
use aa_unclean_paths::is_at_unclean_path;

fn is_clean_step(step: &Option<Step>) -> bool
    ensures { result ≡ is_clean_step step.now }
{
    match step {
        Some(step) => !is_at_unclean_path(&step.request),
        None => true,
    }
}

fn has_clean_step(arrival: &Arrival) -> bool
    ensures { result ≡ has_clean_step arrival.now }
{
    is_clean_step(&arrival.step)
}

/// Whether no request by which the arrivals are got to is at an unclean path. Then they are what is found where clean paths alone count.
pub fn are_clean(arrivals: &[Arrival]) -> bool
    ensures { result ≡ list_all has_clean_step arrivals.now }
{
    arrivals.iter().all(|arrival| has_clean_step(arrival))
}
