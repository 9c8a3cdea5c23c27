//! Texts that are read and joined one after another.

ghost use Rattle.std.specs.Prelude.{◌≡◌, ◌≢◌, ◌⊎◌, ◌++◌, map, option_map, slice_get, None, OnOk, IfErr};
ghost use Rattle.aa_load.specs.Joined.{rows_of};
ghost use Rattle.aa_load.specs.Faults.{fault_of};
ghost use Rattle.aa_explain.specs.Places.{places_data};
ghost use Rattle.aa_load.specs.Joining.{nothing, added, Adds};
ghost use Rattle.aa_load.specs.Refused.{IsTold, IsUnjoined, IsRefusedAt};
ghost use Rattle.aa_load.specs.Loadings.{reading_data};

use crate::fault::{LoadingFault, RepeatedName, of_texts};
use crate::join_fault::{JoinFault, Repeated};
use crate::joining::Joining;
use crate::texts::{Texts, read_text};
use aa_base::Spot;
use aa_explain::ProfilePlaces;
use aa_model::Policy;
use std::alloc::{AllocError, Global};

/// The policies that are joined so far, and where what they say stands.
#[derive(Drop)]
pub(crate) struct Reading<'u> {
    pub joining: Joining,
    pub places: Vec<ProfilePlaces<'u>>,
    /// Of each profile, the number of its texts.
    pub owners: Vec<usize>,
}

/// Where a profile's name stands.
fn spot_of(places: &[ProfilePlaces<'_>], number: u16) -> Option<Spot>
    ensures { result ≡ option_map (λ p. p.at) (slice_get (map places_data places.now) number) }
{
    match places.get(number as usize) {
        Some(places) => Some(places.at),
        None => None,
    }
}

/// Adds the number of texts for each of their profiles.
fn push_owners(
    owners: &mut Vec<usize>,
    number: usize,
    places: &[ProfilePlaces<'_>],
) -> Result<(), AllocError>
    ensures { OnOk result (owners.new.items ≡ owners.old.items ++ map (λ _. number) (map places_data places.now)) }
{
    for _place in places {
        owners.push(number)?;
    }
    Ok(())
}

impl<'u> Reading<'u> {
    /// Nothing is read yet.
    pub(crate) fn new(alloc: Global) -> Reading<'u>
        ensures { reading_data result ≡ nothing }
    {
        Reading {
            joining: Joining::new(alloc),
            places: Vec::new(alloc),
            owners: Vec::new(alloc),
        }
    }

    /// Notes of which texts the profiles that were joined last are, and where they stand.
    fn note(&mut self, number: usize, mut places: Vec<ProfilePlaces<'u>>) -> Result<(), AllocError>
        ensures joining { self.new.joining ≡ self.old.joining }
        ensures owners { OnOk result (self.new.owners.items ≡ self.old.owners.items ++ map (λ _. number) (map places_data places.entry.items)) }
        ensures places { OnOk result (map places_data self.new.places.items ≡ map places_data self.old.places.items ++ map places_data places.entry.items) }
    {
        push_owners(&mut self.owners, number, places.as_slice())?;
        self.places.append(&mut places)?;
        Ok(())
    }

    /// Both places of a name, where they are known.
    fn repeated(
        &self,
        number: usize,
        places: &[ProfilePlaces<'_>],
        repeated: Repeated,
    ) -> LoadingFault
        ensures { (result ≡ LoadingFault.NoMemory) ⊎ IsTold number self.now.owners.items (map places_data self.now.places.items) (map places_data places.now) (JoinFault.DuplicateProfile repeated) result }
    {
        let Some(at) = spot_of(places, repeated.later) else {
            return LoadingFault::NoMemory;
        };
        let Some(earlier_at) = spot_of(self.places.as_slice(), repeated.earlier) else {
            return LoadingFault::NoMemory;
        };
        let Some(earlier) = self.owners.get(repeated.earlier as usize).copied() else {
            return LoadingFault::NoMemory;
        };
        LoadingFault::Repeated(RepeatedName {
            number,
            at,
            earlier,
            earlier_at,
        })
    }

    /// What is said of the texts of that number, whose policy can't be joined to those before it.
    fn told(&self, number: usize, places: &[ProfilePlaces<'_>], fault: JoinFault) -> LoadingFault
        ensures { (result ≡ LoadingFault.NoMemory) ⊎ IsTold number self.now.owners.items (map places_data self.now.places.items) (map places_data places.now) fault result }
    {
        match fault {
            JoinFault::DuplicateProfile(twice) => self.repeated(number, places, twice),
            JoinFault::TooLarge => LoadingFault::TooLarge(number),
            JoinFault::NoMemory => LoadingFault::NoMemory,
        }
    }

    /// Joins the policy of the texts of that number.
    fn join(
        &mut self,
        number: usize,
        policy: Policy,
        places: Vec<ProfilePlaces<'u>>,
    ) -> Result<(), LoadingFault>
        ensures can { OnOk result (fault_of self.old.joining (rows_of policy) ≡ None) }
        ensures ok { OnOk result (reading_data self.new ≡ added number policy (map places_data places.entry.items) (reading_data self.old)) }
        ensures cause { IfErr result (λ f. f ≢ LoadingFault.NoMemory → IsUnjoined number (reading_data self.old) policy (map places_data places.entry.items) f) }
    {
        match self.joining.add(policy) {
            Ok(()) => Ok(self.note(number, places)?),
            Err(refused) => Err(self.told(number, places.as_slice(), refused.fault)),
        }
    }

    /// Reads the texts of that number, and joins the policy that they spell.
    pub(crate) fn add(
        &mut self,
        alloc: Global,
        number: usize,
        texts: Texts<'u>,
    ) -> Result<(), LoadingFault>
        ensures ok { OnOk result (Adds number texts.entry (reading_data self.old) (reading_data self.new)) }
        ensures cause { IfErr result (λ f. f ≢ LoadingFault.NoMemory → IsRefusedAt number texts.entry (reading_data self.old) f) }
    {
        let sources = match texts.sources {
            Ok(sources) => sources,
            Err(fault) => return Err(of_texts(number, *fault)),
        };
        let (policy, places) = match read_text(alloc, sources, texts.main) {
            Ok(read) => read,
            Err(fault) => return Err(of_texts(number, fault)),
        };
        match self.join(number, policy, places) {
            Ok(()) => Ok(()),
            Err(fault) => Err(fault),
        }
    }
}
