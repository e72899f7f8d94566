ghost use Rattle.rb_top.specs.Names.{HasPlaces, ids_of};
ghost use Rattle.rb_top.specs.Reading.{job_at};
ghost use Rattle.std.specs.Option.{option_copied};
ghost use Rattle.std.specs.Prelude.{◌≡◌, ◌∷◌, ◌++◌, [], ℕ, List, length, IfOk, OnOk};

use crate::script::DrillJob;
use rb_causes::{NoMemory, Text};
use std::alloc::Global;
use std::collections::BTreeMap;

/// Where the job of each id stands among some jobs.
#[derive(Drop)]
pub(crate) struct JobPlaces {
    places: BTreeMap<String, usize>,
}

impl JobPlaces {
    /// Of no job; takes no memory.
    pub(crate) fn new(alloc: Global) -> JobPlaces
        ensures { HasPlaces result [] }
    {
        JobPlaces {
            places: BTreeMap::new(alloc),
        }
    }

    /// The places of these jobs.
    pub(crate) fn of(alloc: Global, jobs: &[DrillJob]) -> Result<JobPlaces, NoMemory>
        ensures { IfOk result (λ places. HasPlaces places (ids_of jobs.now)) }
    {
        let mut places = JobPlaces::new(alloc);
        for (place, job) in jobs.iter().enumerate() {
            places.note(alloc, &job.id, place)?;
        }
        Ok(places)
    }

    /// The job of this id, of the jobs whose places these are.
    pub(crate) fn job_at<'a>(&self, jobs: &'a [DrillJob], id: &Text) -> Option<&'a DrillJob>
        requires { HasPlaces self.now (ids_of jobs.now) }
        ensures { option_copied result ≡ job_at jobs.now id.now }
    {
        let place = self.places.get(id.as_str())?;
        jobs.get(*place)
    }

    /// Notes the id of the job that stands at this place, behind those noted. Of two jobs with one
    /// id the first stays.
    pub(crate) fn note(&mut self, alloc: Global, id: &Text, place: usize) -> Result<(), NoMemory>
        ensures { OnOk result ((ids : List (List ℕ)) → HasPlaces self.old ids →
            place ≡ length ids → HasPlaces self.new (ids ++ id.now ∷ [])) }
    {
        if self.places.contains_key(id.as_str()) {
            return Ok(());
        }
        let id = String::from_str(alloc, id.as_str())?;
        let _none = self.places.insert(id, place)?;
        Ok(())
    }
}
