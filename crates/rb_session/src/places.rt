//! Where the documents of a manifest stand, in the order in which they are fetched and imported:
//! zones, policy files, and then project by project its nodes and its jobs.
ghost use Rattle.rb_session.specs.Documents.{file_at, places_of, places_of_project, zone_place};
ghost use Rattle.rb_session.specs.Fetching.{name_at};
ghost use Rattle.rb_session.specs.declared.place.Place.TheVariants.{Jobs, Policy};
ghost use Rattle.std.specs.List.{flat_map};
ghost use Rattle.std.specs.Option.{option_copied};
ghost use Rattle.std.specs.Prelude.{◌≡◌, ◌++◌, [], IfOk, OnOk, map, unwrap_or};

use crate::place::Place;
use rb_causes::{Items, NoMemory, Prop, Text};
use rb_manifest::{Manifest, ProjectDocs};
use std::alloc::Global;

/// The file that is named there, if one is.
pub(crate) fn file_at(place: &Place) -> Option<&Text>
    ensures { option_copied result ≡ file_at place.now }
{
    match place {
        Place::Zone {
            file: _,
            name: _,
            rule: _,
        } => None,
        Place::Policy(file) => Some(file),
        Place::Nodes { project: _, file } => file.as_ref(),
        Place::Jobs { project: _, file } => Some(file),
    }
}

/// The name of the file that is told of a place: of a zone the manifest's, and empty where none is
/// named.
pub(crate) fn name_of(place: &Place) -> &str
    ensures { result.now ≡ name_at place.now }
{
    match place {
        Place::Zone {
            file,
            name: _,
            rule: _,
        } => file.as_str(),
        Place::Policy(file) => file.as_str(),
        Place::Nodes { project: _, file } => text_if_any(file),
        Place::Jobs { project: _, file } => file.as_str(),
    }
}

fn text_if_any(text: &Option<Text>) -> &str
    ensures { result.now ≡ unwrap_or text.now [] }
{
    match text {
        None => "",
        Some(text) => text.as_str(),
    }
}

/// The places of the manifest in this file.
pub(crate) fn places_of(
    alloc: Global,
    file: &str,
    manifest: &Manifest,
) -> Result<Items<Place>, NoMemory>
    ensures { IfOk result (λ places. places ≡ places_of file.now manifest.now) }
{
    let mut places = Items::new(alloc);
    push_zones(alloc, &mut places, file, manifest.zones.as_slice())?;
    push_policies(alloc, &mut places, manifest.policies.as_slice())?;
    push_projects(alloc, &mut places, manifest.projects.as_slice())?;
    Ok(places)
}

fn push_zones(
    alloc: Global,
    places: &mut Items<Place>,
    file: &str,
    zones: &[Prop],
) -> Result<(), NoMemory>
    ensures { OnOk result (places.new ≡ places.old ++ map (zone_place file.now) zones.now) }
{
    for zone in zones {
        places.push(Place::Zone {
            file: Text::of(alloc, file)?,
            name: zone.key.copy(alloc)?,
            rule: zone.text.copy(alloc)?,
        })?;
    }
    Ok(())
}

fn push_policies(alloc: Global, places: &mut Items<Place>, files: &[Text]) -> Result<(), NoMemory>
    ensures { OnOk result (places.new ≡ places.old ++ map Policy files.now) }
{
    for file in files {
        places.push(Place::Policy(file.copy(alloc)?))?;
    }
    Ok(())
}

fn push_projects(
    alloc: Global,
    places: &mut Items<Place>,
    projects: &[ProjectDocs],
) -> Result<(), NoMemory>
    ensures { OnOk result (places.new
        ≡ places.old ++ flat_map places_of_project projects.now) }
{
    for project in projects {
        push_project(alloc, places, project)?;
    }
    Ok(())
}

fn push_project(
    alloc: Global,
    places: &mut Items<Place>,
    project: &ProjectDocs,
) -> Result<(), NoMemory>
    ensures { OnOk result (places.new ≡ places.old ++ places_of_project project.now) }
{
    places.push(Place::Nodes {
        project: project.name.copy(alloc)?,
        file: copied(alloc, &project.nodes)?,
    })?;
    push_jobs(alloc, places, &project.name, project.jobs.as_slice())
}

fn push_jobs(
    alloc: Global,
    places: &mut Items<Place>,
    project: &Text,
    files: &[Text],
) -> Result<(), NoMemory>
    ensures { OnOk result (places.new
        ≡ places.old ++ map (λ file. Jobs project.now file) files.now) }
{
    for file in files {
        places.push(Place::Jobs {
            project: project.copy(alloc)?,
            file: file.copy(alloc)?,
        })?;
    }
    Ok(())
}

fn copied(alloc: Global, text: &Option<Text>) -> Result<Option<Text>, NoMemory>
    ensures { IfOk result (λ copy. copy ≡ text.now) }
{
    match text {
        None => Ok(None),
        Some(text) => Ok(Some(text.copy(alloc)?)),
    }
}
