//! The names that stand for values in the texts of a job.
ghost use Rattle.rb_plan.specs.Access.{property};
ghost use Rattle.rb_plan.specs.Inlined.{option_name, own_names, site_names};
ghost use Rattle.std.specs.Prelude.{◌≡◌, ◌++◌, ◌∷◌, [], map, IfOk, OnOk};

use crate::access::property;
use crate::inlining::Site;
use rb_causes::{Items, NoMemory, Prop, Text};
use std::alloc::Global;

/// A property under the name that a prefix and its key make.
pub(crate) fn prefixed(alloc: Global, prefix: &str, prop: &Prop) -> Result<Prop, NoMemory>
    ensures { IfOk result (λ named. named ≡ property (prefix.now ++ prop.now.key) prop.now.text) }
{
    let mut key = String::from_str(alloc, prefix)?;
    key.push_str(prop.key.as_str())?;
    let key = Text::from_string(key);
    let text = prop.text.copy(alloc)?;
    Ok(Prop { key, text })
}

/// The values of options under their whole names.
pub(crate) fn option_names(alloc: Global, values: &[Prop]) -> Result<Items<Prop>, NoMemory>
    ensures { IfOk result (λ names. names ≡ map option_name values.now) }
{
    let mut names = Items::new(alloc);
    for value in values {
        names.push(prefixed(alloc, "option.", value)?)?;
    }
    Ok(names)
}

/// Puts a name with its text behind the others.
pub(crate) fn put_name(
    alloc: Global,
    names: &mut Items<Prop>,
    key: &str,
    text: &str,
) -> Result<(), NoMemory>
    ensures { OnOk result (names.new ≡ names.old ++ property key.now text.now ∷ []) }
{
    names.push(property(alloc, key, text)?)
}

/// Puts a job's own names.
pub(crate) fn put_own_names(
    alloc: Global,
    names: &mut Items<Prop>,
    name: &str,
    group: &str,
    id: &str,
) -> Result<(), NoMemory>
    ensures { OnOk result (names.new ≡ names.old ++ own_names name.now group.now id.now) }
{
    put_name(alloc, names, "job.name", name)?;
    put_name(alloc, names, "job.group", group)?;
    put_name(alloc, names, "job.id", id)?;
    Ok(())
}

/// What is told of the job of a site: its option values, its own names, and where and for whom it
/// runs.
pub(crate) fn site_names(alloc: Global, site: &Site<'_>) -> Result<Items<Prop>, NoMemory>
    ensures { IfOk result (λ names. names ≡ site_names site.now) }
{
    let job = &site.held.job;
    let id = site.held.id.as_str();
    let mut names = option_names(alloc, site.values.as_slice())?;
    put_own_names(alloc, &mut names, job.name.as_str(), job.group.as_str(), id)?;
    put_name(alloc, &mut names, "job.project", site.project)?;
    put_name(alloc, &mut names, "job.username", site.user)?;
    Ok(names)
}
