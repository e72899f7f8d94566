//! The form of the value under each key: of policies and of nodes a line for each, of jobs that of
//! rb_job's table.
ghost use Rattle.rb_remarks.specs.Keys.{any_text, attribute_keys, by_keys, context_keys, form_by, form_from_job, form_of, policy_keys, rule_keys, text_from_job};
ghost use Rattle.std.specs.Prelude.{◌≡◌};

use crate::form::{Form, Part, TextForm};
use rb_job::{Form as JobForm, TextForm as JobTextForm, form_of as job_form_of};

/// Any text.
pub(crate) const ANY_TEXT: TextForm = TextForm::OfJob(JobTextForm::Any);

/// The form of the value under a key of a part.
pub(crate) fn form_of(part: Part, key: &str) -> Form
    ensures { result ≡ form_of part key.now }
{
    match part {
        Part::OfJob(part) => form_from_job(key, job_form_of(part, key)),
        Part::Policy => policy_form(key),
        Part::Context => context_form(key),
        Part::Grants => Form::Maps {
            part: Part::Rule,
            least: 0,
            most: usize::MAX,
        },
        Part::By => by_form(key),
        Part::Rule => rule_form(key),
        Part::Patterns => Form::Texts(TextForm::OfJob(JobTextForm::Pattern)),
        Part::Properties => Form::Texts(ANY_TEXT),
        Part::Inventory => Form::Node,
        Part::Attributes => attribute_form(key),
    }
}

/// The form of a value under a key of a job, by the one that it has to rb_job. An empty list is
/// looked at as anything hollow is.
fn form_from_job(key: &str, form: JobForm) -> Form
    ensures { result ≡ form_from_job key.now form }
{
    match form {
        JobForm::Text(form) => Form::Text(text_from_job(key, form)),
        JobForm::BesideScript(form) => Form::Text(TextForm::OfJob(form)),
        JobForm::Texts => Form::List,
        JobForm::Map(part) => Form::Map(Part::OfJob(part)),
        JobForm::Maps { part, least, most } => Form::Maps {
            part: Part::OfJob(part),
            least,
            most,
        },
        JobForm::Passed => Form::Passed,
        JobForm::EmptyList => Form::Hollow,
        JobForm::Hollow => Form::Hollow,
        JobForm::Blank => Form::Blank,
        JobForm::Refused => Form::Unread,
    }
}

/// The form of a text under a key of a job. A script is any text to rb_job, and looked into here.
fn text_from_job(key: &str, form: JobTextForm) -> TextForm
    ensures { result ≡ text_from_job key.now form }
{
    match key {
        "script" => TextForm::Script,
        _ => TextForm::OfJob(form),
    }
}

fn policy_form(key: &str) -> Form
    ensures { result ≡ form_by policy_keys Form.Unread key.now }
{
    match key {
        "description" => Form::Passed,
        "context" => Form::Map(Part::Context),
        "for" => Form::Map(Part::Grants),
        "by" => Form::Map(Part::By),
        _ => Form::Unread,
    }
}

fn context_form(key: &str) -> Form
    ensures { result ≡ form_by context_keys Form.Unread key.now }
{
    match key {
        "project" | "application" => Form::Text(TextForm::Value),
        _ => Form::Unread,
    }
}

fn by_form(key: &str) -> Form
    ensures { result ≡ form_by by_keys Form.Unread key.now }
{
    match key {
        "username" | "group" => Form::Texts(TextForm::Value),
        _ => Form::Unread,
    }
}

fn rule_form(key: &str) -> Form
    ensures { result ≡ form_by rule_keys Form.Unread key.now }
{
    match key {
        "allow" | "deny" => Form::Texts(ANY_TEXT),
        "match" => Form::Map(Part::Patterns),
        "equals" | "contains" | "subset" => Form::Map(Part::Properties),
        _ => Form::Unread,
    }
}

fn attribute_form(key: &str) -> Form
    ensures { result ≡ form_by attribute_keys (Form.Attribute any_text) key.now }
{
    match key {
        "tags" => Form::Texts(ANY_TEXT),
        "desk-exec" => Form::Attribute(TextForm::OfJob(JobTextForm::Words)),
        _ => Form::Attribute(ANY_TEXT),
    }
}
