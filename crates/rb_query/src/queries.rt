//! The queries of a request.
ghost use Rattle.rb_causes.specs.Numbers.{decimal_of};
ghost use Rattle.rb_query.specs.Queries.{first_faulty, if_faulty, is_faulty, is_read, named_among};
ghost use Rattle.rb_query.specs.Queries.{number_or, queries_of, query_name, query_pairs};
ghost use Rattle.rb_query.specs.Queries.{status_asked, value_of};
ghost use Rattle.rb_route.specs.Routes.{is_within};
ghost use Rattle.rb_route.specs.declared.route.Route.TheVariants as routes;
ghost use Rattle.std.specs.Prelude.{◌≡◌, IfOk, option_map};

use crate::query::Query;
use crate::statuses::status_named;
use form_urlencoded::parse;
use rb_causes::{Items, NoMemory, Prop, Text, decimal};
use rb_marks::Status;
use rb_route::Route;
use std::alloc::Global;

const MOST_SHOWN: u64 = 1_000;

/// The name under which a query stands.
pub fn query_name(query: Query) -> &'static str
    ensures { result.now ≡ query_name query }
{
    match query {
        Query::Max => "max",
        Query::Offset => "offset",
        Query::StatusFilter => "statusFilter",
        Query::FileFormat => "fileformat",
        Query::DupeOption => "dupeOption",
        Query::UuidOption => "uuidOption",
    }
}

/// Whether so many may be shown.
fn is_most(value: &str) -> bool
    ensures { result ≡ is_within 0 1000 (decimal_of value.now) }
{
    match decimal(value) {
        None => false,
        Some(number) => number <= MOST_SHOWN,
    }
}

/// Whether this value of a query is read.
fn is_read(query: Query, value: &str) -> bool
    ensures { result ≡ is_read query value.now }
{
    match query {
        Query::Max => is_most(value),
        Query::Offset => decimal(value).is_some(),
        Query::StatusFilter => status_named(value).is_some(),
        Query::FileFormat => value == "yaml",
        Query::DupeOption => value == "update",
        Query::UuidOption => value == "preserve",
    }
}

/// The query of this name among those of a listing of executions.
fn listing_query(name: &str) -> Option<Query>
    ensures { result ≡ named_among (queries_of routes.Executions) name.now }
{
    if name == "max" {
        Some(Query::Max)
    } else if name == "offset" {
        Some(Query::Offset)
    } else if name == "statusFilter" {
        Some(Query::StatusFilter)
    } else {
        None
    }
}

/// The query of this name among those of an import of jobs.
fn import_query(name: &str) -> Option<Query>
    ensures { result ≡ named_among (queries_of routes.ImportJobs) name.now }
{
    if name == "fileformat" {
        Some(Query::FileFormat)
    } else if name == "dupeOption" {
        Some(Query::DupeOption)
    } else if name == "uuidOption" {
        Some(Query::UuidOption)
    } else {
        None
    }
}

/// The query of this name among those of a route, which passes over all others.
fn query_named(route: Route, name: &str) -> Option<Query>
    ensures { result ≡ named_among (queries_of route) name.now }
{
    match route {
        Route::Executions => listing_query(name),
        Route::ImportJobs => import_query(name),
        Route::Run => None,
        Route::Execution => None,
        Route::State => None,
        Route::Abort => None,
        Route::Jobs => None,
        Route::Resources => None,
        Route::ImportPolicy => None,
    }
}

/// The names and values of a query, decoded.
pub fn query_pairs(alloc: Global, query: &str) -> Result<Items<Prop>, NoMemory>
    ensures { IfOk result (λ pairs. pairs ≡ query_pairs query.now) }
{
    let mut pairs = Items::new(alloc);
    for pair in parse(alloc, query.as_bytes()) {
        let (name, value) = pair?;
        let key = Text::of(alloc, name.as_str())?;
        let text = Text::of(alloc, value.as_str())?;
        pairs.push(Prop { key, text })?;
    }
    Ok(pairs)
}

/// The value of the first pair of this name.
fn value_of(query: Query, pairs: &[Prop]) -> Option<&str>
    ensures { option_map (λ text. text.now) result ≡ value_of query pairs.now }
{
    let name = query_name(query);
    let pair = pairs.iter().find(|pair| pair.key.as_str() == name)?;
    Some(pair.text.as_str())
}

/// Whether a query is there and its value is not read.
fn is_faulty(pairs: &[Prop], query: Query) -> bool
    ensures { result ≡ is_faulty pairs.now query }
{
    match value_of(query, pairs) {
        None => false,
        Some(value) => !is_read(query, value),
    }
}

/// The query of this name, if the route has it and it is faulty.
fn faulty_named(route: Route, pairs: &[Prop], name: &str) -> Option<Query>
    ensures { result ≡ if_faulty pairs.now (named_among (queries_of route) name.now) }
{
    let query = query_named(route, name)?;
    if is_faulty(pairs, query) {
        Some(query)
    } else {
        None
    }
}

/// The first of these pairs that names a faulty query of the route.
pub fn faulty_query(route: Route, pairs: &[Prop]) -> Option<Query>
    ensures { result ≡ first_faulty route pairs.now pairs.now }
{
    for pair in pairs {
        if let Some(query) = faulty_named(route, pairs, pair.key.as_str()) {
            return Some(query);
        }
    }
    None
}

/// A number, or this one where the query is not there.
pub fn number_or(default: u64, query: Query, pairs: &[Prop]) -> u64
    ensures { result ≡ number_or default (value_of query pairs.now) }
{
    match value_of(query, pairs) {
        None => default,
        Some(value) => match decimal(value) {
            None => default,
            Some(number) => number,
        },
    }
}

/// The status that is asked for, if one is.
pub fn status_asked(pairs: &[Prop]) -> Option<Status>
    ensures { result ≡ status_asked pairs.now }
{
    status_named(value_of(Query::StatusFilter, pairs)?)
}
