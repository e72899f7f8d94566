//! The router that is built of the patterns, and what it finds.
ghost use Rattle.matchit.specs.Route.{parse_route};
ghost use Rattle.rb_route.specs.Router.{asked_in, route_found, router, with_read};
ghost use Rattle.rb_route.specs.Routes.{asked_of, path_pieces};
ghost use Rattle.std.specs.Prelude.{◌≡◌, option_map, slice_get, OnOk};

use crate::asked::Asked;
use crate::laws::matchit_finds;
use crate::route::{Route, subject_place};
use matchit::Router;
use rb_causes::NoMemory;
use std::alloc::Global;

/// The routes, each under its pattern.
#[derive(Drop)]
pub struct ApiRouter {
    routes: Router<Route>,
    ghost whole: { routes ≡ router },
}

impl ApiRouter {
    pub fn new(alloc: Global) -> Result<ApiRouter, NoMemory> {
        let mut routes = Router::new(alloc);
        put(&mut routes, "/api/{version}/job/{id}/run", Route::Run)?;
        put(
            &mut routes,
            "/api/{version}/execution/{number}",
            Route::Execution,
        )?;
        put(
            &mut routes,
            "/api/{version}/execution/{number}/state",
            Route::State,
        )?;
        put(
            &mut routes,
            "/api/{version}/execution/{number}/abort",
            Route::Abort,
        )?;
        put(
            &mut routes,
            "/api/{version}/project/{project}/jobs",
            Route::Jobs,
        )?;
        put(
            &mut routes,
            "/api/{version}/project/{project}/jobs/import",
            Route::ImportJobs,
        )?;
        put(
            &mut routes,
            "/api/{version}/project/{project}/resources",
            Route::Resources,
        )?;
        put(
            &mut routes,
            "/api/{version}/project/{project}/executions",
            Route::Executions,
        )?;
        put(
            &mut routes,
            "/api/{version}/system/acl/{name}",
            Route::ImportPolicy,
        )?;
        Ok(ApiRouter { routes })
    }

    /// What a path asks for, if it has a route.
    pub fn asked<'p>(&self, path: &'p str) -> Option<Asked<'p>>
        ensures { result ≡ asked_of path.now }
    {
        matchit_finds();
        asked_at(self.route(path)?, path)
    }

    /// The route of a path.
    fn route(&self, path: &str) -> Option<Route>
        ensures { result ≡ route_found path.now }
    {
        match self.routes.at(path) {
            Ok(found) => Some(*found.value),
            Err(_) => None,
        }
    }
}

/// Puts a route under its pattern. The patterns are read and do not conflict, so that memory alone
/// may be wanting.
fn put(routes: &mut Router<Route>, pattern: &str, route: Route) -> Result<(), NoMemory>
    ensures { OnOk result (routes.new ≡ with_read route (parse_route pattern.now) routes.old) }
{
    match routes.insert(pattern, route) {
        Ok(()) => Ok(()),
        Err(_) => Err(NoMemory),
    }
}

/// The piece at this place among those between slashes.
fn piece<'p>(path: &'p str, place: usize) -> Option<&'p str>
    ensures { option_map (λ p. p.now) result ≡ slice_get (path_pieces path.now) place }
{
    path.split('/').nth(place)
}

/// What the pieces of a path of this route ask for.
fn asked_at<'p>(route: Route, path: &'p str) -> Option<Asked<'p>>
    ensures { result ≡ asked_in (path_pieces path.now) route }
{
    Some(Asked {
        route,
        version: piece(path, 2)?,
        subject: piece(path, subject_place(route))?,
    })
}
