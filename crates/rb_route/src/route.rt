ghost use Rattle.rb_route.specs.Router.{subject_place};
ghost use Rattle.rb_route.specs.Routes.{is_version, takes_method};
ghost use Rattle.std.specs.Prelude.{◌≡◌};

use rb_causes::decimal;

/// What may be asked for.
#[derive(Clone, Copy, Debug, PartialEq, Eq)]
pub enum Route {
    /// A run of a job.
    Run,
    Execution,
    /// The results of an execution's steps.
    State,
    Abort,
    /// The jobs of a project.
    Jobs,
    ImportJobs,
    /// The nodes of a project.
    Resources,
    /// The executions of a project's jobs.
    Executions,
    ImportPolicy,
}

/// The place of what is spoken of among the pieces of a path of this route.
pub(crate) fn subject_place(route: Route) -> usize
    ensures { result ≡ subject_place route }
{
    match route {
        Route::Run => 4,
        Route::Execution => 4,
        Route::State => 4,
        Route::Abort => 4,
        Route::Jobs => 4,
        Route::ImportJobs => 4,
        Route::Resources => 4,
        Route::Executions => 4,
        Route::ImportPolicy => 5,
    }
}

/// Whether the route is asked for by this method.
pub fn takes_method(route: Route, method: &str) -> bool
    ensures { result ≡ takes_method route method.now }
{
    match route {
        Route::Run => method == "POST",
        Route::Execution => method == "GET",
        Route::State => method == "GET",
        Route::Abort => method == "GET" || method == "POST",
        Route::Jobs => method == "GET",
        Route::ImportJobs => method == "POST",
        Route::Resources => method == "GET",
        Route::Executions => method == "GET",
        Route::ImportPolicy => method == "POST",
    }
}

/// Whether this is a version that is served: a decimal from 24 to 34.
pub fn is_version(text: &str) -> bool
    ensures { result ≡ is_version text.now }
{
    match decimal(text) {
        None => false,
        Some(version) => 24 <= version && version <= 34,
    }
}
