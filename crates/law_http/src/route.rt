//! Which part of the desk a request asks.

ghost use Rattle.std.specs.Prelude.{◌≡◌, IfOk};
ghost use Rattle.law_http.specs.Routes as spec;

use crate::status::Allow;
use crate::{Query, Request, RequestRefusal};
use desk_base::Memory;
use matchit::{InsertError, Router};
use std::alloc::Global;

/// What a path stands for.
#[derive(Clone, Copy, Debug, PartialEq, Eq)]
pub enum Route {
    /// GET /front
    Front,
    /// GET /text
    Text,
    /// GET /preview
    Preview,
    /// GET /draft
    Draft,
    /// POST /commands
    Commands,
}

impl Route {
    /// The one method that the path has.
    pub fn method(self) -> Allow
        ensures { result ≡ spec.method_of self }
    {
        match self {
            Route::Front | Route::Text | Route::Preview | Route::Draft => Allow::Get,
            Route::Commands => Allow::Post,
        }
    }
}

/// The target up to the first `?`, and what stands behind that.
pub(crate) fn split_target(target: &str) -> (&str, &str)
    ensures path { result.0.now ≡ spec.path_of target.now }
    ensures query { result.1.now ≡ spec.query_of target.now }
{
    match target.split_once('?') {
        Some((path, query)) => (path, query),
        None => (target, ""),
    }
}

/// The paths of the desk, in a router. Whoever reads requests has them made once, and lends them to each.
#[derive(Drop)]
pub struct Routes {
    router: Router<Route>,
    ghost leads: { spec.LeadsFromPaths router } by { spec.LeadsFromPaths-prop router },
}

fn all_paths(alloc: Global) -> Result<Router<Route>, InsertError>
    ensures { IfOk result spec.LeadsFromPaths }
{
    let mut router = Router::new(alloc);
    router.insert("/commands", Route::Commands)?;
    router.insert("/draft", Route::Draft)?;
    router.insert("/front", Route::Front)?;
    router.insert("/preview", Route::Preview)?;
    router.insert("/text", Route::Text)?;
    Ok(router)
}

impl Routes {
    /// The paths of the desk.
    pub fn new(alloc: Global) -> Result<Routes, Memory> {
        match all_paths(alloc) {
            Ok(router) => Ok(Routes { router }),
            Err(_) => Err(Memory),
        }
    }

    /// What a path stands for. Paths are compared as they were sent, byte for byte.
    pub fn at(&self, path: &str) -> Option<Route>
        ensures { result ≡ spec.route_at path.now }
    {
        match self.router.at(path) {
            Ok(found) => Some(*found.value),
            Err(_) => None,
        }
    }
}

fn has_method(method: &str, allow: Allow) -> bool
    ensures { result ≡ spec.has_method method.now allow }
{
    match (allow, method.as_bytes()) {
        (Allow::Get, [b'G', b'E', b'T']) => true,
        (Allow::Post, [b'P', b'O', b'S', b'T']) => true,
        _ => false,
    }
}

pub(crate) fn with_method(method: &str, route: Option<Route>) -> Result<Route, RequestRefusal>
    ensures { result ≡ spec.with_method method.now route }
{
    match route {
        None => Err(RequestRefusal::NoRoute),
        Some(route) if has_method(method, route.method()) => Ok(route),
        Some(route) => Err(RequestRefusal::WrongMethod(route.method())),
    }
}

// Whether a query has the keys that the route knows, none of them twice, and those that it needs.
fn has_keys_of(query: &Query, route: Route) -> bool
    ensures { result ≡ spec.has_keys_of route query.now }
{
    match route {
        Route::Front | Route::Commands => query.has_keys(&[]),
        Route::Text => {
            query.has_keys(&["expression", "viewpoint", "reading"])
                && query.value("expression").is_some()
        }
        Route::Preview => {
            query.has_keys(&["drafter", "expression", "reading"])
                && query.value("drafter").is_some()
                && query.value("expression").is_some()
        }
        Route::Draft => query.has_keys(&["drafter"]) && query.value("drafter").is_some(),
    }
}

pub(crate) fn judged(query: Query, route: Route) -> Result<Query, RequestRefusal>
    ensures { result ≡ spec.judged route query }
{
    if has_keys_of(&query, route) {
        Ok(query)
    } else {
        Err(RequestRefusal::BadForm { form: 2, place: 0 })
    }
}

impl Request {
    /// What the request asks, by the path of its target and then by its method.
    pub fn route(&self, routes: &Routes) -> Result<Route, RequestRefusal>
        ensures { result ≡ spec.route_of self.now.method self.now.target }
    {
        let (path, _) = split_target(self.target.as_str());
        with_method(self.method.as_str(), routes.at(path))
    }

    /// The query: what stands behind the first `?` of the target, or nothing.
    pub fn query(&self) -> &str
        ensures { result.now ≡ spec.query_of self.now.target }
    {
        let (_, query) = split_target(self.target.as_str());
        query
    }

    /// The pairs of the query, for a route. Where a key is unknown, is there twice or is missing, the form is bad by
    /// rule 2. Values are not judged.
    pub fn read_query(
        &self,
        alloc: Global,
        route: Route,
    ) -> Result<Result<Query, RequestRefusal>, Memory>
        ensures { IfOk result (λ asked. asked ≡ spec.asked_of route self.now.target) }
    {
        Ok(judged(Query::from_text(alloc, self.query())?, route))
    }
}
