ghost use Rattle.std.specs.Prelude.{◌≡◌, IfOk, option_copied};
ghost use Rattle.gate_http.specs.Routes.{the_routes as routes};
ghost use Rattle.gate_http.specs.Targets as targets;

use crate::target::{Report, Target};
use crate::token::Token;
use gate_text::ChangeNo;
use matchit::{InsertError, Router};
use std::alloc::{AllocError, Global};
use std::marker::Model;
use std::str;

// The routes. The path of a change has its number in it, or some other text.
#[derive(Clone, Copy)]
enum Route {
    Deliveries,
    Queue,
    Change,
}

/// The routes of requests, and the token that a request has to bear, if there is one. A contract sees that token, or none.
#[derive(Drop)]
pub struct Routes {
    router: Router<Route>,
    token: Option<Token>,
}

impl Model for Routes {
    ghost use Rattle.std.specs.Prelude.{◌≡◌, ℕ, List, Option};

    ghost Value = { Option (List ℕ) };

    ghost use Rattle.gate_http.specs.Routes.{the_routes};

    ghost view = { λ routes. routes.token };

    ghost invariant = { λ routes. routes.router ≡ the_routes };
}

// The three routes.
fn the_routes(alloc: Global) -> Result<Router<Route>, InsertError>
    ensures { IfOk result (λ router. router ≡ routes) }
{
    let mut router = Router::new(alloc);
    router.insert("/deliveries", Route::Deliveries)?;
    router.insert("/queue", Route::Queue)?;
    router.insert("/changes/{n}", Route::Change)?;
    Ok(router)
}

// The change of this number, if the text is one.
fn change_of(number: &str) -> Option<Target>
    ensures { result ≡ targets.change_of number.now }
{
    match ChangeNo::read(number) {
        Ok(number) => Some(Target::Report(Report::Change(number))),
        Err(_) => None,
    }
}

// What a path names, by these routes.
fn target_by(router: &Router<Route>, path: &str) -> Option<Target>
    requires { router.now ≡ routes }
    ensures { result ≡ targets.target_of path.now }
{
    let Ok(found) = router.at(path) else {
        return None;
    };
    match found.value {
        Route::Deliveries => Some(Target::Deliveries),
        Route::Queue => Some(Target::Report(Report::Queue)),
        Route::Change => match found.params.get("n") {
            Some(number) => change_of(number),
            None => None,
        },
    }
}

impl Routes {
    /// The routes, and this token for requests to bear, if there is one. `AllocError` if there is no memory for the routes.
    pub fn new(alloc: Global, token: Option<Token>) -> Result<Routes, AllocError>
        ensures token { IfOk result (λ routes. routes ≡ token) }
    {
        match the_routes(alloc) {
            Ok(router) => Ok(Routes { router, token }),
            // The routes don't conflict, so memory alone can be wanting.
            Err(_) => Err(AllocError),
        }
    }

    /// The token that a request has to bear, if there is one.
    pub fn token(&self) -> Option<&Token>
        ensures token { option_copied result ≡ self.now }
    {
        self.token.as_ref()
    }

    /// What a path names. A path that isn't UTF-8 names nothing.
    pub fn target_of(&self, path: &[u8]) -> Option<Target>
        ensures target { result ≡ targets.target_of path.now }
    {
        let Ok(path) = str::from_utf8(path) else {
            return None;
        };
        target_by(&self.router, path)
    }
}
