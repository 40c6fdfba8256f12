//! What a call asks for.
ghost use Rattle.std.specs.Prelude.{codes};
ghost use Rattle.bidi_classic.specs.Routes.{IsRouted};

use bidi_requests::{AllowedMethods, Method, is_of_session};

/// What a call asks for.
#[derive(Clone, Copy, Debug, PartialEq, Eq)]
pub enum Route {
    /// A new session.
    New,
    /// The end of the session at the resource.
    End,
    /// Another method than the resource has.
    NotAllowed(AllowedMethods),
    /// Something that is no command here.
    Unknown,
}

/// What a call asks for, by its method and its resource. A GET of the status is none: it is answered before.
pub fn route_of(method: Method, resource: &str) -> Route
    // The result is that of the definition.
    ensures { IsRouted method resource.now result }
{
    if resource == "/session" {
        return session_route(method);
    }
    if resource == "/status" {
        return Route::NotAllowed(AllowedMethods::Get);
    }
    if !is_of_session(resource.as_bytes()) {
        return Route::Unknown;
    }
    if method == Method::Delete {
        Route::End
    } else {
        Route::NotAllowed(AllowedMethods::GetAndDelete)
    }
}

// What a call of /session asks for.
fn session_route(method: Method) -> Route
    ensures { IsRouted method (codes "/session") result }
{
    if method == Method::Post {
        Route::New
    } else {
        Route::NotAllowed(AllowedMethods::GetAndPost)
    }
}
