//! What a request gets.

ghost use Rattle.std.specs.Prelude.{◌≡◌};
ghost use Rattle.status_page.specs.Responses.{status_of};

use crate::page::Page;
use http::StatusCode;

/// What a request gets.
#[derive(Clone, Copy, PartialEq, Eq)]
pub enum Answer {
    /// It gets this page: 200.
    Shown(Page),
    /// It names no host or several, or a host within its target: 400.
    BadRequest,
    /// It names a host that isn't the page's: 403.
    Forbidden,
    /// No page is there: 404.
    NotFound,
    /// Its method is neither GET nor HEAD: 405.
    NotAllowed,
}

impl Answer {
    /// The status code of the response.
    pub fn status(self) -> StatusCode
        ensures { result ≡ status_of self }
    {
        match self {
            Answer::Shown(_) => StatusCode::OK,
            Answer::BadRequest => StatusCode::BAD_REQUEST,
            Answer::Forbidden => StatusCode::FORBIDDEN,
            Answer::NotFound => StatusCode::NOT_FOUND,
            Answer::NotAllowed => StatusCode::METHOD_NOT_ALLOWED,
        }
    }
}
