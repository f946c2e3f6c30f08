//! What a request asks for.

ghost use Rattle.std.specs.Prelude.{◌≡◌, codes};
ghost use Rattle.std.specs.Option.{option_map};
ghost use Rattle.http.specs.Request.{head_of};
ghost use Rattle.status_page.specs.Answers.{answer_at, answer_to, lone};
ghost use Rattle.http_header.specs.HeaderMap.{get_all};

use crate::answer::Answer;
use crate::names::PageNames;
use crate::page::Page;
use bytes::Bytes;
use http::{HeaderMap, HeaderValue, Request};

/// What a request gets, by its host, then its path, then its method.
pub fn answer_request(names: &PageNames, request: &Request<Bytes>) -> Answer
    ensures { result ≡ answer_to names.now (head_of request.now) }
{
    if request.uri().scheme_str().is_some() || request.uri().authority().is_some() {
        return Answer::BadRequest;
    }
    match lone_host(request.headers()) {
        None => Answer::BadRequest,
        Some(host) if !names.is_own(host) => Answer::Forbidden,
        Some(_) => answer_at(request.uri().path(), request.method().as_str()),
    }
}

/// The value of the Host field, if there is one such field.
fn lone_host(headers: &HeaderMap<HeaderValue>) -> Option<&[u8]>
    ensures { option_map (λ host. host.now) result ≡ lone (get_all headers.now (codes "host")) }
{
    let mut hosts = headers.get_all("host").iter();
    match (hosts.next(), hosts.next()) {
        (Some(host), None) => Some(host.as_bytes()),
        _ => None,
    }
}

/// What a request of the page's own host gets by its path and its method.
fn answer_at(path: &str, method: &str) -> Answer
    ensures { result ≡ answer_at path.now method.now }
{
    match Page::at(path) {
        None => Answer::NotFound,
        Some(page) if method == "GET" || method == "HEAD" => Answer::Shown(page),
        Some(_) => Answer::NotAllowed,
    }
}
