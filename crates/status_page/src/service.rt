//! The page as a service of HTTP.

ghost use Rattle.std.specs.Prelude.{◌≡◌, ◌++◌, [], OnOk};
ghost use Rattle.http.specs.Request.{head_of};
ghost use Rattle.http_header.specs.FieldValue.{plain_value};
ghost use Rattle.http_server.specs.Response.{IsResponse, fields_of};
ghost use Rattle.status_page.specs.Answers.{answer_to};
ghost use Rattle.status_page.specs.Responses.{status_of, content_type_of, fields_of_answer, body_of_answer, guards, allowed};

use crate::answer::Answer;
use crate::asking::answer_request;
use crate::names::PageNames;
use crate::page::{Content, Page};
use bytes::{BufMut, Bytes};
use http::{HeaderName, HeaderValue, Request, header};
use http_server::{Response, Service};
use std::alloc::AllocError;

/// The page by its names and its content. It only reads both.
#[derive(Drop)]
pub struct PageService<'a, C> {
    /// The names by which it is asked for.
    pub names: &'a PageNames,
    /// What it holds.
    pub content: &'a C,
}

impl<C: Content> Service for PageService<'_, C> {
    // The response is that of the answer, and nothing changes.
    ghost answers = { λ before request response after. (after ≡ before)
        × IsResponse (status_of (answer_to before.names.now (head_of request)))
        (fields_of_answer (answer_to before.names.now (head_of request)))
        (body_of_answer (C.content before.content.now) (answer_to before.names.now (head_of request))) response };

    fn call(
        &mut self,
        request: &Request<Bytes>,
        response: &mut Response,
    ) -> Result<(), AllocError> {
        let answer = answer_request(self.names, request);
        response.status = answer.status();
        add_fields(answer, response)?;
        write_body(answer, self.content, response)
    }
}

/// Adds the fields of the response, which has none.
fn add_fields(answer: Answer, response: &mut Response) -> Result<(), AllocError>
    requires { fields_of response.old ≡ [] }
    ensures fields { OnOk result (fields_of response.new ≡ fields_of_answer answer) }
    ensures status { response.new.status ≡ response.old.status }
    ensures body { response.new.body ≡ response.old.body }
{
    response.add_header(header::CONTENT_TYPE, content_type(answer))?;
    add_guards(response)?;
    if answer == Answer::NotAllowed {
        response.add_header(header::ALLOW, HeaderValue::from_static("GET, HEAD"))?;
    }
    Ok(())
}

/// Adds what keeps the page from being kept, taken for another kind, or filled from elsewhere.
fn add_guards(response: &mut Response) -> Result<(), AllocError>
    ensures fields { OnOk result (fields_of response.new ≡ fields_of response.old ++ guards) }
    ensures status { response.new.status ≡ response.old.status }
    ensures body { response.new.body ≡ response.old.body }
{
    response.add_header(header::CACHE_CONTROL, HeaderValue::from_static("no-store"))?;
    response.add_header(
        header::X_CONTENT_TYPE_OPTIONS,
        HeaderValue::from_static("nosniff"),
    )?;
    response.add_header(
        HeaderName::from_static("cross-origin-resource-policy"),
        HeaderValue::from_static("same-origin"),
    )?;
    response.add_header(
        header::CONTENT_SECURITY_POLICY,
        HeaderValue::from_static(
            "default-src 'none'; script-src 'unsafe-inline'; style-src 'unsafe-inline'; connect-src 'self'; base-uri 'none'; form-action 'none'; frame-ancestors 'none'",
        ),
    )?;
    Ok(())
}

/// The kind of text of the response.
fn content_type(answer: Answer) -> HeaderValue
    ensures { result ≡ plain_value (content_type_of answer) }
{
    match answer {
        Answer::Shown(Page::Status) => HeaderValue::from_static("text/html; charset=utf-8"),
        Answer::Shown(Page::State) => HeaderValue::from_static("application/json"),
        Answer::Shown(Page::Metrics) => {
            HeaderValue::from_static("text/plain; version=0.0.4; charset=utf-8")
        }
        Answer::BadRequest | Answer::Forbidden | Answer::NotFound | Answer::NotAllowed => {
            HeaderValue::from_static("text/plain; charset=utf-8")
        }
    }
}

/// Puts the page into an empty body, or why there is none.
fn write_body<C: Content>(
    answer: Answer,
    content: &C,
    response: &mut Response,
) -> Result<(), AllocError>
    requires { response.old.body.items ≡ [] }
    ensures body { OnOk result (response.new.body.items
        ≡ body_of_answer (C.content content.now) answer) }
    ensures status { response.new.status ≡ response.old.status }
    ensures fields { fields_of response.new ≡ fields_of response.old }
{
    let body = &mut response.body;
    match answer {
        Answer::Shown(page) => content.write(page, body),
        Answer::BadRequest => body.put_slice(b"400: one Host field, and a target without a host\n"),
        Answer::Forbidden => body.put_slice(
            b"403: ask for the page by its address or by localhost\n",
        ),
        Answer::NotFound => body.put_slice(b"404: there are /, /metrics and /state.json\n"),
        Answer::NotAllowed => body.put_slice(b"405: the page is only read, by GET\n"),
    }
}
