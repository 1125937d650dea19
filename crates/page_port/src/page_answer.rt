//! The answer to a request on the page port.
ghost use Rattle.std.specs.Prelude.{◌≡◌, ◌++◌, ◌∷◌, [], None, codes, OnOk};
ghost use Rattle.std.specs.Fmt.{decimal};
ghost use Rattle.http_server.specs.Response.{IsBlank, fields_of};
ghost use Rattle.page_port.specs.Answering.{HasAnswer, Refuses, fields, fields_refusing, type_of};
ghost use Rattle.page_port.specs.declared.page_answer.MediaType.TheVariants.{Plain};

use crate::routing::Refusal;
use bytes::Bytes;
use http::{HeaderName, HeaderValue, StatusCode, header};
use http_server::Response;
use std::alloc::{AllocError, Global};

#[derive(Clone, Copy)]
pub enum MediaType {
    Html,
    Metrics,
    Plain,
}

impl MediaType {
    fn content_type(self) -> HeaderValue
        ensures { result.bytes ≡ type_of self }
    {
        match self {
            MediaType::Html => HeaderValue::from_static("text/html; charset=utf-8"),
            MediaType::Metrics => HeaderValue::from_static(
                "text/plain; version=0.0.4; charset=utf-8",
            ),
            MediaType::Plain => HeaderValue::from_static("text/plain; charset=utf-8"),
        }
    }
}

#[derive(Drop)]
pub struct PageAnswer {
    pub status: StatusCode,
    pub kind: MediaType,
    /// The served day, if the answer names it.
    pub day: Option<u32>,
    pub text: Bytes,
}

impl PageAnswer {
    pub fn plain_answer(status: StatusCode, text: &'static str) -> PageAnswer
        ensures status { result.status ≡ status }
        ensures kind { result.kind ≡ Plain }
        ensures day { result.day ≡ None }
        ensures text { result.text ≡ text.now }
    {
        PageAnswer {
            status,
            kind: MediaType::Plain,
            day: None,
            text: Bytes::from_static(text.as_bytes()),
        }
    }

    /// Fills `response`, which must be blank. One header field ends the connection after the answer, so that a waiting
    /// client can be served.
    pub fn fill_response(self, alloc: Global, response: &mut Response) -> Result<(), AllocError>
        requires { IsBlank response.old }
        ensures { OnOk result (HasAnswer self response.new) }
    {
        let PageAnswer {
            status,
            kind,
            day,
            text,
        } = self;
        response.status = status;
        response.body.push(text)?;
        add_fields(kind, response)?;
        match day {
            Some(day) => add_day(alloc, day, response),
            None => Ok(()),
        }
    }
}

fn add_fields(kind: MediaType, response: &mut Response) -> Result<(), AllocError>
    requires { fields_of response.old ≡ [] }
    ensures fields { OnOk result (fields_of response.new ≡ fields kind) }
    ensures status { response.new.status ≡ response.old.status }
    ensures body { response.new.body ≡ response.old.body }
{
    response.add_header(header::CONTENT_TYPE, kind.content_type())?;
    response.add_header(header::CACHE_CONTROL, HeaderValue::from_static("no-store"))?;
    response.add_header(
        header::X_CONTENT_TYPE_OPTIONS,
        HeaderValue::from_static("nosniff"),
    )?;
    response.add_header(
        header::CONTENT_SECURITY_POLICY,
        HeaderValue::from_static("default-src 'none'; style-src 'unsafe-inline'"),
    )?;
    response.add_header(header::CONNECTION, HeaderValue::from_static("close"))
}

/// Names the day that is served.
fn add_day(alloc: Global, day: u32, response: &mut Response) -> Result<(), AllocError>
    ensures fields { OnOk result (fields_of response.new
        ≡ fields_of response.old ++ (codes "x-fc-day", decimal day) ∷ []) }
    ensures status { response.new.status ≡ response.old.status }
    ensures body { response.new.body ≡ response.old.body }
{
    match HeaderValue::from_string(format!(in alloc; "{day}")?) {
        Ok(value) => response.add_header(HeaderName::from_static("x-fc-day"), value),
        Err(_) => Err(AllocError),
    }
}

/// Names GET and HEAD where the method is another. `response` must have exactly the fields of a plain answer.
fn add_allowed(refusal: Refusal, response: &mut Response) -> Result<(), AllocError>
    requires { fields_of response.old ≡ fields Plain }
    ensures fields { OnOk result (fields_of response.new ≡ fields_refusing refusal) }
    ensures status { response.new.status ≡ response.old.status }
    ensures body { response.new.body ≡ response.old.body }
{
    match refusal {
        Refusal::OtherMethod => response.add_header(
            header::ALLOW,
            HeaderValue::from_static("GET, HEAD"),
        ),
        Refusal::OtherHost | Refusal::OtherScheme | Refusal::NoSuchPath | Refusal::BadQuery => Ok(
            (),
        ),
    }
}

pub fn refuse(alloc: Global, refusal: Refusal, response: &mut Response) -> Result<(), AllocError>
    requires { IsBlank response.old }
    ensures { OnOk result (Refuses refusal response.new) }
{
    PageAnswer::plain_answer(refusal.status(), refusal.text()).fill_response(alloc, response)?;
    add_allowed(refusal, response)
}
