//! What a request on the page port asks for, or why it is refused.
ghost use Rattle.std.specs.Prelude.{◌≡◌, ◌==◌, option_copied};
ghost use Rattle.std.specs.Char.{is_ascii_digit};
ghost use Rattle.std.specs.List.{before_first, list_all};
ghost use Rattle.http.specs.Request.{head_of};
ghost use Rattle.http_uri.specs.Uri.{uri_authority, uri_query};
ghost use Rattle.till_request.specs.Grammar.{number};
ghost use Rattle.page_port.specs.Answering.{status_of, text_refusing};
ghost use Rattle.page_port.specs.Asking.{requested_endpoint, field_host, is_for_this_machine, is_of_http, is_allowed_host, is_loopback_host, is_named, is_empty_or_port, is_get_or_head};
ghost use Rattle.page_port.specs.Asking.{lines_after, lines_in, lines_of_day, behind_and, day_digits, journal_at, endpoint_at};

use bytes::Bytes;
use http::{Request, StatusCode, header};
use till_request::numbers::number_u32;

#[derive(Clone, Copy)]
pub enum Endpoint {
    Page,
    /// For Prometheus.
    Metrics,
    Health,
    /// The lines of a day's journal, of the served one where none is named, behind the entry with the number `after`.
    Journal { day: Option<u32>, after: u32 },
}

#[derive(Clone, Copy)]
pub enum Refusal {
    /// Another host than this machine is named, so a page of another web site could have sent the request.
    OtherHost,
    /// As in `https://localhost/`.
    OtherScheme,
    NoSuchPath,
    OtherMethod,
    /// The query of `/journal` isn't made of a day, 1 to 2^32 - 1, and `after`, a number below 2^32, in plain digits.
    BadQuery,
}

impl Refusal {
    pub fn status(self) -> StatusCode
        ensures { result ≡ status_of self }
    {
        match self {
            Refusal::OtherHost => StatusCode::FORBIDDEN,
            Refusal::OtherScheme => StatusCode::MISDIRECTED_REQUEST,
            Refusal::NoSuchPath => StatusCode::NOT_FOUND,
            Refusal::OtherMethod => StatusCode::METHOD_NOT_ALLOWED,
            Refusal::BadQuery => StatusCode::BAD_REQUEST,
        }
    }

    pub fn text(self) -> &'static str
        ensures { result.now ≡ text_refusing self }
    {
        match self {
            Refusal::OtherHost => "this page is for localhost, 127.0.0.1 and [::1] alone\n",
            Refusal::OtherScheme => "only http is answered here\n",
            Refusal::NoSuchPath =>
                "nothing is here: try /, /metrics, /healthz or /journal?day=D&after=N\n",
            Refusal::OtherMethod => "only GET and HEAD are answered here\n",
            Refusal::BadQuery =>
                "write after=N, day=D or day=D&after=N, with N from 0 and D from 1 to 4294967295 in plain digits\n",
        }
    }
}

fn are_digits(digits: &[u8]) -> bool
    ensures { result ≡ list_all is_ascii_digit digits.now }
{
    digits.iter().all(|byte| byte.is_ascii_digit())
}

/// Whether `rest`, behind a host's name, is empty, or a colon and digits, perhaps none.
fn is_empty_or_port(rest: &[u8]) -> bool
    ensures { result ≡ is_empty_or_port rest.now }
{
    match rest {
        [first, digits @ ..] => *first == b':' && are_digits(digits),
        [] => true,
    }
}

fn is_named(host: &[u8], name: &[u8]) -> bool
    ensures { result ≡ is_named host.now name.now }
{
    if host.len() < name.len() {
        return false;
    }
    let (front, rest) = host.split_at(name.len());
    front.eq_ignore_ascii_case(name) && is_empty_or_port(rest)
}

/// Whether a host is this machine, in upper or lower case, with any port or none.
fn is_loopback_host(host: &[u8]) -> bool
    ensures { result ≡ is_loopback_host host.now }
{
    is_named(host, b"localhost") || is_named(host, b"127.0.0.1") || is_named(host, b"[::1]")
}

fn lines_after(day: Option<u32>, digits: &[u8]) -> Result<Endpoint, Refusal>
    ensures { result ≡ lines_after day (number 32 digits.now) }
{
    match number_u32(digits) {
        Ok(after) => Ok(Endpoint::Journal { day, after }),
        Err(_) => Err(Refusal::BadQuery),
    }
}

/// Where the lines of a day begin: at the first entry, or behind the one that `after=` names.
fn lines_in(day: Option<u32>, query: Option<&str>) -> Result<Endpoint, Refusal>
    ensures { result ≡ lines_in day (option_copied query.entry) }
{
    let Some(query) = query else {
        return Ok(Endpoint::Journal { day, after: 0 });
    };
    let query = query.as_bytes();
    if query.len() < 6 {
        return Err(Refusal::BadQuery);
    }
    let (key, digits) = query.split_at(6);
    if key == b"after=".as_slice() {
        lines_after(day, digits)
    } else {
        Err(Refusal::BadQuery)
    }
}

/// The lines of the day that `digits` name; `query` is what follows them.
fn lines_of_day(digits: &[u8], query: Option<&str>) -> Result<Endpoint, Refusal>
    ensures { result ≡ lines_of_day (number 32 digits.now) (option_copied query.entry) }
{
    match number_u32(digits) {
        Ok(day) if day > 0 => lines_in(Some(day), query),
        _ => Err(Refusal::BadQuery),
    }
}

fn before_and(query: &str) -> &str
    ensures { result.now ≡ before_first (λ byte. byte == 38) query.now }
{
    match query.split_once('&') {
        Some((front, _)) => front,
        None => query,
    }
}

fn behind_and(query: &str) -> Option<&str>
    ensures { option_copied result ≡ behind_and query.now }
{
    match query.split_once('&') {
        Some((_, rest)) => Some(rest),
        None => None,
    }
}

/// What is behind `day=`.
fn day_digits(first: &[u8]) -> Option<&[u8]>
    ensures { option_copied result ≡ day_digits first.now }
{
    if first.len() < 4 {
        return None;
    }
    let (key, digits) = first.split_at(4);
    if key == b"day=".as_slice() {
        Some(digits)
    } else {
        None
    }
}

/// Which lines a query of `/journal` asks for. A day stands before the entry.
fn journal_at(query: Option<&str>) -> Result<Endpoint, Refusal>
    ensures { result ≡ journal_at (option_copied query.entry) }
{
    let Some(text) = query else {
        return lines_in(None, None);
    };
    match day_digits(before_and(text).as_bytes()) {
        Some(digits) => lines_of_day(digits, behind_and(text)),
        None => lines_in(None, query),
    }
}

fn endpoint_at(path: &[u8], query: Option<&str>) -> Result<Endpoint, Refusal>
    ensures { result ≡ endpoint_at path.now (option_copied query.entry) }
{
    if path == b"/".as_slice() {
        return Ok(Endpoint::Page);
    }
    if path == b"/metrics".as_slice() {
        return Ok(Endpoint::Metrics);
    }
    if path == b"/healthz".as_slice() {
        return Ok(Endpoint::Health);
    }
    if path == b"/journal".as_slice() {
        return journal_at(query);
    }
    Err(Refusal::NoSuchPath)
}

fn is_get_or_head(method: &[u8]) -> bool
    ensures { result ≡ is_get_or_head method.now }
{
    method == b"GET".as_slice() || method == b"HEAD".as_slice()
}

/// What stands before the path in a request's target: the host, perhaps with a port and a user's name.
fn target_host(request: &Request<Bytes>) -> Option<&[u8]>
    ensures { option_copied result ≡ uri_authority (head_of request.now).uri }
{
    match request.uri().authority() {
        Some(authority) => Some(authority.as_str().as_bytes()),
        None => None,
    }
}

fn field_host(request: &Request<Bytes>) -> Option<&[u8]>
    ensures { option_copied result ≡ field_host (head_of request.now) }
{
    match request.headers().get(header::HOST) {
        Some(host) => Some(host.as_bytes()),
        None => None,
    }
}

fn is_for_this_machine(request: &Request<Bytes>) -> bool
    ensures { result ≡ is_for_this_machine (head_of request.now) }
{
    is_allowed_host(target_host(request)) && is_allowed_host(field_host(request))
}

fn is_of_http(request: &Request<Bytes>) -> bool
    ensures { result ≡ is_of_http (head_of request.now) }
{
    match request.uri().scheme_str() {
        Some(scheme) => scheme.as_bytes() == b"http".as_slice(),
        None => true,
    }
}

/// A request that names no host is accepted too.
fn is_allowed_host(host: Option<&[u8]>) -> bool
    ensures { result ≡ is_allowed_host (option_copied host.entry) }
{
    match host {
        Some(host) => is_loopback_host(host),
        None => true,
    }
}

/// The query of a request's target, without its `?`.
fn query_of(request: &Request<Bytes>) -> Option<&str>
    ensures { option_copied result ≡ uri_query (head_of request.now).uri }
{
    request.uri().query()
}

/// What a request asks for. Its hosts are checked first, then its scheme, its method, its path, and last its query.
pub fn requested_endpoint(request: &Request<Bytes>) -> Result<Endpoint, Refusal>
    // proved: A request for another host than this machine is refused
    // proved: Only GET and HEAD are
    // proved: The numbers behind `day=` and `after=` are read as they are
    ensures { result ≡ requested_endpoint (head_of request.now) }
{
    if !is_for_this_machine(request) {
        return Err(Refusal::OtherHost);
    }
    if !is_of_http(request) {
        return Err(Refusal::OtherScheme);
    }
    if !is_get_or_head(request.method().as_str().as_bytes()) {
        return Err(Refusal::OtherMethod);
    }
    endpoint_at(request.uri().path().as_bytes(), query_of(request))
}
