//! Responses, filled.
ghost use Rattle.std.specs.Prelude.{◌≡◌, [], ◌∷◌, ◌++◌, OnOk, IsTrue};
ghost use Rattle.http_header.specs.FieldValue.{is_visible_text};
ghost use Rattle.http_server.specs.Response.{IsBlank, fields_of};
ghost use Rattle.web_requests.specs.Filled.{guard_fields, text_fields, status_of, IsText, IsRefused, IsExplained, IsUnavailable};

use crate::kind::Kind;
use crate::route::Refusal;
use bytes::{BufMut, Bytes};
use http::header::{
    ALLOW, CACHE_CONTROL, CONTENT_SECURITY_POLICY, CONTENT_TYPE, REFERRER_POLICY,
    X_CONTENT_TYPE_OPTIONS,
};
use http::{HeaderName, HeaderValue, StatusCode};
use http_server::Response;
use std::alloc::AllocError;

/// What a browser may do with a page: run its script and use its style, both from here, ask this server, and show pictures
/// that stand in the page itself.
const POLICY: &str =
    "default-src 'none'; script-src 'self'; style-src 'self'; connect-src 'self'; img-src data:; base-uri 'none'; form-action 'none'; frame-ancestors 'none'";

/// Adds a header of the program's own text.
fn add(response: &mut Response, name: HeaderName, value: &'static str) -> Result<(), AllocError>
    requires { IsTrue (is_visible_text value.now) }
    ensures headers { OnOk result (fields_of response.new ≡ fields_of response.old ++ (name, value.now) ∷ []) }
    ensures status { response.new.status ≡ response.old.status }
    ensures body { response.new.body ≡ response.old.body }
{
    response.add_header(name, HeaderValue::from_static(value))
}

/// Adds the headers that each response carries. They keep it out of caches and of pages of other sites, and tell a browser
/// to run no script and to use no style but what this server gives, to ask nobody else, to send no form, to be in no frame
/// and to tell nobody where it was.
fn guard(response: &mut Response) -> Result<(), AllocError>
    ensures headers { OnOk result (fields_of response.new ≡ fields_of response.old ++ guard_fields) }
    ensures status { response.new.status ≡ response.old.status }
    ensures body { response.new.body ≡ response.old.body }
{
    add(response, CACHE_CONTROL, "no-store")?;
    add(response, X_CONTENT_TYPE_OPTIONS, "nosniff")?;
    add(response, REFERRER_POLICY, "no-referrer")?;
    add(
        response,
        HeaderName::from_static("cross-origin-resource-policy"),
        "same-origin",
    )?;
    add(response, CONTENT_SECURITY_POLICY, POLICY)
}

/// Adds the headers of a text.
fn head_text(response: &mut Response, kind: Kind) -> Result<(), AllocError>
    ensures headers { OnOk result (fields_of response.new ≡ fields_of response.old ++ text_fields kind) }
    ensures status { response.new.status ≡ response.old.status }
    ensures body { response.new.body ≡ response.old.body }
{
    add(response, CONTENT_TYPE, kind.content_type())?;
    guard(response)
}

/// Fills a response with a text of the program, which is not copied.
pub fn put_static(response: &mut Response, kind: Kind, text: &'static str) -> Result<(), AllocError>
    requires { IsBlank response.old }
    ensures { OnOk result (IsText kind text.now response.new) }
{
    head_text(response, kind)?;
    response.body.push(Bytes::from_static(text.as_bytes()))
}

/// Fills a response with a text.
pub fn put_text(response: &mut Response, kind: Kind, text: &[u8]) -> Result<(), AllocError>
    requires { IsBlank response.old }
    ensures { OnOk result (IsText kind text.now response.new) }
{
    head_text(response, kind)?;
    response.body.put_slice(text)
}

/// Fills a response with a refusal, which has no body.
pub fn put_refusal(response: &mut Response, refusal: Refusal) -> Result<(), AllocError>
    requires { IsBlank response.old }
    ensures { OnOk result (IsRefused refusal response.new) }
{
    response.status = status_code(refusal);
    guard(response)?;
    match refusal {
        Refusal::OnlyRead => add(response, ALLOW, "GET, HEAD"),
        Refusal::OnlyPosted => add(response, ALLOW, "POST"),
        _ => Ok(()),
    }
}

/// Fills a response with a refusal that a page of the program explains, which is not copied.
pub fn put_explained(
    response: &mut Response,
    refusal: Refusal,
    text: &'static str,
) -> Result<(), AllocError>
    requires { IsBlank response.old }
    ensures { OnOk result (IsExplained refusal text.now response.new) }
{
    response.status = status_code(refusal);
    head_text(response, Kind::Page)?;
    response.body.push(Bytes::from_static(text.as_bytes()))
}

/// Makes of any response one that says nothing, not even whether the request was taken: 503, without headers or a body. It
/// takes no memory.
pub fn put_unavailable(response: &mut Response)
    ensures { IsUnavailable response.new }
{
    response.clear();
    response.status = StatusCode::SERVICE_UNAVAILABLE;
}

/// The status of a refusal.
fn status_code(refusal: Refusal) -> StatusCode
    ensures { result ≡ status_of refusal }
{
    match refusal {
        Refusal::Misdirected => StatusCode::MISDIRECTED_REQUEST,
        Refusal::NotFound => StatusCode::NOT_FOUND,
        Refusal::OnlyRead | Refusal::OnlyPosted => StatusCode::METHOD_NOT_ALLOWED,
        Refusal::WrongType => StatusCode::UNSUPPORTED_MEDIA_TYPE,
        Refusal::TooLong => StatusCode::PAYLOAD_TOO_LARGE,
    }
}
