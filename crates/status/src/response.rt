//! Responses.

ghost use Rattle.std.specs.Prelude.{◌≡◌, ◌++◌, OnOk, IfOk, length};
ghost use Rattle.status.specs.Response.{status_text, type_text, extra_text, type_field, length_text, response_fields, response_head, response_text, asked_text, note_text};

use crate::wanted::{Asked, Wanted};
use itoa::Buffer;
use std::alloc::{AllocError, Global};

impl Wanted {
    /// The status line, up to its line end.
    #[tactic(auto, unfolding(crate::specs::Response::status_text))]
    fn status(self) -> &'static [u8]
        ensures { result.now ≡ status_text self }
    {
        match self {
            Wanted::Page | Wanted::Data | Wanted::History | Wanted::Metrics | Wanted::Health =>
                b"HTTP/1.1 200 OK",
            Wanted::TooFew | Wanted::Unsaved => b"HTTP/1.1 503 Service Unavailable",
            Wanted::NotFound => b"HTTP/1.1 404 Not Found",
            Wanted::BadMethod => b"HTTP/1.1 405 Method Not Allowed",
            Wanted::BadRequest => b"HTTP/1.1 400 Bad Request",
            Wanted::TooLong => b"HTTP/1.1 431 Request Header Fields Too Large",
        }
    }

    /// The type of the body.
    #[tactic(auto, unfolding(crate::specs::Response::type_text))]
    fn body_type(self) -> &'static [u8]
        ensures { result.now ≡ type_text self }
    {
        match self {
            Wanted::Page => b"text/html; charset=utf-8",
            Wanted::Data | Wanted::History => b"application/json",
            Wanted::Metrics => b"text/plain; version=0.0.4; charset=utf-8",
            _ => b"text/plain; charset=utf-8",
        }
    }

    /// The fields that only some responses have.
    #[tactic(auto, unfolding(crate::specs::Response::extra_text))]
    fn extra(self) -> &'static [u8]
        ensures { result.now ≡ extra_text self }
    {
        match self {
            Wanted::Page => {
                b"content-security-policy: default-src 'none'; script-src 'unsafe-inline'; style-src 'unsafe-inline'; connect-src 'self'\r\n"
            }
            Wanted::BadMethod => b"allow: GET, HEAD\r\n",
            _ => b"",
        }
    }

    /// The body of a response that shows no figures.
    pub fn note(self) -> &'static [u8]
        ensures { result.now ≡ note_text self }
    {
        match self {
            Wanted::Health => b"ok\n",
            Wanted::TooFew => b"Too few replicas are up.\n",
            Wanted::Unsaved => b"The last save failed: nothing is answered.\n",
            Wanted::NotFound => b"There are /, /metrics, /data.json, /history.json and /healthz.\n",
            Wanted::BadMethod => b"Only GET and HEAD are answered.\n",
            Wanted::BadRequest => b"This is no request of HTTP/1.\n",
            Wanted::TooLong => b"The head of the request is too long.\n",
            _ => b"",
        }
    }
}

#[tactic(auto, unfolding(crate::specs::Response::length_text))]
fn write_length(length: usize, out: &mut Vec<u8>) -> Result<(), AllocError>
    ensures { OnOk result (out.new.items ≡ out.old.items ++ length_text length) }
{
    let mut buffer = Buffer::new();
    out.extend_from_slice(b"\r\ncontent-length: ".as_slice())?;
    out.extend_from_slice(buffer.format(length).as_bytes())?;
    out.extend_from_slice(b"\r\n".as_slice())
}

/// The fields that each response has, and the empty line.
#[tactic(auto, unfolding(crate::specs::Response::response_fields))]
fn write_fields(out: &mut Vec<u8>) -> Result<(), AllocError>
    ensures { OnOk result (out.new.items ≡ out.old.items ++ response_fields) }
{
    out.extend_from_slice(
        b"cache-control: no-store\r\nx-content-type-options: nosniff\r\nconnection: close\r\n\r\n".as_slice(),
    )
}

/// The field with the type of the body.
#[tactic(auto, unfolding(crate::specs::Response::type_field))]
fn write_type(wanted: Wanted, out: &mut Vec<u8>) -> Result<(), AllocError>
    ensures { OnOk result (out.new.items ≡ out.old.items ++ type_field wanted) }
{
    out.extend_from_slice(b"\r\ncontent-type: ".as_slice())?;
    out.extend_from_slice(wanted.body_type())
}

fn write_head(wanted: Wanted, length: usize, out: &mut Vec<u8>) -> Result<(), AllocError>
    ensures { OnOk result (out.new.items ≡ out.old.items ++ response_head wanted length) }
{
    out.extend_from_slice(wanted.status())?;
    write_type(wanted, out)?;
    write_length(length, out)?;
    out.extend_from_slice(wanted.extra())?;
    write_fields(out)
}

/// The bytes of the response with this body, or its head alone. It fails if an allocation fails.
pub fn response_of(alloc: Global, asked: Asked, body: &[u8]) -> Result<Vec<u8>, AllocError>
    ensures { IfOk result (λ response. response.items ≡ asked_text asked body.now) }
{
    let mut out = Vec::with_capacity(alloc, 512)?;
    write_head(asked.wanted, body.len(), &mut out)?;
    if !asked.is_head {
        out.extend_from_slice(body)?;
    }
    Ok(out)
}
