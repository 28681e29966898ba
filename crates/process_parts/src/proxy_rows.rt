//! The rows of proxies, and back.

ghost use Rattle.std.specs.Prelude.{◌≡◌, ◌≤◌, map, IfOk};
ghost use Rattle.std.specs.Option.{option_map};
ghost use Rattle.process_text.specs.Text.{AreNumberedRows};
ghost use Rattle.process_parts.specs.Parts.{asked_of_row, proxy_of_row};

use client::Asked;
use process_text::{ProxyRow, StoredRequest};
use proxies::Proxy;
use std::alloc::{AllocError, Global};

/// What is stored of a request that is outstanding.
fn stored_request(asked: &Asked) -> Result<StoredRequest, AllocError>
    ensures { IfOk result (λ stored. asked_of_row stored ≡ asked.now) }
{
    Ok(StoredRequest {
        request: asked.request.clone()?,
        quiet: asked.quiet,
    })
}

/// What is stored of what a proxy has outstanding.
fn stored_asked(proxy: &Proxy) -> Result<Option<StoredRequest>, AllocError>
    ensures { IfOk result (λ stored. option_map asked_of_row stored ≡ proxy.now.asked) }
{
    match proxy.asked() {
        None => Ok(None),
        Some(asked) => Ok(Some(stored_request(asked)?)),
    }
}

/// The row of a proxy.
fn row_of_proxy(proxy: &Proxy) -> Result<ProxyRow, AllocError>
    ensures { IfOk result (λ row. proxy_of_row row ≡ proxy.now) }
{
    let asked = stored_asked(proxy)?;
    Ok(ProxyRow {
        client: proxy.client(),
        last: proxy.last(),
        asked,
    })
}

/// A row for each proxy.
pub(crate) fn rows_of_proxies(alloc: Global, proxies: &[Proxy]) -> Result<Vec<ProxyRow>, AllocError>
    ensures { IfOk result (λ rows. map proxy_of_row rows.items ≡ proxies.now) }
{
    let mut rows = Vec::with_capacity(alloc, proxies.len())?;
    for proxy in proxies {
        rows.push(row_of_proxy(proxy)?)?;
    }
    Ok(rows)
}

/// The request that is stored so.
fn asked_of(stored: &StoredRequest) -> Result<Asked, AllocError>
    ensures { IfOk result (λ asked. asked ≡ asked_of_row stored.now) }
{
    Ok(Asked {
        request: stored.request.clone()?,
        quiet: stored.quiet,
    })
}

/// What the row has outstanding.
fn asked_in(row: &ProxyRow) -> Result<Option<Asked>, AllocError>
    ensures { IfOk result (λ asked. asked ≡ option_map asked_of_row row.now.asked) }
{
    match &row.asked {
        None => Ok(None),
        Some(stored) => Ok(Some(asked_of(stored)?)),
    }
}

/// The proxy of a row.
fn proxy_of(row: &ProxyRow) -> Result<Proxy, AllocError>
    requires { 1 ≤ row.now.client }
    ensures { IfOk result (λ proxy. proxy ≡ proxy_of_row row.now) }
{
    let asked = asked_in(row)?;
    Ok(Proxy::of(row.client, row.last, asked))
}

/// The proxy of each row.
pub(crate) fn proxies_of(alloc: Global, rows: &[ProxyRow]) -> Result<Vec<Proxy>, AllocError>
    requires { AreNumberedRows rows.now }
    ensures { IfOk result (λ proxies. proxies.items ≡ map proxy_of_row rows.now) }
{
    let mut proxies = Vec::with_capacity(alloc, rows.len())?;
    for row in rows {
        proxies.push(proxy_of(row)?)?;
    }
    Ok(proxies)
}
