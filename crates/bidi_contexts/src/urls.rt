//! The first URL of a context, and the origins of URLs.
ghost use Rattle.std.specs.Prelude.{◌≡◌, IfOk, string_bytes};
ghost use Rattle.url.specs.Origin as spec;
ghost use Rattle.bidi_contexts.specs.UrlsInHand.{IsUrlOf};
ghost use Rattle.bidi_contexts.specs.Urls.{about_blank, origin_text, parsed};

use bidi_handles::Refusal;
use bidi_params::ErrorCode;
use std::alloc::{AllocError, Global};
use url::{ParseError, Url};

/// `about:blank`, the URL of a new top-level context.
pub(crate) fn about_blank(alloc: Global) -> Result<Url, AllocError>
    ensures { IfOk result (λ url. url ≡ about_blank) }
{
    match Url::parse(alloc, "about:blank") {
        Ok(url) => Ok(url),
        Err(_) => Err(AllocError),
    }
}

/// Parses an absolute URL.
///
/// # Errors
/// - `invalid argument`: the text is no absolute URL.
/// - No memory: an allocation failed.
pub fn parsed(alloc: Global, text: &str) -> Result<Url, Refusal>
    // It is the URL of the text, or the refusal says that the text has none or that an allocation failed.
    ensures { IsUrlOf result (parsed text.now) }
{
    match Url::parse(alloc, text) {
        Ok(url) => Ok(url),
        Err(ParseError::Overflow | ParseError::OutOfMemory) => Err(Refusal::NoMemory),
        Err(_) => Err(Refusal::Code(ErrorCode::InvalidArgument)),
    }
}

/// The serialised origin of an http or https URL; any other URL has the origin `null`.
pub(crate) fn origin_text(alloc: Global, url: &Url) -> Result<String, AllocError>
    ensures { IfOk result (λ s. string_bytes s ≡ origin_text url.now) }
{
    if !is_http(url) {
        return String::from_str(alloc, "null");
    }
    match url.origin() {
        Ok(origin) => origin.ascii_serialization(alloc),
        Err(_) => Err(AllocError),
    }
}

/// Whether the scheme is http or https.
fn is_http(url: &Url) -> bool
    ensures { result ≡ spec.is_http url.now.scheme }
{
    url.scheme() == "http" || url.scheme() == "https"
}
