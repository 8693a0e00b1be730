//! Requests that are refused.
ghost use Rattle.std.specs.Prelude.{OnOk};
ghost use Rattle.http_server.specs.Response.{IsBlank};
ghost use Rattle.table_pages.specs.Refused.{TellsRefused};

use crate::page_texts::PageTexts;
use http_server::Response;
use std::alloc::AllocError;
use web_requests::{Refusal, put_explained, put_refusal};

/// Fills a response with a refusal: a path at which there is nothing and another name of the host are explained by a page, and
/// others have no body.
pub(crate) fn put_refused(
    texts: &PageTexts,
    refusal: Refusal,
    response: &mut Response,
) -> Result<(), AllocError>
    requires { IsBlank response.old }
    ensures { OnOk result (TellsRefused texts.now refusal response.new) }
{
    match refusal {
        Refusal::NotFound => put_explained(response, Refusal::NotFound, texts.unknown_page),
        Refusal::Misdirected => put_explained(response, Refusal::Misdirected, texts.wrong_host),
        Refusal::OnlyRead => put_refusal(response, Refusal::OnlyRead),
        Refusal::OnlyPosted => put_refusal(response, Refusal::OnlyPosted),
        Refusal::WrongType => put_refusal(response, Refusal::WrongType),
        Refusal::TooLong => put_refusal(response, Refusal::TooLong),
    }
}
