//! Where a request goes.
ghost use Rattle.std.specs.Prelude.{◌≡◌};
ghost use Rattle.http.specs.Request.{head_of};
ghost use Rattle.http_uri.specs.Uri.{uri_path};
ghost use Rattle.web_requests.specs.Route.{is_here, is_read, reading, posting, route_elsewhere, route_for};

use bytes::Bytes;
use http::Request;
use http::header::{CONTENT_TYPE, HOST};

/// What a request asks for.
#[derive(Clone, Copy, Debug, PartialEq, Eq)]
pub enum Route {
    /// `GET /`: the page.
    Page,
    /// `GET /texts.js`: all that its scripts say.
    TextsScript,
    /// `GET /shared.js`: what its other scripts share.
    SharedScript,
    /// `GET /table.js`: the players' script.
    TableScript,
    /// `GET /boards.js`: the script of boards that are over.
    BoardsScript,
    /// `GET /desk.js`: the script of what stands beside the session.
    DeskScript,
    /// `GET /director.js`: the director's script.
    DirectorScript,
    /// `GET /table.css`: its style.
    Style,
    /// `POST /lines`: lines of the protocol are to be answered.
    Lines,
    /// `POST /correct`: the director's corrections are to be answered.
    Correct,
    /// `POST /place`: the place of the player whose key is its body is to be told.
    Place,
    /// `POST /tables`: all tables are to be told to the director whose key is its body.
    Tables,
    /// `POST /boards`: the boards that the pair of the player has finished, whose key is its body, are to be told.
    Boards,
    /// `POST /results`: the results are to be told to the holder of the key that is its body.
    Results,
    /// `POST /desk`: what its body asks of the desk is to be answered, beside the session.
    Desk,
    /// `POST /names`: the names that are shown in place of the configuration's are to be told to the holder of the key that is its body.
    Names,
    /// `POST /wait`: it is to be answered once what is told to the key that its body begins with is another text than the rest of it.
    Wait,
    /// Nothing that is here.
    Refused(Refusal),
}

/// Why a request is refused, in the order in which it is judged.
#[derive(Clone, Copy, Debug, PartialEq, Eq)]
pub enum Refusal {
    /// 421: the request names no host, or another than this one, as where a name of another site was bound to this address, and
    /// does not read the style.
    Misdirected,
    /// 404: there is nothing at its path, or what is there is asked alone and a query stands behind the path.
    NotFound,
    /// 405: what is there is read alone, by `GET` or `HEAD`.
    OnlyRead,
    /// 405: what is there is asked alone, by `POST`.
    OnlyPosted,
    /// 415: its body is of another type than lines. A form of another site, and a fetch that asks nobody, cannot have that type.
    WrongType,
    /// 413: its body is longer than is read at once.
    TooLong,
}

/// The type of a body that is lines of the protocol.
const LINES_TYPE: &[u8] = b"application/x-table-lines";

/// Where a request goes that came to a server which goes by two names, each a host and its port.
///
/// A target that names a host of its own is refused, and so is a query behind a path to which lines are posted, since a key
/// has no place in an address. Behind the path of what is read a query is ignored.
pub fn route_of(host: &str, alias: &str, request: &Request<Bytes>) -> Route
    ensures { result ≡ route_for host.now alias.now (head_of request.now) }
{
    if !is_here(host, alias, request) {
        return elsewhere(request);
    }
    match request.uri().path() {
        "/" => reading(request, Route::Page),
        "/texts.js" => reading(request, Route::TextsScript),
        "/shared.js" => reading(request, Route::SharedScript),
        "/table.js" => reading(request, Route::TableScript),
        "/boards.js" => reading(request, Route::BoardsScript),
        "/desk.js" => reading(request, Route::DeskScript),
        "/director.js" => reading(request, Route::DirectorScript),
        "/table.css" => reading(request, Route::Style),
        "/lines" => posting(request, Route::Lines),
        "/correct" => posting(request, Route::Correct),
        "/place" => posting(request, Route::Place),
        "/tables" => posting(request, Route::Tables),
        "/boards" => posting(request, Route::Boards),
        "/results" => posting(request, Route::Results),
        "/desk" => posting(request, Route::Desk),
        "/wait" => posting(request, Route::Wait),
        "/names" => posting(request, Route::Names),
        _ => Route::Refused(Refusal::NotFound),
    }
}

/// Whether the request names this server, by either of its names.
fn is_here(host: &str, alias: &str, request: &Request<Bytes>) -> bool
    ensures { result ≡ is_here host.now alias.now (head_of request.now) }
{
    if request.uri().authority().is_some() {
        return false;
    }
    match request.headers().get(HOST) {
        Some(value) => {
            let name = value.as_bytes();
            name == host.as_bytes() || name == alias.as_bytes()
        }
        None => false,
    }
}

/// Where a request under another name goes: the style alone is read there, so that the page which says so has it.
fn elsewhere(request: &Request<Bytes>) -> Route
    ensures { result ≡ route_elsewhere (uri_path (head_of request.now).uri) (head_of request.now).method }
{
    if request.uri().path() == "/table.css" && is_read(request) {
        Route::Style
    } else {
        Route::Refused(Refusal::Misdirected)
    }
}

/// Whether something is read by the request's method.
fn is_read(request: &Request<Bytes>) -> bool
    ensures { result ≡ is_read (head_of request.now).method }
{
    match request.method().as_str() {
        "GET" | "HEAD" => true,
        _ => false,
    }
}

/// The route of a path that is read, and of any other method.
fn reading(request: &Request<Bytes>, route: Route) -> Route
    ensures { result ≡ reading route (head_of request.now).method }
{
    if is_read(request) {
        route
    } else {
        Route::Refused(Refusal::OnlyRead)
    }
}

/// The route of a path to which lines are posted, and of a query behind it, any other method or type.
fn posting(request: &Request<Bytes>, route: Route) -> Route
    ensures { result ≡ posting route (head_of request.now) }
{
    if request.uri().query().is_some() {
        return Route::Refused(Refusal::NotFound);
    }
    if request.method().as_str() != "POST" {
        return Route::Refused(Refusal::OnlyPosted);
    }
    match request.headers().get(CONTENT_TYPE) {
        Some(value) if value.as_bytes() == LINES_TYPE => route,
        _ => Route::Refused(Refusal::WrongType),
    }
}
