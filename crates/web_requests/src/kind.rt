//! What a text is.
ghost use Rattle.std.specs.Prelude.{◌≡◌};
ghost use Rattle.web_requests.specs.Filled.{type_of};

/// What a text is, as a browser is told.
#[derive(Clone, Copy, Debug, PartialEq, Eq)]
pub enum Kind {
    /// A page.
    Page,
    /// A script.
    Script,
    /// A style.
    Style,
    /// Lines of the protocol.
    Lines,
}

impl Kind {
    /// The type of such a text.
    pub(crate) fn content_type(self) -> &'static str
        ensures { result.now ≡ type_of self }
    {
        match self {
            Kind::Page => "text/html; charset=utf-8",
            Kind::Script => "text/javascript; charset=utf-8",
            Kind::Style => "text/css; charset=utf-8",
            Kind::Lines => "application/x-table-lines",
        }
    }
}
