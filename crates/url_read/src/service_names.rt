//! The services by their names.

ghost use Rattle.std.specs.Prelude.{◌≡◌};
ghost use Rattle.url_read.specs.Request.{service_named};

#[derive(Clone, Copy, Debug, PartialEq, Eq)]
pub(crate) enum ServiceName {
    Route,
    Table,
    Nearest,
    Trip,
}

// The service of a name, None where there is none.
pub(crate) fn service_named(text: &str) -> Option<ServiceName>
    ensures { result ≡ service_named text.now }
{
    match text {
        "route" => Some(ServiceName::Route),
        "table" => Some(ServiceName::Table),
        "nearest" => Some(ServiceName::Nearest),
        "trip" => Some(ServiceName::Trip),
        _ => None,
    }
}
