//! The lines that the service answers itself: which they are, and what is told to each. It asks nobody, and knows no connection.
ghost use Rattle.std.specs.Prelude.{◌≡◌};
ghost use Rattle.mi_clients.specs.ServiceLines as spec;

/// What is told to another line beside those that have a place.
pub(crate) const PLACES: &[u8] = b"{\"error\":\"places\",\"ok\":false}\n";

/// Whether a line is the service's own: it begins with `{"service":"`.
#[inline]
pub fn is_service(line: &[u8]) -> bool
    ensures { result ≡ spec.is_service line.now }
{
    line.starts_with(b"{\"service\":\"")
}

/// Whether a line asks for the status.
fn asks_status(line: &[u8]) -> bool
    ensures { result ≡ spec.asks_status line.now }
{
    line == b"{\"service\":\"status\"}\n".as_slice()
        || line == b"{\"service\":\"status\"}\r\n".as_slice()
}

/// Whether a line asks for the schema.
fn asks_schema(line: &[u8]) -> bool
    ensures { result ≡ spec.asks_schema line.now }
{
    line == b"{\"service\":\"schema\"}\n".as_slice()
        || line == b"{\"service\":\"schema\"}\r\n".as_slice()
}

/// The number that decimal digits are, where they are some and it has room.
fn number_in(digits: &[u8]) -> Option<u64>
    ensures { result ≡ spec.number_in digits.now }
{
    if digits.starts_with(b"+") {
        return None;
    }
    match str::from_utf8(digits) {
        Ok(text) => text.parse::<u64>().ok(),
        Err(_error) => None,
    }
}

/// The number of the connection that a line asks to end.
pub(crate) fn ended_in(line: &[u8]) -> Option<u64>
    ensures { result ≡ spec.ended_in line.now }
{
    let Some(rest) = line.strip_prefix(b"{\"service\":\"end\",\"connection\":") else {
        return None;
    };
    match rest.strip_suffix(b"}\n") {
        Some(digits) => number_in(digits),
        None => number_in(rest.strip_suffix(b"}\r\n")?),
    }
}

/// What is told beside the others to a line: what the service tells to one of its own, and to another one that there is no place for it.
pub(crate) fn told_beside<'a>(line: &[u8], status: &'a [u8], schema: &'a [u8]) -> &'a [u8]
    ensures { result.now ≡ spec.told_beside status.now schema.now line.now }
{
    if is_service(line) {
        told_to(line, status, schema)
    } else {
        PLACES
    }
}

/// What is told to a line of the service: the status or the schema where it asks for one, that a connection is ended where it asks for that,
/// and else that its form is refused.
pub(crate) fn told_to<'a>(line: &[u8], status: &'a [u8], schema: &'a [u8]) -> &'a [u8]
    ensures { result.now ≡ spec.told_to status.now schema.now line.now }
{
    if asks_status(line) {
        status
    } else if asks_schema(line) {
        schema
    } else if ended_in(line).is_some() {
        b"{\"ok\":true}\n"
    } else {
        b"{\"error\":\"form\",\"ok\":false}\n"
    }
}
