//! Whether bytes go past a request target.

ghost use Rattle.std.specs.Prelude.{◌≡◌};
ghost use Rattle.httparse.specs.Grammar.{is_uri_byte};
ghost use Rattle.qz_http.specs.Targets.{next_place, place_after, is_past_target};

use httparse::is_header_name_token;

/// Where bytes of a request line end.
#[derive(Clone, Copy, PartialEq, Eq)]
pub enum Place {
    /// In the empty lines before it.
    Blank,
    /// Behind the carriage return of one of these.
    Return,
    Method,
    Target,
    /// Behind the target, or at a byte that stands in no request line.
    Elsewhere,
}

fn next_place(place: Place, byte: u8) -> Place
    ensures { result ≡ next_place place byte }
{
    match place {
        Place::Blank if is_header_name_token(byte) => Place::Method,
        Place::Blank if byte == b'\r' => Place::Return,
        Place::Blank | Place::Return if byte == b'\n' => Place::Blank,
        Place::Method if is_header_name_token(byte) => Place::Method,
        Place::Method if byte == b' ' => Place::Target,
        Place::Target if byte > b' ' && byte != 127 => Place::Target,
        Place::Blank | Place::Return | Place::Method | Place::Target | Place::Elsewhere =>
            Place::Elsewhere,
    }
}

/// Whether a space has ended the target of a request line, or a byte stands that is in no request line.
pub fn is_past_target(bytes: &[u8]) -> bool
    ensures { result ≡ is_past_target bytes.now }
{
    let mut place = Place::Blank;
    for byte in bytes {
        place = next_place(place, *byte);
    }
    place == Place::Elsewhere
}
