//! The characters of a text, from the front.

ghost use Rattle.std.specs.Prelude.{◌≡◌, ◌<◌, [], ◌∷◌, length, MatchOption, IfSome, IfNone};
ghost use Rattle.std.specs.Str.{chars};
ghost use Rattle.gift_lex.specs.Blocks.{without_order_mark};

/// The first character of a text, and what follows it.
#[inline]
pub(crate) fn split_char(text: &str) -> Option<(char, &str)>
    ensures cases { MatchOption result (chars text.now ≡ []) (λ x. chars text.now ≡ x.0 ∷ chars x.1.now) }
    ensures empty { IfNone result (text.now ≡ []) }
    ensures shorter { IfSome result (λ x. length x.1.now < length text.now) }
{
    let mut chars = text.chars();
    match chars.next() {
        Some(first) => Some((first, chars.as_str())),
        None => None,
    }
}

/// A text without a byte order mark at its front.
pub(crate) fn without_order_mark(text: &str) -> &str
    ensures { chars result.now ≡ without_order_mark (chars text.now) }
{
    match split_char(text) {
        Some(('\u{feff}', after)) => after,
        _ => text,
    }
}
