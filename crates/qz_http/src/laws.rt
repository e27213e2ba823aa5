//! What holds of links, whatever the pieces in which their bytes come.

ghost use Rattle.std.specs.Prelude.{◌≡◌, ◌++◌, ℕ, List, false};
ghost use Rattle.qz_http.specs.declared.items.Item.{Item};
ghost use Rattle.qz_http.specs.declared.items.Item.TheVariants as item;
ghost use Rattle.qz_http.specs.declared.items.LinkEnd.{LinkEnd};
ghost use Rattle.qz_http.specs.Links.{Link, Gives, fed, new_link};
ghost use Rattle.qz_http.specs.Talk.{Serves, Talk, Talks, ended_link};

/// What a link gives before its bytes have ended it gives whatever bytes follow, and they are left behind it: where it needs no more
/// bytes, it doesn't matter how many more of them have come.
pub fn later_bytes_change_nothing_given()
    ensures { (link after : Link) (given : Item) (more : List ℕ) → link.finished ≡ false → (given ≡ item.Need → ⊥)
        → Gives link given after → Gives (fed link more) given (fed after more) }
{}

/// The items given by a link that was fed these bytes in any pieces, and asked at any time between, are the first items of all its
/// bytes; and those behind them are what the link gives further.
pub fn items_given_are_the_first_of_all()
    ensures { (after : Link) (bytes more : List ℕ) (items rest : List Item) (why : LinkEnd) → Serves new_link bytes items after
        → Talks (ended_link (fed after more)) rest why → Talk (bytes ++ more) (items ++ rest) why }
{}

/// Bytes say no two things: all that a link gives to them, in whatever pieces they come, is one list of items and one end. That each list
/// of bytes says something is the clause of `end_of`.
pub fn each_link_says_one_thing()
    ensures { (bytes : List ℕ) (items others : List Item) (why other : LinkEnd) → Talk bytes items why → Talk bytes others other
        → (items ≡ others) × (why ≡ other) }
{}
