//! A place of a text, in the text with its secrets hidden.

ghost use Rattle.std.specs.Prelude.{◌≡◌, reverse};
ghost use Rattle.pylock_pointed.specs.Lines.{IsLastCut, alike_len, place_in};

/// The place in the text with its secrets hidden, which cuts no character.
pub(crate) fn place_in_hidden(text: &str, hidden: &str, place: usize) -> usize
    ensures { IsLastCut hidden.now (place_in text.now hidden.now place) result }
{
    hidden.floor_char_boundary(place_in(text.as_bytes(), hidden.as_bytes(), place))
}

/// The place in the text with its secrets hidden. Before and behind what is hidden the two are
/// alike; of a place between, it is where that begins.
fn place_in(text: &[u8], hidden: &[u8], place: usize) -> usize
    ensures { result ≡ place_in text.now hidden.now place }
{
    let before = alike_len(text, hidden);
    let behind = text.len().saturating_sub(place);
    if place <= before {
        place
    } else if behind <= alike_len_at_end(text, hidden) {
        hidden.len().saturating_sub(behind)
    } else {
        before
    }
}

/// How many bytes the two begin with alike.
fn alike_len(left: &[u8], right: &[u8]) -> usize
    ensures { result ≡ alike_len left.now right.now }
{
    left.iter()
        .zip(right.iter())
        .take_while(|pair| pair.0 == pair.1)
        .count()
}

/// How many bytes the two end with alike.
fn alike_len_at_end(left: &[u8], right: &[u8]) -> usize
    ensures { result ≡ alike_len (reverse left.now) (reverse right.now) }
{
    left.iter()
        .rev()
        .zip(right.iter().rev())
        .take_while(|pair| pair.0 == pair.1)
        .count()
}
