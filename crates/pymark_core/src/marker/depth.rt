//! How deep the parentheses of a text are nested: a pass of its own before the grammar, since depth
//! is defined on every text, and one that is too deep and no marker besides is refused as too deep.

ghost use Rattle.std.specs.Prelude.{◌≡◌, ◌+◌, ◌<◌, ◌≤◌, ◌^◌, ◌∷◌, ℕ, List, count_by, length};
ghost use Rattle.std.specs.Prelude.{nat_lt};
ghost use Rattle.pymark_core.specs.Marker.Depth.{depth_limit, is_deep, is_opening};
ghost use Rattle.pymark_core.specs.Inner.Nesting.{is_deep_from};

/// How many parentheses may be open at one position.
const DEPTH_LIMIT: usize = 64;

/// What stands before a position of a text.
#[derive(Clone, Copy)]
struct Nesting {
    /// The quote of the quotation that is open.
    quote: Option<u8>,
    /// How many parentheses were opened.
    opened: usize,
    /// How many parentheses were closed.
    closed: usize,
}

impl Nesting {
    /// Passes over one byte.
    #[tactic(auto, using(crate::proofs::Lemmas::Marker::Depth::passed))]
    fn pass_byte(&mut self, byte: u8)
        requires capacity { (self.old.opened + 1 < 2 ^ 64) × (self.old.closed + 1 < 2 ^ 64) }
        requires flat { self.old.opened ≤ self.old.closed + depth_limit }
        ensures ahead { (rest : List ℕ)
            → is_deep_from self.new rest ≡ is_deep_from self.old (byte ∷ rest) }
        ensures opened { self.new.opened ≤ self.old.opened + 1 }
        ensures closed { self.new.closed ≤ self.old.closed + 1 }
    {
        match self.quote {
            Some(quote) => {
                if byte == quote {
                    self.quote = None;
                }
            }
            None => match byte {
                b'(' => self.opened += 1,
                b')' => self.closed += 1,
                b'"' | b'\'' => self.quote = Some(byte),
                _ => {}
            },
        }
    }
}

/// Whether too many parentheses are open at some position of the text, quoted texts passed over.
/// Few texts have as many at all, which a quick look tells.
#[tactic(auto, using(crate::proofs::Lemmas::Marker::Depth::few_opened))]
pub(super) fn is_deep(text: &str) -> bool
    ensures { result ≡ is_deep text.now }
{
    opens_many(text.as_bytes()) && is_nested_deep(text)
}

/// Whether more than 64 parentheses are opened in the text. They are counted chunk by chunk, and no
/// further than has to be.
fn opens_many(text: &[u8]) -> bool
    ensures { result ≡ nat_lt 64 (count_by is_opening text.now) }
{
    let (chunks, rest) = text.as_chunks::<128>();
    let mut count = 0;
    for chunk in chunks {
        count += opening_count(chunk) as usize;
        if count > DEPTH_LIMIT {
            return true;
        }
    }
    count + opening_count(rest) as usize > DEPTH_LIMIT
}

/// How many parentheses are opened in a text of at most 128 bytes. A count of one byte and a loop
/// without branches let many bytes be counted at once.
fn opening_count(text: &[u8]) -> u8
    requires { length text.now ≤ 128 }
    ensures { result ≡ count_by is_opening text.now }
{
    let mut count = 0;
    for byte in text {
        count += u8::from(*byte == b'(');
    }
    count
}

/// What `is_deep` tells, by a look at what stands before each byte.
#[tactic(auto, using(crate::proofs::Lemmas::Marker::Depth::deep_or_flat))]
fn is_nested_deep(text: &str) -> bool
    ensures { result ≡ is_deep text.now }
{
    let mut nesting = Nesting {
        quote: None,
        opened: 0,
        closed: 0,
    };
    for byte in text.as_bytes() {
        nesting.pass_byte(*byte);
        if nesting.opened.saturating_sub(nesting.closed) > DEPTH_LIMIT {
            return true;
        }
    }
    false
}
