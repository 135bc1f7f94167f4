//! Which token may follow which in a marker (PEP 508, "Grammar").

ghost use Rattle.std.specs.Prelude.{◌≡◌, ◌+◌, ◌<◌, ◌≤◌, ◌^◌};
ghost use Rattle.pymark_core.specs.Inner.LentToken.{token_view};
ghost use Rattle.pymark_expected.specs.Marker.Following.{after_comparison, after_left, after_not};
ghost use Rattle.pymark_expected.specs.Marker.Following.{after_right, after_start, depth_after};
ghost use Rattle.pymark_expected.specs.Marker.Following.{follow, is_misuse, is_operand_word};
ghost use Rattle.pymark_expected.specs.Marker.Following.{is_set_word};

use pymark_core::{Token, Var};

/// What may stand next in a marker.
#[derive(Clone, Copy, PartialEq, Eq, Debug)]
pub(crate) enum Next {
    /// An operand or `(`.
    Start,
    /// An operator, or `not`.
    Operator,
    /// The `in` of `not in`.
    In,
    /// The operand right of an operator of specifiers.
    Text,
    /// The operand right of `in` or `not in`.
    Container,
    /// `and`, `or`, `)` or the end.
    Rest,
}

/// Whether the word is `extras` or `dependency_groups`.
fn is_set_word(letters: &str) -> bool
    ensures { result ≡ is_set_word letters.now }
{
    letters == "extras" || letters == "dependency_groups"
}

/// Whether the word is an operand.
fn is_operand_word(letters: &str) -> bool
    ensures { result ≡ is_operand_word letters.now }
{
    letters == "extra" || is_set_word(letters) || Var::of(letters).is_some()
}

fn after_start(token: Token<'_>) -> Option<Next>
    ensures { result ≡ after_start (token_view token.entry) }
{
    match token {
        Token::Open => Some(Next::Start),
        Token::Word(letters) if is_operand_word(letters) => Some(Next::Operator),
        Token::Quoted(_) => Some(Next::Operator),
        _ => None,
    }
}

fn after_left(token: Token<'_>) -> Option<Next>
    ensures { result ≡ after_left (token_view token.entry) }
{
    match token {
        Token::Sign(_) => Some(Next::Text),
        Token::Word("in") => Some(Next::Container),
        Token::Word("not") => Some(Next::In),
        _ => None,
    }
}

fn after_not(token: Token<'_>) -> Option<Next>
    ensures { result ≡ after_not (token_view token.entry) }
{
    match token {
        Token::Word("in") => Some(Next::Container),
        _ => None,
    }
}

fn after_right(token: Token<'_>) -> Option<Next>
    ensures { result ≡ after_right (token_view token.entry) }
{
    match token {
        Token::Word(letters) if is_operand_word(letters) => Some(Next::Rest),
        Token::Quoted(_) => Some(Next::Rest),
        _ => None,
    }
}

fn after_comparison(depth: usize, token: Token<'_>) -> Option<Next>
    ensures { result ≡ after_comparison depth (token_view token.entry) }
{
    match token {
        Token::Close if depth > 0 => Some(Next::Rest),
        Token::Word("and" | "or") => Some(Next::Start),
        _ => None,
    }
}

/// What may stand behind this token, where it may follow in so many open parentheses.
pub(super) fn follow(next: Next, depth: usize, token: Token<'_>) -> Option<Next>
    ensures { result ≡ follow next depth (token_view token.entry) }
{
    match next {
        Next::Start => after_start(token),
        Next::Operator => after_left(token),
        Next::In => after_not(token),
        Next::Text | Next::Container => after_right(token),
        Next::Rest => after_comparison(depth, token),
    }
}

/// Whether the token is a set that is taken for a text.
pub(super) fn is_misuse(next: Next, token: Token<'_>) -> bool
    ensures { result ≡ is_misuse next (token_view token.entry) }
{
    match token {
        Token::Word(letters) => matches!(next, Next::Start | Next::Text) && is_set_word(letters),
        _ => false,
    }
}

/// How many parentheses are open behind the token.
pub(super) fn depth_after(token: Token<'_>, depth: usize) -> usize
    requires { depth + 1 < 2 ^ 64 }
    ensures value { result ≡ depth_after (token_view token.entry) depth }
    ensures most { result ≤ depth + 1 }
{
    match token {
        Token::Open => depth + 1,
        Token::Close => depth.saturating_sub(1),
        _ => depth,
    }
}
