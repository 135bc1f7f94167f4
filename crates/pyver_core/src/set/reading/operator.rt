//! The operator that a specifier begins with.

ghost use Rattle.std.specs.Prelude.{◌≡◌, option_map};
ghost use Rattle.pyver_core.specs.Set.Reading.{after_operator, operator_at};

use crate::set::Operator;

/// The longest operator that the text begins with.
#[tactic(auto, unfolding(crate::specs::Set::Reading::operator_at))]
fn longest_operator(text: &str) -> Option<Operator>
    ensures { result ≡ option_map (λ cut. cut.0) (operator_at text.now) }
{
    match text.as_bytes() {
        [b'=', b'=', b'=', ..] => Some(Operator::Arbitrary),
        [b'~', b'=', ..] => Some(Operator::Compatible),
        [b'=', b'=', ..] => Some(Operator::Equal),
        [b'!', b'=', ..] => Some(Operator::NotEqual),
        [b'<', b'=', ..] => Some(Operator::AtMost),
        [b'>', b'=', ..] => Some(Operator::AtLeast),
        [b'<', ..] => Some(Operator::Before),
        [b'>', ..] => Some(Operator::After),
        _ => None,
    }
}

/// The text after the operator.
fn after_operator(text: &str, operator: Operator) -> Option<&str>
    ensures { option_map (λ rest. rest.now) result ≡ after_operator operator text.now }
{
    text.strip_prefix(operator.as_str())
}

impl Operator {
    /// The longest operator that the text begins with, and the text after it (PEP 440, "Version
    /// specifiers"). It takes no memory.
    #[tactic(auto, using(crate::proofs::Lemmas::Set::Reading::Operators::no_cut))]
    pub fn read(text: &str) -> Option<(Operator, &str)>
        ensures { option_map (λ cut. (cut.0, cut.1.now)) result ≡ operator_at text.now }
    {
        let operator = longest_operator(text)?;
        let rest = after_operator(text, operator)?;
        Some((operator, rest))
    }
}
