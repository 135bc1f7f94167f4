//! Spans in a text, and what stands there.

ghost use Rattle.std.specs.Prelude.{◌≡◌};
ghost use Rattle.pywheel_core.specs.Spans.{IsAsciiText, IsWithin, at};

/// Where a piece stands in a text.
#[derive(Clone, Copy)]
pub(crate) struct Span {
    pub(crate) start: usize,
    pub(crate) end: usize,
}

impl Span {
    /// What stands there in an ASCII text.
    pub(crate) fn of(self, text: &str) -> &str
        requires ascii { IsAsciiText text.now }
        requires within { IsWithin text.now self }
        ensures { result.now ≡ at text.now self }
    {
        &text[self.start..self.end]
    }
}
