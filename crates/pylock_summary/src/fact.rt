//! What a lock says of itself under one key.

ghost use Rattle.std.specs.Prelude.{◌≡◌, ◌++◌, IfOk, OnOk, map, option_map};
ghost use Rattle.std.specs.Option.{option_copied};
ghost use Rattle.pylock_shown.specs.Hidden.{hidden};
ghost use Rattle.pylock_summary.specs.Fact.{number_fact, text_fact, texts_fact, told_view};

use pylock_shown::hidden;
use pytext::Text;
use std::alloc::{AllocError, Global};
use std::marker::Model;

/// What is told under a key. A text is shown without what may open a URL.
#[derive(Drop)]
pub enum Told {
    /// A text, which may be absent.
    Text(Option<Text>),
    /// Texts, of which there may be none.
    Texts(Vec<Text>),
    /// A number.
    Number(usize),
}

/// What a lock says of itself under one key.
pub struct Fact {
    key: &'static str,
    told: Told,
}

impl Model for Fact {
    ghost use Rattle.pylock_summary.specs.Fact.{FactValue, told_view};

    ghost Value = { FactValue };

    ghost view = { λ f. record { key = f.key.now; told = told_view f.told } };
}

impl Drop for Fact {
    fn drop(self) {
        let Fact { key: _, told: _ } = self;
    }
}

impl Fact {
    /// Its key. It takes no memory.
    pub fn key(&self) -> &'static str
        ensures { result.now ≡ self.now.key }
    {
        self.key
    }

    /// What is told under the key. It takes no memory.
    pub fn told(&self) -> &Told
        ensures { told_view result.now ≡ self.now.told }
    {
        &self.told
    }

    /// A text that may be absent.
    pub(crate) fn of_text(
        alloc: Global,
        key: &'static str,
        text: Option<&str>,
    ) -> Result<Fact, AllocError>
        ensures { IfOk result (λ fact. fact ≡ text_fact key.now (option_copied text.entry)) }
    {
        let told = Told::Text(shown_maybe(alloc, text)?);
        Ok(Fact { key, told })
    }

    /// These texts.
    pub(crate) fn of_texts(
        alloc: Global,
        key: &'static str,
        texts: &[&str],
    ) -> Result<Fact, AllocError>
        ensures { IfOk result (λ fact. fact
            ≡ texts_fact key.now (map (λ text. text.now) texts.now)) }
    {
        let told = Told::Texts(shown_texts(alloc, texts)?);
        Ok(Fact { key, told })
    }

    /// A number. It takes no memory.
    pub(crate) fn of_number(key: &'static str, number: usize) -> Fact
        ensures { result ≡ number_fact key.now number }
    {
        let told = Told::Number(number);
        Fact { key, told }
    }
}

/// The text as it is shown, where there is one.
fn shown_maybe(alloc: Global, text: Option<&str>) -> Result<Option<Text>, AllocError>
    ensures { IfOk result (λ shown. shown ≡ option_map hidden (option_copied text.entry)) }
{
    match text {
        Some(text) => Ok(Some(Text::new(hidden(alloc, text)?))),
        None => Ok(None),
    }
}

/// The texts as they are shown.
fn shown_texts(alloc: Global, texts: &[&str]) -> Result<Vec<Text>, AllocError>
    ensures { IfOk result (λ shown. shown.items
        ≡ map hidden (map (λ text. text.now) texts.now)) }
{
    let mut shown = Vec::with_capacity(alloc, texts.len())?;
    for text in texts {
        shown.push(Text::new(hidden(alloc, text)?))?;
    }
    Ok(shown)
}
