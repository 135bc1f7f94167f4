//! Where entries and keys stand.

use case_files::{text, texts};
use pylock_spans::{Place, Places, Step, steps_of};
use std::alloc::Global;
use toml::Table;

/// Where in the lock `text` each of `asked` stands: the number of an entry, and the path of a key
/// in it.
pub(crate) fn answer_case(alloc: Global, case: &Table) -> anyhow::Result<String> {
    let lock = text(alloc, case, "text")?;
    let mut answer = String::new(alloc);
    let Some(places) = Places::read(alloc, lock.as_str())? else {
        answer.push_str("no TOML")?;
        return Ok(answer);
    };
    for asked in texts(alloc, case, "asked")? {
        let place = find(alloc, &places, asked)?;
        push_place(alloc, &mut answer, asked, place)?;
    }
    Ok(answer)
}

/// The steps of each of the paths `paths`, as findings write them.
pub(crate) fn tell_steps(alloc: Global, case: &Table) -> anyhow::Result<String> {
    let mut answer = String::new(alloc);
    for path in texts(alloc, case, "paths")? {
        answer.push_str(path)?;
        for step in steps_of(alloc, path)?.iter() {
            let told = match step {
                Step::Key(key) => format!(in alloc; ", key `{key}`")?,
                Step::Element(position) => format!(in alloc; ", element {position}")?,
            };
            answer.push_str(told.as_str())?;
        }
        answer.push_str("\n")?;
    }
    Ok(answer)
}

fn find(alloc: Global, places: &Places<'_>, asked: &str) -> anyhow::Result<Option<Place>> {
    let mut path: Vec<Step<'_>> = Vec::new(alloc);
    let mut number: Option<usize> = None;
    for word in asked.split(' ') {
        match (number, word.parse::<usize>()) {
            (None, Ok(first)) => number = Some(first),
            (None, Err(_)) => return Err(anyhow::anyhow!("no number of an entry")),
            (Some(_), Ok(position)) => path.push(Step::Element(position))?,
            (Some(_), Err(_)) => path.push(Step::Key(word))?,
        }
    }
    let number = number.unwrap_or(0);
    if path.is_empty() {
        return Ok(places.entry(number));
    }
    Ok(places.key(alloc, number, path.as_slice())?)
}

fn push_place(
    alloc: Global,
    out: &mut String,
    asked: &str,
    place: Option<Place>,
) -> anyhow::Result<()> {
    let line = match place {
        Some(Place { line, column }) => format!(in alloc; "{asked}: {line}:{column}\n")?,
        None => format!(in alloc; "{asked}: nowhere\n")?,
    };
    Ok(out.push_str(line.as_str())?)
}
