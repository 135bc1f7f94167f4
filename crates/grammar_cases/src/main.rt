//! Cases of versions, specifier sets, names, markers, their clauses and questions about them,
//! environments, requirements, tags, targets, wheels and sdists: what each is read as, and what it
//! then says.
#![tactic(auto)]

mod algebra;
mod clauses;
mod environments;
mod expected;
mod markers;
mod names;
mod pages;
mod questions;
mod requirements;
mod sdists;
mod sets;
mod still;
mod tags;
mod targets;
mod told;
mod versions;
mod wheels;

use crate::told::{compare, printed_text, tell};
use case_files::{Answers, print_files};
use pymark_core::Marker;
use pyver_core::{Specifier, SpecifierSet, Version};
use std::alloc::Global;
use std::env;
use toml::Table;

/// The kinds of cases that this program knows.
struct Cases;

impl Answers for Cases {
    fn answer(&self, alloc: Global, kind: &str, case: &Table) -> anyhow::Result<String> {
        match kind {
            "admission" => sets::admit_alone(alloc, case),
            "choice" => wheels::pick(alloc, case),
            "clause" => tell(alloc, case, "text", Specifier::parse, printed_text),
            "clauses" => clauses::tell(alloc, case),
            "different" => versions::count(alloc, case),
            "disjoint" => algebra::ask_of_both(alloc, case),
            "empty" => algebra::ask_of_one(alloc, case),
            "environment" => environments::answer_case(alloc, case),
            "equality" => compare(alloc, case, SpecifierSet::parse, SpecifierSet::eq),
            "expected_marker" => expected::point(alloc, case, "marker"),
            "expected_requirement" => expected::point(alloc, case, "requirement"),
            "expected_set" => expected::point(alloc, case, "set"),
            "expected_specifier" => expected::point(alloc, case, "specifier"),
            "first_two" => algebra::ask_of_first_two(alloc, case),
            "from_parts" => versions::make_version(alloc, case),
            "front" => sets::cut(alloc, case),
            "items" => sets::tell_items(alloc, case),
            "joined" => sets::join(alloc, case),
            "key" => versions::tell_key(alloc, case),
            "label" => versions::label_text(alloc, case),
            "long_name" => names::measure(alloc, case),
            "long_sdist" => sdists::measure(alloc, case),
            "long_set" => sets::measure(alloc, case),
            "long_version" => versions::measure(alloc, case),
            "long_wheel" => wheels::measure(alloc, case),
            "marker" => markers::judge(alloc, case),
            "markers" | "with_extra" => markers::judge_all(alloc, case),
            "match" => sets::admit(alloc, case),
            "name" => names::answer_case(alloc, case),
            "order" => versions::compare(alloc, case),
            "pages" => pages::answer_case(alloc, case),
            "parts" => versions::tell_parts(alloc, case),
            "question" => questions::ask(alloc, case),
            "python_question" => questions::ask_of_python(alloc, case),
            "reads" => markers::tell_reads(alloc, case),
            "requirement" => requirements::answer_case(alloc, case),
            "requirement_text" => requirements::print(alloc, case),
            "same_name" => names::compare(alloc, case),
            "sdist" => sdists::answer_case(alloc, case),
            "set" => tell(alloc, case, "set", SpecifierSet::parse, printed_text),
            "seen_marker" => compare(alloc, case, Marker::parse, Marker::is_seen_same),
            "seen_set" => compare(alloc, case, SpecifierSet::parse, SpecifierSet::is_seen_same),
            "specifier" => sets::make_specifier(alloc, case),
            "still_environment" => still::ask(alloc, case),
            "still_marker" => still::judge(alloc, case),
            "still_name" => still::lend(alloc, case),
            "still_version" => still::compare(alloc, case),
            "still_wheels" => still::pick(alloc, case),
            "subset" => algebra::ask_within(alloc, case),
            "tag" => tags::answer_case(alloc, case),
            "tags" => tags::tell_list(alloc, case),
            "target" => targets::answer_case(alloc, case),
            "variable" => environments::tell_variable(alloc, case),
            "version" => tell(alloc, case, "version", Version::parse, printed_text),
            "wheel" => wheels::answer_case(alloc, case),
            "wheel_text" => wheels::print(alloc, case),
            _ => Err(anyhow::anyhow!("no kind of case")),
        }
    }
}

fn main(rt: HostRuntime) -> anyhow::Result<()> {
    let paths: Vec<String> = env::args(&rt)?.skip(1).collect(rt.alloc())?;
    print_files(&rt, &Cases, &paths)
}
