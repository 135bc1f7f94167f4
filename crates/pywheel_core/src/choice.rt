//! The choice of a wheel (PEP 425, "Use"; PEP 427, "File name convention", on the build tag).

ghost use Rattle.std.specs.Prelude.{◌≡◌, None, option_map};
ghost use Rattle.pywheel_core.specs.Choice.{IsBest, best, best_from, better, is_better, least_rank};
ghost use Rattle.pywheel_core.specs.Choice.{rank_from, ranked};
ghost use Rattle.pywheel_core.specs.Inner.Lent.{ranked_wheel};

use crate::tag_list::TagList;
use crate::wheel::WheelName;
use std::cmp::Ordering;

/// A compatible wheel, its rank and its position.
#[derive(Clone, Copy)]
pub(crate) struct RankedWheel<'a> {
    pub(crate) rank: usize,
    pub(crate) position: usize,
    pub(crate) wheel: &'a WheelName,
}

/// The position of the best wheel: of those with a tag in the list, the one whose best tag stands
/// first there (PEP 425, "Use"); then the greater build (PEP 427, "File name convention"); then the
/// earlier position, which is a rule of this crate's own. `None` among the wheels is never chosen.
/// It takes no memory and looks at each tag once.
#[tactic(auto, using(crate::proofs::Lemmas::Choice::Best::given_best))]
pub fn choose(wheels: &[Option<WheelName>], tags: &TagList) -> Option<usize>
    ensures best { IsBest wheels.now tags.now result }
    ensures exact { result ≡ best wheels.now tags.now }
{
    best_position(wheels, tags)
}

/// The position of the best wheel, by one pass.
#[tactic(auto, unfolding(crate::specs::Choice::best))]
fn best_position(wheels: &[Option<WheelName>], tags: &TagList) -> Option<usize>
    ensures { result ≡ best wheels.now tags.now }
{
    Some(best_ranked(wheels, tags)?.position)
}

/// The best wheel, with its rank.
#[tactic(auto, unfolding(crate::specs::Choice::best_from))]
fn best_ranked<'a>(wheels: &'a [Option<WheelName>], tags: &TagList) -> Option<RankedWheel<'a>>
    ensures { option_map ranked_wheel result ≡ best_from None 0 wheels.now tags.now }
{
    let mut best = None;
    for (position, wheel) in wheels.iter().enumerate() {
        best = better(best, rank_wheel(position, wheel, tags));
    }
    best
}

/// The wheel at this position, where one is and has a tag in the list.
#[tactic(auto, unfolding(crate::specs::Choice::ranked))]
fn rank_wheel<'a>(
    position: usize,
    wheel: &'a Option<WheelName>,
    tags: &TagList,
) -> Option<RankedWheel<'a>>
    ensures { option_map ranked_wheel result ≡ ranked position wheel.now tags.now }
{
    let wheel = wheel.as_ref()?;
    let rank = best_rank(wheel, tags)?;
    Some(RankedWheel {
        rank,
        position,
        wheel,
    })
}

/// The rank of the wheel's best tag: the least position in the list of one of its tags (PEP 425,
/// "Use"). `None` where none of its tags is in the list. It takes no memory and looks at each tag
/// of the wheel once.
#[tactic(auto, unfolding(crate::specs::Choice::rank_from))]
pub fn best_rank(wheel: &WheelName, tags: &TagList) -> Option<usize>
    ensures { result ≡ rank_from None wheel.now.tags tags.now }
{
    let mut best = None;
    for tag in wheel.tags() {
        best = least_rank(best, tags.rank(tag));
    }
    best
}

/// The lesser of two ranks, of which either may be absent.
fn least_rank(rank: Option<usize>, other: Option<usize>) -> Option<usize>
    ensures { result ≡ least_rank rank other }
{
    match (rank, other) {
        (None, other) => other,
        (rank, None) => rank,
        (Some(rank), Some(other)) => Some(if other < rank { other } else { rank }),
    }
}

/// The better of two wheels, of which either may be absent and `later` stands at the later
/// position.
fn better<'a>(
    first: Option<RankedWheel<'a>>,
    later: Option<RankedWheel<'a>>,
) -> Option<RankedWheel<'a>>
    ensures { option_map ranked_wheel result
        ≡ better (option_map ranked_wheel first.entry) (option_map ranked_wheel later.entry) }
{
    match (first, later) {
        (None, later) => later,
        (first, None) => first,
        (Some(first), Some(later)) => Some(if is_better(&later, &first) {
            later
        } else {
            first
        }),
    }
}

/// Whether a wheel at a later position is better. Builds are compared only at equal ranks.
fn is_better(later: &RankedWheel<'_>, first: &RankedWheel<'_>) -> bool
    ensures { result ≡ is_better (ranked_wheel later.now) (ranked_wheel first.now) }
{
    later.rank < first.rank
        || later.rank == first.rank && first.wheel.compare_builds(later.wheel) == Ordering::Less
}
