//! What a row says of an answer.

ghost use Rattle.std.specs.Prelude.{◌≡◌, IfOk};
ghost use Rattle.pylock_matrix.specs.Outcome as outcome;

use pylock_core::{Answer, FaultCode, Pick, PickSource};
use std::alloc::{AllocError, Global};
use std::marker::Model;

/// The numbers of the entries of a plan that are built, in its order.
#[derive(Debug)]
pub struct Built {
    numbers: Vec<u32>,
}

impl Model for Built {
    ghost use Rattle.std.specs.Prelude.{ℕ, List};

    ghost Value = { List ℕ };

    ghost view = { λ b. b.numbers.items };
}

impl Drop for Built {
    fn drop(self) {
        let Built { numbers: _ } = self;
    }
}

impl Built {
    /// The numbers. It takes no memory.
    pub fn numbers(&self) -> &[u32]
        ensures { result.now ≡ self.now }
    {
        self.numbers.as_slice()
    }
}

/// What becomes of a lock on a target (PEP 751, "Installation").
#[derive(Debug, Drop)]
pub enum Outcome {
    /// There is a plan.
    Plan {
        /// How many entries it has.
        count: usize,
        /// Those that are not installed from a wheel.
        built: Built,
    },
    /// There is none.
    Fault {
        /// The number of the entry that has the fault, 0 for the head.
        id: u32,
        /// Why it stops the installation.
        code: FaultCode,
    },
}

/// What a row says of an answer: how many entries the plan has and which of them are built, or the
/// fault. It takes memory for the numbers of those.
pub fn outcome_of(alloc: Global, answer: &Answer) -> Result<Outcome, AllocError>
    ensures { IfOk result (λ made. made ≡ outcome.outcome_of answer.now) }
{
    match answer {
        Answer::Plan(plan) => {
            let picks = plan.picks();
            let built = built_in(alloc, picks)?;
            Ok(Outcome::Plan {
                count: picks.len(),
                built,
            })
        }
        Answer::Fault { id, code } => Ok(Outcome::Fault {
            id: *id,
            code: *code,
        }),
    }
}

fn built_in(alloc: Global, picks: &[Pick]) -> Result<Built, AllocError>
    ensures { IfOk result (λ built. built ≡ outcome.built_in picks.now) }
{
    let mut numbers = Vec::new(alloc);
    for pick in picks {
        if is_built(pick.source) {
            numbers.push(pick.id)?;
        }
    }
    Ok(Built { numbers })
}

/// Whether an entry with this source is built.
fn is_built(source: PickSource) -> bool
    ensures { result ≡ outcome.is_built source }
{
    match source {
        PickSource::Wheel(_) => false,
        PickSource::Vcs | PickSource::Directory | PickSource::Archive | PickSource::Sdist => true,
    }
}
