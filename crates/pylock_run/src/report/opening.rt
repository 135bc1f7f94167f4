//! A lock and an environment, opened.
ghost use Rattle.std.specs.Prelude.{◌≡◌, IfOk};
ghost use Rattle.pylock_core.specs.Session.Judgement.{all_numbers, index_of, verdicts_of};
ghost use Rattle.pytext.specs.Agreement.{Gives};
ghost use Rattle.pylock_readers.specs.Input.{input_env_of};
ghost use Rattle.pylock_run.specs.Report.{open_state, state_in, state_on};
ghost use Rattle.pylock_run.specs.declared.report.opening.OpenError.TheVariants as refusal;

use pylock_core::{EnvError, EnvironmentInput, Lock, LockError, Session};
use std::alloc::{AllocError, Global};

/// Why there is nothing to edit: the lock's refusal, and then the environment's.
#[derive(Drop)]
pub enum OpenError {
    /// The lock is refused.
    Lock(LockError),
    /// The environment is refused.
    Environment(EnvError),
    /// An allocation was refused.
    Memory,
}

impl From<AllocError> for OpenError {
    ghost from_gives = { λ _ error. error ≡ refusal.Memory };

    fn from(_refused: AllocError) -> OpenError {
        OpenError::Memory
    }
}

/// Reads the lock and then the environment, and starts the session on both. It takes memory for all
/// three.
pub fn open(alloc: Global, lock: &[u8], env: &[u8]) -> Result<Session, OpenError>
    ensures state { Gives refusal.Memory (λ session. session.state) result
        (open_state lock.now env.now) }
    ensures verdicts { IfOk result (λ session. session.verdicts ≡ verdicts_of session.state) }
    ensures index { IfOk result (λ session. session.index ≡ index_of session.state) }
    ensures judged { IfOk result (λ session. session.judged ≡ all_numbers session.state) }
{
    open_in(alloc, lock, EnvironmentInput::Text(env))
}

/// The same in an environment that is read from its text, or is that of a target.
#[tactic(auto, unfolding(crate::specs::Report::state_in))]
pub fn open_in(
    alloc: Global,
    lock: &[u8],
    environment: EnvironmentInput<'_>,
) -> Result<Session, OpenError>
    ensures state { Gives refusal.Memory (λ session. session.state) result
        (state_in lock.now (input_env_of environment.entry)) }
    ensures verdicts { IfOk result (λ session. session.verdicts ≡ verdicts_of session.state) }
    ensures index { IfOk result (λ session. session.index ≡ index_of session.state) }
    ensures judged { IfOk result (λ session. session.judged ≡ all_numbers session.state) }
{
    match Lock::read(alloc, lock) {
        Ok(lock) => open_on(alloc, lock, environment),
        Err(LockError::Memory) => Err(OpenError::Memory),
        Err(error) => Err(OpenError::Lock(error)),
    }
}

/// Reads the environment, and starts the session on a lock that was read and on it. It takes memory
/// for both.
pub fn open_on(
    alloc: Global,
    lock: Lock,
    environment: EnvironmentInput<'_>,
) -> Result<Session, OpenError>
    ensures state { Gives refusal.Memory (λ session. session.state) result
        (state_on (input_env_of environment.entry) lock) }
    ensures verdicts { IfOk result (λ session. session.verdicts ≡ verdicts_of session.state) }
    ensures index { IfOk result (λ session. session.index ≡ index_of session.state) }
    ensures judged { IfOk result (λ session. session.judged ≡ all_numbers session.state) }
{
    match environment.read(alloc) {
        Ok((environment, tags)) => Ok(Session::start(alloc, lock, environment, tags)?),
        Err(EnvError::Memory) => Err(OpenError::Memory),
        Err(error) => Err(OpenError::Environment(error)),
    }
}
