//! Laws of the engine's state. The contract of each function is the law.
ghost use Rattle.engine_state.specs.Keeping.{CallsKeepSound, FailuresKeepSound, LivesAreSound};
ghost use Rattle.engine_state.specs.Keeping.{NewLivesAreSound, RefusalsKeepSound, StepsKeepSound};
ghost use Rattle.engine_state.specs.Keeping.{OtherCallsKeepTransactions, OthersKeepTransactions};
ghost use Rattle.engine_state.specs.Keeping.{TransactionsStay};

use hse_rows::{
    Shared, calls_keep_limits, others_keep_timelines, runs_are_isolated, timelines_stand,
};

/// A life that begins within the limits, at a state, is sound, also on a device that was just
/// formatted. Each step leads from a sound state to a sound one, where what a reopening loads is
/// sound: also a call that nothing refuses, a refusal and a failed call of the device.
pub fn steps_keep_states_sound()
    ensures lives { LivesAreSound }
    ensures new { NewLivesAreSound }
    ensures steps { StepsKeepSound }
    ensures calls { CallsKeepSound }
    ensures refusals { RefusalsKeepSound }
    ensures failures { FailuresKeepSound }
{
    calls_keep_limits();
    timelines_stand();
}

/// A transaction that stands for one of the machine does so over each step that leaves that one as it
/// is. Every step does but a write, a commit and an abort of it, and a reopening.
pub fn transactions_stay<R: Shared>()
    ensures stay { TransactionsStay R.RowSet }
    ensures others { OthersKeepTransactions R.RowSet }
    ensures calls { OtherCallsKeepTransactions R.RowSet }
{
    runs_are_isolated();
    others_keep_timelines();
}
