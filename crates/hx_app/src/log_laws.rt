//! Laws of logs. The contract of each function is a law over the definitions alone.
ghost use Rattle.std.specs.Prelude.{ℕ, List};
ghost use Rattle.hx_app.specs.Sound.{IsSoundLog};

/// A log that is found lawful tells a history that is: entry by entry, it is the log's. So all that
/// is proved of lawful histories holds of it, whoever wrote the log: at each place of it the cluster
/// is safe, each message that was taken has one run, and no dispatch was refused a proposal.
pub fn lawful_logs_tell_sound_histories()
    ensures { (bytes : List ℕ) → IsSoundLog bytes }
{}
