//! Live runs: what their histories must be.
#![tactic(auto)]
