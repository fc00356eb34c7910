//! Worked examples, whose whole outputs the definitions compute.
#![tactic(auto)]
