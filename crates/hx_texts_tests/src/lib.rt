//! Tests of pages, lines and words, of the printed texts, of scripts and of logs, by their public
//! calls alone; and worked descriptions: what the reader answers to them, and in proofs/ what the
//! definitions make of them.
#![tactic(auto)]

#[cfg(test)]
mod tests;
