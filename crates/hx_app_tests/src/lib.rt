//! Tests of what hx_app offers, and of the streams below it, through their public calls alone.
#![tactic(auto)]

#[cfg(test)]
mod tests;
