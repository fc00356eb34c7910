//! Tests of the parts of a world, which stand above them so that they are proved once: of boards,
//! of plans and their stages, of participants and of handlers.
#![tactic(auto)]

#[cfg(test)]
mod tests;
