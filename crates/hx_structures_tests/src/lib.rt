//! Tests of what a cluster is made of and of the cluster: lists, names, linked lists, live sessions,
//! versioned records, slots, counts; models, ideal states, the ways through a model and places dealt
//! in turn; the steps of a plain cluster, its calls and its external view.
#![tactic(auto)]

#[cfg(test)]
mod tests;
