mod boards;
mod fixtures;
mod handlers;
mod replicas;
mod stages;
