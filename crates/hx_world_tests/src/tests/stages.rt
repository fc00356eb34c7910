mod fixtures;
mod formed;
mod goals;
mod moves;
mod parts;
mod plans;
mod texts;
