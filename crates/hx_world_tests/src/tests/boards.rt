mod calls;
mod fixtures;
mod reads;
mod scripts;
mod steps;
mod tables;
