mod journal;
mod slots;
mod store;
mod survey;
mod tables;
mod tags;
