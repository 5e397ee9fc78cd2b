mod breaks;
mod compare;
mod matter;
mod refusals;
mod rows;
mod skips;
