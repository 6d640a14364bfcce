// One production's step for every kind of table, and rounds of it until none changes anything.
#![tactic(auto)]

pub mod inner;
