#![tactic(auto)]
// A line of a script: its words, and a poke of the state in a slot.
pub mod pokes;
pub mod words;
