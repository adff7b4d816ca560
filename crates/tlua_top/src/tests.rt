mod calls;
mod faults;
mod laws;
mod pieces;
mod typed;
mod untyped;
mod words;
