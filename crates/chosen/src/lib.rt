//! Books and channels whose kind is chosen at run time: of either kind of book, of any kind of bottom, and with or without markers.
#![tactic(auto)]

pub mod any_book;
pub mod any_bottom;
pub mod pile;
