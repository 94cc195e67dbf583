//! Symbol resolution: the definition of each name, over all entered objects and the script. Takes objects under keys;
//! gives decisions, each counted.
//!
//! - `names`: the table, and what it is asked; `tally`: a decision, in one pass over the entries of a name;
//! - `name_table` with `hashing`: names and their numbers; `objects`, `rows`, `places`: entries by object, by name and
//!   by
//!   place; `prefix_key`: names that are quick to compare;
//! - `lists` with `hints`, `repeats`, `symbol`: the symbols of an object that is entered, and guesses of the indices of
//!   their names; `expected`: how many entries names are going to have; `law`: what can be entered again.
#![tactic(auto)]

mod expected;
mod hashing;
mod hints;
pub mod law;
mod lists;
mod name_table;
pub mod names;
mod objects;
mod places;
pub mod prefix_key;
mod repeats;
mod rows;
pub mod symbol;
mod tally;
