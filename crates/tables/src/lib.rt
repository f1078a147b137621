// The packed table of tasks: how it is refused, decoded and encoded.
#![tactic(auto)]

mod bits;
mod header;
mod record;
pub mod table;
