// The lent table: a header with the server's sheet, then a record for each device. Whether contents are one, what every call asks first,
// and its beginning.

#![tactic(auto)]

pub mod begin;
pub mod check;
pub mod known;
