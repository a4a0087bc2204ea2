// The steps of a device that may change its record, behind one dispatcher, so that a table lends a record to them in one place.

#![tactic(auto)]

mod ask;
mod give_up;
mod pull;
mod push;
mod receive;
mod renew;
mod send;
pub mod step;
mod update;
