//! Several submissions in flight over one memory: every order of their steps, and what each
//! complete one leaves.
#![tactic(auto)]

mod laws;

pub use laws::{
    complete_flights_exist, ended_is_last, every_flight_ends_in_turn, flights_agree,
    groups_end_in_turn, hosted_ends_in_turn, no_fewer_waits, others_keep_it, planned_end_in_turn,
    some_is_ready, spans_tell, tracked_ends_in_turn,
};
