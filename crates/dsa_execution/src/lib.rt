//! What lists of operations leave in memory: checksums, and every order of the steps of a planned list.
#![tactic(auto)]

mod laws;

pub use laws::{
    chains_go_on, checksum_lines_make_done, checksums_leave, descriptors_execute_alike,
    engines_execute, every_checksum_is_local, every_execution_goes_on, every_execution_is_in_order,
    every_operation_is_local, machine_does_operations, machine_has_operations_ranges,
    planned_operations_run, resuming_operations_leaves_whole, sample_runs_hold, samples_are_listed,
    samples_hold,
};
