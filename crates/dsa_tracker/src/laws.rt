//! Laws of trackers, each the contract of an empty function.

ghost use Rattle.dsa_core.specs.DescriptorMachine.{descriptor_machine};
ghost use Rattle.dsa_flight.specs.Hosted.{hosted_machine};
ghost use Rattle.dsa_flight.specs.Spans.{any_read_spans, any_written_spans};
ghost use Rattle.dsa_ranges.specs.Ranges.{read_spans, written_spans};
ghost use Rattle.dsa_tracker.specs.Groups.{GroupsStageWhatEntriesName};
ghost use Rattle.dsa_tracker.specs.Honest.{TrackerEndsInTurn};
ghost use Rattle.dsa_tracker.specs.Planned.{GroupsAreSubmitted, TrackedGroupsEndInTurn};

/// A caller that rings only what its tracker calls ready, completes only what is ready and has
/// ended, and withdraws only what it did not ring, finds what the submissions that it rang leave
/// one after another; also if some of their pieces are its own reads and writes.
pub fn tracker_ends_in_turn()
    ensures descriptors { TrackerEndsInTurn descriptor_machine read_spans written_spans }
    ensures hosted { TrackerEndsInTurn hosted_machine any_read_spans any_written_spans }
{}

/// A group's part of the staging area is just what its portal entry names: the descriptors that the
/// device reads, and the completion record that it writes.
pub fn groups_stage_what_entries_name()
    ensures { GroupsStageWhatEntriesName }
{}

/// Such a caller that has rung each group of planned lists, a submission of its own, finds what the
/// lists leave one after another, if each descriptor succeeds. The call that takes the groups of a
/// list submits them, with their parts of the staging area, and does nothing else.
pub fn groups_end_in_turn()
    ensures leaves { TrackedGroupsEndInTurn }
    ensures submitted { GroupsAreSubmitted }
{}
