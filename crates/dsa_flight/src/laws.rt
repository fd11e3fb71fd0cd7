//! Laws of flights, each the contract of an empty function.

ghost use Rattle.dsa_core.specs.DescriptorMachine.{descriptor_machine};
ghost use Rattle.dsa_core.specs.Machine.{IsLocal};
ghost use Rattle.dsa_flight.specs.Caller.{SomeIsReady, TrackedEndsInTurn};
ghost use Rattle.dsa_flight.specs.Hosted.{AnyPiece, hosted_machine};
ghost use Rattle.dsa_flight.specs.Laws.{CompleteFlightsExist, EndedIsLast, EveryFlightEndsInTurn, FlightsAgree};
ghost use Rattle.dsa_flight.specs.Needed.{NoFewerWaits};
ghost use Rattle.dsa_flight.specs.Own.{OthersKeepIt};
ghost use Rattle.dsa_flight.specs.Planned.{GroupsEndInTurn, PlannedEndInTurn};
ghost use Rattle.dsa_flight.specs.Spans.{SpansTell, StagingIsWritten, any_read_spans, any_written_spans};
ghost use Rattle.dsa_ranges.specs.Ranges.{read_spans, written_spans};

/// If each submission waits for the earlier ones that it conflicts with, every complete flight
/// leaves what the submissions leave one after another, each up to its own stop point, whatever the
/// order of steps.
pub fn every_flight_ends_in_turn()
    ensures { EveryFlightEndsInTurn descriptor_machine }
{}

/// Planned lists in flight leave the memory of executing the lists one after another, if each
/// descriptor succeeds there.
pub fn planned_end_in_turn()
    ensures { PlannedEndInTurn }
{}

/// The same if each group of their plans is a submission of its own.
pub fn groups_end_in_turn()
    ensures { GroupsEndInTurn }
{}

/// Complete flights of the same submissions end alike.
pub fn flights_agree()
    ensures { FlightsAgree descriptor_machine }
{}

/// Complete flights exist, whatever the waits, if each submission waits only for earlier ones.
pub fn complete_flights_exist()
    ensures { CompleteFlightsExist descriptor_machine }
{}

/// A submission that has ended has no next step.
pub fn ended_is_last()
    ensures { EndedIsLast descriptor_machine }
{}

/// While a submission is under way, no other one changes a byte that it touches.
pub fn others_keep_it()
    ensures { OthersKeepIt descriptor_machine }
{}

/// Of two submissions that conflict the later has to wait: there are pieces that read and write
/// just what theirs do, and a complete flight without that wait that does not end in turn.
pub fn no_fewer_waits()
    ensures { NoFewerWaits }
{}

/// A caller that rings only what is ready, and retires only what has ended or was never rung, finds
/// what the submissions that it rang leave one after another, in the order in which they were
/// submitted.
pub fn tracked_ends_in_turn()
    ensures { TrackedEndsInTurn descriptor_machine }
{}

/// If any submission is outstanding, the least one is ready.
pub fn some_is_ready()
    ensures { SomeIsReady }
{}

/// The same for a caller that reads and writes memory itself: its accesses are pieces, of
/// submissions of their own or of those that they prepare, and what it reads is what it reads in
/// turn. Its accesses stay within what they name.
pub fn hosted_ends_in_turn()
    ensures local { (e : AnyPiece) → IsLocal hosted_machine e }
    ensures tracked { TrackedEndsInTurn hosted_machine }
{}

/// The spans that their pieces read and write tell whether two submissions conflict, also if some
/// pieces are accesses of the host. A submission whose staging bytes the host writes first writes
/// its staging area.
pub fn spans_tell()
    ensures descriptors { SpansTell descriptor_machine read_spans written_spans }
    ensures hosted { SpansTell hosted_machine any_read_spans any_written_spans }
    ensures staging { StagingIsWritten }
{}
