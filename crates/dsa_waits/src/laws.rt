//! Laws of recorded submissions, each the contract of an empty function.

ghost use Rattle.dsa_core.specs.DescriptorMachine.{descriptor_machine};
ghost use Rattle.dsa_flight.specs.Hosted.{hosted_machine};
ghost use Rattle.dsa_waits.specs.Agreeing.{NoneFound, WaitsSuffice};

/// If each conflict of the entries is known from the recording, no wait is missing, and a fence
/// parts each two entries of a submission that conflict, records and repeats among them, every
/// flight of the entries that agrees with the events heeds all conflicts, so it leaves what the
/// entries leave one after another; also if some entries are reads and writes of other kinds, as a
/// batch descriptor's of its list and its record. It misses no wait if the search finds none.
pub fn waits_suffice()
    ensures descriptors { WaitsSuffice descriptor_machine }
    ensures hosted { WaitsSuffice hosted_machine }
    ensures search { NoneFound }
{}
