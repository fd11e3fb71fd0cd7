//! Laws of operations, each the contract of an empty function.

ghost use Rattle.std.specs.Prelude.{◌≡◌, ◌↔◌, ◌⊎◌, ℕ, ◌*◌, ◌<◌, List, [], ◌∷◌};
ghost use Rattle.dsa_core.specs.Epochs.{PiecesConflictAt};
ghost use Rattle.dsa_core.specs.Laws.{CompleteIsLast, EveryMomentGoesOn, NothingBeyondStarts, RunsAreBounded};
ghost use Rattle.dsa_core.specs.Machine.{HoldsPiece, IsLocal};
ghost use Rattle.dsa_core.specs.Order.{alone, done, memory_in_order};
ghost use Rattle.dsa_descriptor.specs.Data.{record_span};
ghost use Rattle.dsa_descriptor.specs.Spans.{InSome};
ghost use Rattle.dsa_execution.specs.Alike.{SameMemory, SamePremises, SameRuns, SameStatuses};
ghost use Rattle.dsa_core.specs.Checksums.{checksum_done, checksum_finish, checksum_line, checksum_machine, checksum_value, copied_data};
ghost use Rattle.dsa_execution.specs.Engines.{OutcomeIsExecuted, ReadyIfCanExecute};
ghost use Rattle.dsa_execution.specs.Headline.{EveryExecutionIsInOrder, ExecutionsAgree, ExecutionsExist, SuccessIsWhole};
ghost use Rattle.dsa_execution.specs.Left.{CopyIsLeft, OthersAreLeft, RecordIsLeft, ValueIsLeft};
ghost use Rattle.dsa_core.specs.Operations.{executed, operation_done, operation_machine, operation_status};
ghost use Rattle.dsa_execution.specs.Planned.{PlannedCanExecute, PlannedKeepsBarriers};
ghost use Rattle.dsa_execution.specs.Resuming.{OperationsInOrder, operation_work};
ghost use Rattle.dsa_execution.specs.Samples.{EveryRunLeavesTheValue, TheyCanExecute, after_digits_checksum, after_digits_copy, digits_checksum, digits_copy, digits_memory, first_digits, last_digits};
ghost use Rattle.dsa_execution.specs.Seeds.{ChainsGoOn, IsChain, last_value};
ghost use Rattle.dsa_image.specs.Lines.{AgreeOn, ChangesOnly};
ghost use Rattle.dsa_image.specs.Memory.{Holds, Memory};
ghost use Rattle.dsa_image.specs.Parts.{line_width, part_end};
ghost use Rattle.dsa_operations.specs.declared.operation.Operation.{Operation};
ghost use Rattle.dsa_operations.specs.Data.{checksum_reads, targets};
ghost use Rattle.dsa_operations.specs.Fields.{ChecksumFields};
ghost use Rattle.dsa_operations.specs.Operations.{OperationConflictAt, reads_of, writes_of};
ghost use Rattle.dsa_operations.specs.Profile.{IsListedChecksum, RegionsApart};
ghost use Rattle.dsa_resume.specs.Laws.{FailedFirstHasLeft, NoneGivenUp, RestLeavesWhole, ResumesInOrder};

/// What a checksum leaves, address by address: its record, with the value in bytes 16 to 23; the copy; and every other
/// byte as it was.
pub fn checksums_leave()
    ensures completion { RecordIsLeft }
    ensures value { ValueIsLeft }
    ensures copy { CopyIsLeft }
    ensures others { OthersAreLeft }
{}

/// If each checksum of a chain reads its seed from the record of the one before, and goes on over the bytes after it,
/// the last value is that of one checksum over all the bytes together.
pub fn chains_go_on()
    ensures { ChainsGoOn }
{}

/// All lines of a checksum in order, and then its record, do the same as the whole checksum.
pub fn checksum_lines_make_done()
    ensures memory { (f : ChecksumFields) (m : Memory) → 0 < f.size → RegionsApart f.op f.size →
        (done checksum_machine f m).memory ≡ checksum_done f m }
    ensures value { (f : ChecksumFields) (m : Memory) → 0 < f.size → RegionsApart f.op f.size →
        (alone checksum_machine f (checksum_machine.lines f) m).answer ≡ checksum_value f m }
{}

/// A line of a checksum changes only its destination, and finishing only the record. What a line writes and finds
/// depends on the bytes that the checksum reads and on the value so far. So each stays within what the checksum reads
/// and writes.
pub fn every_checksum_is_local()
    ensures line { (f : ChecksumFields) (t : ℕ) (m : Memory) (value : ℕ) →
        ChangesOnly (targets f.op f.size) m (checksum_line f t m value).memory }
    ensures finish { (f : ChecksumFields) (m : Memory) (value : ℕ) →
        ChangesOnly (record_span f.record_at ∷ []) m (checksum_finish f m value).memory }
    ensures writes { (f : ChecksumFields) (t : ℕ) (m n : Memory) →
        AgreeOn (checksum_reads f) m n → (a : ℕ) →
        copied_data f.op (line_width * t) (part_end line_width f.size t) m a
        ≡ copied_data f.op (line_width * t) (part_end line_width f.size t) n a }
    ensures finds { (f : ChecksumFields) (t : ℕ) (m n : Memory) (value : ℕ) →
        t < checksum_machine.lines f → AgreeOn (checksum_reads f) m n →
        (checksum_line f t m value).answer ≡ (checksum_line f t n value).answer }
    ensures within { (f : ChecksumFields) → IsLocal checksum_machine f }
{}

/// Each line of an operation, and its finish, stays within what it reads and writes. So every law of runs over such
/// pieces of work holds of operations.
pub fn every_operation_is_local()
    ensures { (o : Operation) → IsLocal operation_machine o }
{}

/// The steps of an operation, done in order and with no other operation, do what the definitions say of it.
pub fn machine_does_operations()
    ensures memory { (o : Operation) (m : Memory) →
        (done operation_machine o m).memory ≡ operation_done o m }
    ensures status { (o : Operation) (m : Memory) →
        (done operation_machine o m).answer ≡ operation_status o m }
    ensures in_order { (operations : List Operation) (m : Memory) →
        memory_in_order operation_machine operations m ≡ executed operations m }
{}

/// The conflicts of runs, and what they ask of memory, are those of operations.
pub fn machine_has_operations_ranges()
    ensures conflict_at { (operations : List Operation) (i j : ℕ) →
        PiecesConflictAt operation_machine operations i j ↔ OperationConflictAt operations i j }
    ensures holds { (m : Memory) (o : Operation) → HoldsPiece operation_machine m o
        ↔ ((a : ℕ) → InSome (reads_of o) a ⊎ InSome (writes_of o) a → Holds m a) }
{}

/// From every memory that has what they read and write, every complete run of a legal plan for operations leaves what
/// executing the operations in order up to the stop point leaves; exactly those are finished, with their statuses in
/// order, and the batch records say so. If every operation succeeds in order, this is the memory of executing the whole
/// list in order. Two complete runs agree, and there are complete runs, by any engines.
pub fn every_execution_is_in_order()
    ensures stops { EveryExecutionIsInOrder }
    ensures succeeds { SuccessIsWhole }
    ensures agree { ExecutionsAgree }
    ensures exist { ExecutionsExist }
{}

/// Engines can run what can be executed, and what their run answers is what every execution leaves.
pub fn engines_execute()
    ensures ready { ReadyIfCanExecute }
    ensures outcome { OutcomeIsExecuted }
{}

/// What can come next at a moment of a run of operations: until it is complete, an idle engine can take each waiting
/// operation of the current epoch, and one with an operation can go on. Nothing from the stop point on is taken, and no
/// run has more events than its operations have lines, takes and finishes.
pub fn every_execution_goes_on()
    ensures next { EveryMomentGoesOn operation_machine }
    ensures last { CompleteIsLast operation_machine }
    ensures beyond { NothingBeyondStarts operation_machine }
    ensures bounded { RunsAreBounded operation_machine }
{}

/// What planning answers for a list of operations can be run, so each complete run ends in order. In no run does an
/// operation after a barrier of the list begin before all operations before the barrier have finished with status 1.
pub fn planned_operations_run()
    ensures can { PlannedCanExecute }
    ensures barriers { PlannedKeepsBarriers }
{}

/// Of a list of operations that has stopped, doing what is left leaves what executing the list in order leaves, under
/// the conditions of [`resuming_leaves_whole`](dsa_resume::resuming_leaves_whole()). What those ask of the memory for
/// the listed order they have with the failed operations first, too, if these may come first.
pub fn resuming_operations_leaves_whole()
    ensures in_order { ResumesInOrder operation_work }
    ensures with_barriers { RestLeavesWhole operation_work }
    ensures all { NoneGivenUp Operation }
    ensures failed_first { FailedFirstHasLeft operation_work }
    ensures leaves { OperationsInOrder }
{}

/// Operations that are all descriptors leave what these do as a list of descriptors: executed in order, and in each
/// complete run, event for event.
pub fn descriptors_execute_alike()
    ensures memory { SameMemory }
    ensures statuses { SameStatuses }
    ensures premises { SamePremises }
    ensures runs { SameRuns }
{}

/// The definitions, computed on nine digits: their checksum, their copy, and a chain of two checksums.
pub fn samples_hold()
    ensures checksum { checksum_done digits_checksum digits_memory ≡ after_digits_checksum }
    ensures copy { checksum_done digits_copy digits_memory ≡ after_digits_copy }
    ensures chain { IsChain first_digits (last_digits ∷ []) }
    ensures chain_value { last_value first_digits (last_digits ∷ []) digits_memory ≡ 0xe3069283 }
{}

/// The samples meet the profile.
pub fn samples_are_listed()
    ensures checksum { IsListedChecksum digits_checksum }
    ensures copy { IsListedChecksum digits_copy }
    ensures first { IsListedChecksum first_digits }
    ensures last { IsListedChecksum last_digits }
{}

/// The premises of runs can hold: two checksums in one batch, the second fenced, with its seed in the record of the
/// first. Every complete run of them, by any engines, leaves the checksum of all the bytes in the second record.
pub fn sample_runs_hold()
    ensures can { TheyCanExecute }
    ensures leaves { EveryRunLeavesTheValue }
{}
