//! What each cause of a refusal means, by its number: `#` is for the first number that the refusal names, `$` for the
//! second. docs/FORMATS.md has the same sentences.

ghost use Rattle.std.specs.Prelude.{◌≡◌, ◌≤◌};
ghost use Rattle.dsa_sentences.specs.Sentences.{said, sentence, of_buffers, of_certificates, of_lists, of_measures, of_operations, of_plans, of_runs, of_settings, of_texts, of_trackers};
ghost use Rattle.dsa_sentences.specs.Texts.{longest};

/// The causes of a list.
#[tactic(auto, unfolding(crate::specs::Sentences::of_lists))]
fn of_lists(number: u64) -> &'static str
    ensures value { result.now ≡ of_lists number }
    ensures short { longest result.now ≤ 250 }
{
    match number {
        1 => "the list's length is no multiple of 64",
        2 =>
            "descriptor #: the operation code is not one of a move, fill, compare, compare pattern, delta or dualcast, or of a checksum if there may be one",
        3 =>
            "descriptor #: flags 0x0004 and 0x0008 have to be set; 0x0010 (interrupt), 0x0040 and bits 16 to 23 (of a checksum 19 to 23) may not; 0x0001 (fence) only in lists with barriers; 0x0080 (check) only in compares",
        4 => "descriptor #: a reserved bit or byte is not zero",
        5 => "descriptor #: the transfer size is 0",
        6 => "descriptor #: an address of its data or its record would be 2^64 or more",
        7 => "descriptor #: the record's address is no multiple of 32",
        8 => "descriptor #: the low twelve bits of a dualcast's destinations differ",
        9 =>
            "descriptor #: two of a dualcast's ranges meet, or a delta's record and its destination, or what a copy with CRC reads and its destination",
        10 =>
            "descriptor #: a delta's size is no multiple of 8 or above 0x80000, its destination no multiple of 8, or its record's size no multiple of 10",
        11 => "descriptor #: the expected result of a compare or a compare pattern is above 1",
        12 => "descriptor #: its PASID or privilege is not the first operation's",
        13 => "descriptor #: the 32 bytes of the record meet a data range",
        _ => "",
    }
}

/// The causes of an image, or of operations that are split.
#[tactic(auto, unfolding(crate::specs::Sentences::of_operations))]
fn of_operations(number: u64) -> &'static str
    ensures value { result.now ≡ of_operations number }
    ensures short { longest result.now ≤ 250 }
{
    match number {
        20 => "the image lacks an address of piece #",
        21 => "the image has more than 16 MiB, or an address of it would be 2^64 or more",
        30 => "operation # is a delta longer than the greatest transfer",
        31 => "operation # checks for a difference and needs more than one piece",
        32 => "there are more than 65,536 pieces",
        33 => "the staging area, 96 bytes for each piece, meets a range of piece #",
        34 => "the row of records of operation #'s pieces meets its own data",
        35 => "an address of the row of records of operation # would be 2^64 or more",
        37 => "descriptor # is longer than the greatest transfer: split it first",
        _ => "",
    }
}

/// The causes of a plan, or of the bytes that submit it.
#[tactic(auto, unfolding(crate::specs::Sentences::of_plans))]
fn of_plans(number: u64) -> &'static str
    ensures value { result.now ≡ of_plans number }
    ensures short { longest result.now ≤ 250 }
{
    match number {
        40 => "the sizes of the groups do not add up to the number of pieces",
        41 => "group # is empty or larger than the greatest batch",
        42 => "the first of group # is fenced",
        43 => "pieces # and $ of one group conflict, or have a barrier between, but no fence",
        44 => "the portal's length is no multiple of 64",
        45 =>
            "the number of descriptors in the batch entry of group # is outside 2 to the greatest batch, or a byte is not the one of its place",
        46 =>
            "the staging's length is not 64 for each piece in a batch and 32 for each batch, or there are more than 65,536 pieces",
        47 => "piece # is refused",
        48 => "the first piece of group # is fenced",
        49 => "the 32 record bytes of batch # are not all zero",
        _ => "",
    }
}

/// The causes of a certificate.
#[tactic(auto, unfolding(crate::specs::Sentences::of_certificates))]
fn of_certificates(number: u64) -> &'static str
    ensures value { result.now ≡ of_certificates number }
    ensures short { longest result.now ≤ 250 }
{
    match number {
        50 => "the certificate is no document of a certificate",
        60 => "the plan is not legal",
        61 => "there are not n + 1 prices and n pairs for n pieces",
        62 => "the pair of piece # is not one of conflicting pieces from there on",
        63 =>
            "one group from piece # on gives a lower price at $ (0 and 0: the first price is not 0)",
        64 => "the last price is not the plan's cost",
        65 => "the certificate is of another version than the settings",
        66 => "the submitted piece # is not the list's",
        _ => "",
    }
}

/// The causes of a run, or of a job.
#[tactic(auto, unfolding(crate::specs::Sentences::of_runs))]
fn of_runs(number: u64) -> &'static str
    ensures value { result.now ≡ of_runs number }
    ensures short { longest result.now ≤ 250 }
{
    match number {
        70 => "the gate of the engines refused",
        71 => "the work of a line was out of date when it came back",
        72 =>
            "the room that the engines left is not over, or not of the caller's image, plan and pieces",
        73 => "there was not enough memory",
        75 => "a run could have more than 4,194,304 events",
        76 => "event # of the trace is no step",
        77 => "the trace is no complete run",
        80 => "the text is no JSON",
        81 => "a member is missing, of another kind, or not named for the job",
        82 => "`do` is missing or names no job",
        83 =>
            "a setting is outside its limits, the version is neither 1 nor 2, or the table of prices has a wrong length",
        84 => "bytes are no hexadecimal text of even length",
        85 => "there are not 1 to 64 engines",
        86 => "the text has more than 67,108,864 bytes",
        _ => "",
    }
}

/// The causes of arrays of a caller, and of prepared lists.
#[tactic(auto, unfolding(crate::specs::Sentences::of_buffers))]
fn of_buffers(number: u64) -> &'static str
    ensures value { result.now ≡ of_buffers number }
    ensures short { longest result.now ≤ 250 }
{
    match number {
        90 => "a buffer is too small for the bytes to submit: portal needs # bytes and staging $",
        91 => "an array is too small for the prices, the pairs or the marks of # pieces",
        92 => "the array of rows is too small: # rows are needed",
        93 => "the buffer is too small for the list of what is left: # bytes are needed",
        94 => "the array of reasons is too small: # reasons are needed",
        95 => "the array of warnings is too small: # warnings are needed",
        100 => "region # goes past 2^64",
        101 => "region # begins before the one before it has ended",
        102 => "a range of operation #, or the row of its records, lies in no one region",
        103 => "there are not as many bases as regions",
        104 => "a buffer is shorter than the bytes to submit",
        105 => "at its new base region # would go past 2^64",
        106 =>
            "a completion record in region # would be no multiple of 32, or a delta's destination there no multiple of 8",
        107 =>
            "the two destinations of a dualcast, in regions # and $, would differ in their low 12 bits",
        108 => "at their new bases region # and the earlier region $ share an address",
        109 =>
            "at its new base region # has an address in the staging area, 96 bytes for each piece",
        110 => "the staging address is no multiple of 64, or above 2^63",
        111 => "the rows do not have the form of a prepared list",
        112 => "there are not 32 bytes of completion records for each piece",
        113 =>
            "one of pieces # and $ writes into the other's record: resume from the failed entry on if only groups before it share records; else restore the memory, and run the whole list with a record for each",
        114 =>
            "piece # is given up, but the status in its record is not 3 or above, or there is no such piece",
        115 =>
            "piece $ has begun, piece # has not succeeded, a barrier is between: restore memory, run the whole list",
        _ => "",
    }
}

/// The causes of trackers.
#[tactic(auto, unfolding(crate::specs::Sentences::of_trackers))]
fn of_trackers(number: u64) -> &'static str
    ensures value { result.now ≡ of_trackers number }
    ensures short { longest result.now ≤ 250 }
{
    match number {
        120 => "no slot is free (a tracker has at most 64): complete a submission first",
        121 => "the submission may read or write # spans, more than the tracker keeps of one",
        122 => "slot # has no outstanding submission",
        123 => "the submission of slot # still waits for another",
        124 => "span # goes past 2^64",
        125 => "piece # has another PASID or privilege than the first piece that came",
        126 =>
            "the words do not have the form of a tracker, or are too few for one of these measures",
        127 => "the groups of the plan do not have as many pieces as there are",
        128 =>
            "the plan has # groups, more than slots are free (of at most 64) or have a place in the array",
        _ => "",
    }
}

/// The causes of texts and pictures.
#[tactic(auto, unfolding(crate::specs::Sentences::of_texts))]
fn of_texts(number: u64) -> &'static str
    ensures value { result.now ≡ of_texts number }
    ensures short { longest result.now ≤ 250 }
{
    match number {
        130 => "a line of the text leaves the grammar",
        131 => "a picture has at most 1,024 groups or submissions, and 65,536 entries",
        132 => "options give settings beside a job, which has settings of its own",
        _ => "",
    }
}

/// Which setting is outside its limits, by its number; for any other number, the limits of all.
#[tactic(auto, unfolding(crate::specs::Sentences::of_settings))]
fn of_settings(number: u64) -> &'static str
    ensures value { result.now ≡ of_settings number }
    ensures short { longest result.now ≤ 250 }
{
    match number {
        1 => "the version of the settings is neither 1 nor 2",
        2 => "the greatest batch is not 2 to 1,024 pieces",
        3 => "the greatest transfer is not 8 to 2^31 bytes, or no multiple of 8",
        4 => "the price of a lone descriptor is above 1,000,000,000",
        5 => "the price of a batch is above 1,000,000,000",
        6 => "the price of a fence is above 1,000,000,000",
        7 => "the staging address is no multiple of 64, or above 2^63",
        8 =>
            "the table does not have a price of at most 1,000,000,000 for each size of a batch from 2 to the greatest",
        _ =>
            "a setting is outside its limits, the version is neither 1 nor 2, or the table of prices has a wrong length",
    }
}

/// Which measure of a new tracker is outside its limits, by its place in the call; for any other number, what the words
/// of a tracker lack.
#[tactic(auto, unfolding(crate::specs::Sentences::of_measures))]
fn of_measures(number: u64) -> &'static str
    ensures value { result.now ≡ of_measures number }
    ensures short { longest result.now ≤ 250 }
{
    match number {
        1 => "a tracker has at most 64 slots",
        3 => "log2_rows of a tracker is not 1 to 32",
        4 => "log2_unit of a tracker is not 1 to 63",
        5 => "there are too few words for a tracker of these measures",
        _ =>
            "the words do not have the form of a tracker, or are too few for one of these measures",
    }
}

/// What the cause of this number means; empty if no cause has the number.
pub fn sentence_of(number: u64) -> &'static str
    ensures value { result.now ≡ sentence number }
    ensures short { longest result.now ≤ 250 }
{
    if number < 20 {
        return of_lists(number);
    }
    if number < 40 {
        return of_operations(number);
    }
    if number < 50 {
        return of_plans(number);
    }
    if number < 70 {
        return of_certificates(number);
    }
    if number < 90 {
        return of_runs(number);
    }
    if number < 120 {
        return of_buffers(number);
    }
    if number < 130 {
        return of_trackers(number);
    }
    of_texts(number)
}

/// What the cause of this number means. For 83, the first number that the refusal names is that of the setting, and for
/// 126 that of the measure.
pub(crate) fn said_of(number: u64, first: u64) -> &'static str
    ensures value { result.now ≡ said number first }
    ensures short { longest result.now ≤ 250 }
{
    if number == 83 {
        return of_settings(first);
    }
    if number == 126 {
        return of_measures(first);
    }
    sentence_of(number)
}
