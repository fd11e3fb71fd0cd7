//! `audit` of an input, with the options that were given.

ghost use Rattle.std.specs.Prelude.{◌≡◌, [], IfOk, MatchResult, codes, map};
ghost use Rattle.std.specs.List.{count_by};
ghost use Rattle.std.specs.Str.{bytes_eq};
ghost use Rattle.dsa_text.specs.Options.{IsFlag};
ghost use Rattle.dsa_text.specs.Audited.{AnswersWith, AreAuditWords, AuditsInput, AuditsReader, IsFormat, Refuses, RefusesWith, Settle, SettleWith, awaited_by, awaited_in, denied_by, denied_in, format_of};

use crate::commands::{batches, flag, value};
use crate::options::word;
use clap::{Arg, ArgAction, ArgMatches, Command};
use dsa_advice::{SettingsWords, message_with, parts_of, settings_fault, settings_of};
use dsa_calls::PlanFault;
use dsa_plan::Settings;
use dsa_recording::{
    Accepted, Assumptions, AuditAnswer, AuditFormat, AuditOptions, Await, Denied, Dump,
    MissingWait, ReadFault, audit, audit_read, audit_staged,
};
use std::alloc::{AllocError, Global};
use std::io::Read;

/// The contents of the files that options name.
#[derive(Clone, Copy)]
pub(crate) struct Given<'a> {
    /// The kinds of errors that are known.
    pub accepted: &'a Accepted,
    /// The dumps of memory.
    pub dumps: &'a [Dump],
}

/// What the help of `audit` says of recordings and statuses.
const RECORDINGS: &str =
    "A recording has what was submitted, in order: entries of 64 bytes, and after the descriptor of a batch its members.
It is read as these bytes, as xxd, xxd -p and hexdump -v -C write them, or as lines that disassemble writes, with those
of the members after the line of their batch.

Bytes may have any length: they are read and audited in parts. A text, and what is read with --svg, --list, --staging or
--events, has 64 MiB at most.

With --staging it is read as what was written to a portal, with the members of each batch in the first dump that has them
at the batch's list address. --staging may be given more than once.

With --list it writes the operations of the recording as lines that explain reads, which says what their least plan costs:
  dsa_text audit --list recording.bin > list.txt && dsa_text explain --greatest-transfer 2048M list.txt
A member without a line is named in a comment: the plan knows nothing of it. A fence that guards or signals, and that no
conflict needs, is a line barrier, which the plan keeps. The list is for prices, not for submission.

No conflict needs a fence that guards or signals. A guarding one is the first after a member that can fail: that does
not block on a fault (but a no-op), checks a result, applies a delta, is an operation on DIF, a translation fetch or a
drain, or is not looked at. A signalling one is waited for by a member that software can see to have ended, and who
sees that knows that all before the fence have ended. --await and --resident say what the software is known to do, and
free fences that only guard or signal otherwise:
  --await writes    it may look at all that a member writes, also a flag that another thread polls
  --await signals   it looks at data only after a completion record or an interrupt says so
  --await batches   it looks at the records of batches, lone descriptors and no-ops, and interrupts, alone
  --resident        no member can end with a page fault
Drop needless fences of one audit together, and never with those of an audit under other options.

Each finding names its entries and what they do. Of findings of one kind in like batches the first is written, and how many
more there are; --all writes each. --write-accept writes a line for each kind of error that there is; with such a file
--accept takes errors of these kinds as known, so that others alone make the status 1. Repeat both until nothing is
written, since each member is named with one fence alone that it lacks, and each entry with one wait. A line that fits
nothing in all files is named at the end, and is an error with --deny stale. A line that begins with no small letter is
a comment:
  dsa_text audit --write-accept recording.bin > known.txt && dsa_text audit --accept known.txt recording.bin

Each submission is taken to be waited for before the next one. With --events it also reports missing waits: an entry
that conflicts with one of an earlier submission of which the program could not know that it had ended. Each is an
error, whatever --deny names, unless --accept has its kind.
  dsa_text audit --events NAME.PID.events NAME.PID.dsa

Several files are audited in their order, each by itself; the last line has how many have errors and how many are refused.
--svg, --list, --staging and --events take one. The status is the greatest of theirs.

The status is 0 if nothing is an error, 1 if something is: a missing fence or wait, a fence, record or batch that is
wrong, or what --deny names; and 2 if there is no recording, or it is too large to draw. Of a list it is 0 or 2.
--deny nothing makes an error of each file in which nothing was submitted.
Prices are in one unit of your choice. Numbers are decimal, or hexadecimal after 0x.
Example: dsa_text audit --deny needless,unseen recording.bin";

/// The files to read.
fn files<'a>(alloc: Global) -> Arg<'a> {
    Arg::new(alloc, "file")
        .value_name("FILE")
        .num_args(1..)
        .action(ArgAction::Append)
        .help("what to read, each file by itself; standard input where it is - or missing")
}

/// The option of the findings that count as errors.
fn deny<'a>(alloc: Global) -> Arg<'a> {
    Arg::new(alloc, "deny")
        .long("deny")
        .value_name("KIND,..")
        .action(ArgAction::Set)
        .help(
            "what counts as an error too: needless, guarding, signalling, unseen, stale, nothing; waits always do",
        )
}

/// The option of the errors that are known.
fn accept<'a>(alloc: Global) -> Arg<'a> {
    Arg::new(alloc, "accept")
        .long("accept")
        .value_name("FILE")
        .action(ArgAction::Set)
        .help("errors of the kinds that this file has, a line each, are known and no errors")
}

/// The option of what software looks at.
fn awaited<'a>(alloc: Global) -> Arg<'a> {
    Arg::new(alloc, "await")
        .long("await")
        .value_name("WHAT")
        .action(ArgAction::Set)
        .default_value("writes")
        .help("what software looks at: writes, signals or batches")
}

/// The option of dumps of memory.
fn staging<'a>(alloc: Global) -> Arg<'a> {
    Arg::new(alloc, "staging")
        .long("staging")
        .value_name("ADDRESS:FILE")
        .action(ArgAction::Append)
        .help("read a portal alone; members of batches are in this dump of memory")
}

/// The option of events.
fn events<'a>(alloc: Global) -> Result<Arg<'a>, AllocError> {
    Arg::new(alloc, "events")
        .long("events")
        .value_name("FILE")
        .action(ArgAction::Set)
        .help(
            "report missing waits too, by the events that dsa_trace --out wrote beside the recording",
        )
        .conflicts_with("list")?
        .conflicts_with("staging")
}

/// The options of the prices.
fn price_options<'a>(alloc: Global) -> Result<Vec<Arg<'a>>, AllocError> {
    let mut options = Vec::new(alloc);
    options.push(value(
        alloc,
        "greatest-batch",
        "32",
        "most members of a batch that has a price, 2 to 1024",
    ))?;
    options.push(value(
        alloc,
        "greatest-transfer",
        "2097152",
        "taken as explain takes it; an audit splits nothing",
    ))?;
    options.push(value(alloc, "lone", "10", "price of a lone descriptor"))?;
    options.push(value(alloc, "batch", "14", "price of a batch"))?;
    options.push(batches(alloc)?)?;
    options.push(value(alloc, "fence", "3", "price of a fence in a batch"))?;
    Ok(options)
}

/// The flags of how a report is written.
fn format_flags<'a>(alloc: Global) -> Result<Vec<Arg<'a>>, AllocError> {
    let mut options = Vec::new(alloc);
    options.push(flag(alloc, "json", "write the report as JSON"))?;
    let svg = flag(alloc, "svg", "draw the submissions and their fences");
    options.push(svg.conflicts_with("json")?)?;
    let list = flag(alloc, "list", "write the operations as a list to plan");
    options.push(
        list.conflicts_with("json")?
            .conflicts_with("svg")?
            .conflicts_with("deny")?,
    )?;
    options.push(flag(
        alloc,
        "all",
        "write each finding, not the first of each kind",
    ))?;
    Ok(options)
}

/// The options of what counts as an error.
fn error_options<'a>(alloc: Global) -> Result<Vec<Arg<'a>>, AllocError> {
    let mut options = Vec::new(alloc);
    options.push(deny(alloc))?;
    options.push(accept(alloc))?;
    let write = flag(
        alloc,
        "write-accept",
        "write the kinds of the errors, for --accept",
    );
    options.push(
        write
            .conflicts_with("json")?
            .conflicts_with("svg")?
            .conflicts_with("list")?,
    )?;
    Ok(options)
}

/// The options of what is known beside the recording.
fn knowledge_options<'a>(alloc: Global) -> Result<Vec<Arg<'a>>, AllocError> {
    let mut options = Vec::new(alloc);
    options.push(awaited(alloc))?;
    options.push(flag(
        alloc,
        "resident",
        "all memory is resident: no member page-faults",
    ))?;
    options.push(staging(alloc))?;
    options.push(events(alloc)?)?;
    Ok(options)
}

/// The command `audit`.
pub(crate) fn audit_command<'a>(alloc: Global) -> Result<Command<'a>, AllocError> {
    let format = format_flags(alloc)?;
    let errors = error_options(alloc)?;
    let knowledge = knowledge_options(alloc)?;
    let prices = price_options(alloc)?;
    Command::new(alloc, "audit")
        .about("Reads a recording of what was submitted, and reports missing and needless fences")
        .after_help(RECORDINGS)
        .arg(files(alloc))?
        .args(format)?
        .args(errors)?
        .args(knowledge)?
        .args(prices)
}

/// How many of the words are this name.
pub(crate) fn times_named(name: &str, words: &[&str]) -> usize
    ensures { result ≡ count_by (λ word. bytes_eq word.now name.now) words.now }
{
    words.iter().filter(|word| **word == name).count()
}

/// The findings that these words name, if each names some.
fn denied_by(words: &[&str]) -> Option<Denied>
    ensures { result ≡ denied_by (map (λ word. word.now) words.now) }
{
    let needless = times_named("needless", words);
    let guarding = times_named("guarding", words);
    let signalling = times_named("signalling", words);
    let unseen = times_named("unseen", words);
    let waits = times_named("waits", words);
    let stale = times_named("stale", words);
    let nothing = times_named("nothing", words);
    let named = needless as u128
        + guarding as u128
        + signalling as u128
        + unseen as u128
        + waits as u128
        + stale as u128
        + nothing as u128;
    if named != words.len() as u128 {
        return None;
    }
    Some(Denied {
        needless: needless > 0,
        guarding: guarding > 0,
        signalling: signalling > 0,
        unseen: unseen > 0,
        nothing: nothing > 0,
    })
}

/// The findings that the option denies, if it names findings.
fn denied_in(alloc: Global, matches: &ArgMatches<'_>) -> Result<Option<Denied>, AllocError>
    ensures { IfOk result (λ denied. denied ≡ denied_in matches.now) }
{
    match matches.get_str("deny") {
        None => Ok(Some(Denied {
            needless: false,
            guarding: false,
            signalling: false,
            unseen: false,
            nothing: false,
        })),
        Some(names) => Ok(denied_by(&parts_of(alloc, names)?)),
    }
}

/// What a word says that software looks at.
fn awaited_by(word: &str) -> Option<Await>
    ensures { result ≡ awaited_by word.now }
{
    if word == "writes" {
        return Some(Await::Writes);
    }
    if word == "signals" {
        return Some(Await::Signals);
    }
    if word == "batches" {
        return Some(Await::Batches);
    }
    None
}

/// What software is said to look at, if the option says so.
fn awaited_in(matches: &ArgMatches<'_>) -> Option<Await>
    ensures { result ≡ awaited_in matches.now }
{
    awaited_by(word(matches, "await"))
}

/// The format that flags ask for.
fn format_of(json: bool, svg: bool, list: bool, keys: bool) -> AuditFormat
    ensures { result ≡ format_of json svg list keys }
{
    if json {
        return AuditFormat::Json;
    }
    if svg {
        return AuditFormat::Picture;
    }
    if list {
        return AuditFormat::List;
    }
    if keys {
        return AuditFormat::Keys;
    }
    AuditFormat::Text
}

/// How the report is to be written.
pub(crate) fn format_in(matches: &ArgMatches<'_>) -> AuditFormat
    ensures { IsFormat matches.now result }
{
    let json = matches.get_flag("json");
    let svg = matches.get_flag("svg");
    let list = matches.get_flag("list");
    let keys = matches.get_flag("write-accept");
    format_of(json, svg, list, keys)
}

/// Whether each finding is to be written.
fn every_in(matches: &ArgMatches<'_>) -> bool
    ensures { IsFlag matches.now (codes "all") result }
{
    matches.get_flag("all")
}

/// Whether all memory is said to be resident.
fn resident_in(matches: &ArgMatches<'_>) -> bool
    ensures { IsFlag matches.now (codes "resident") result }
{
    matches.get_flag("resident")
}

/// The settings as the options spell them; no report needs those of the others.
fn audit_words<'a>(matches: &ArgMatches<'a>) -> SettingsWords<'a>
    ensures { AreAuditWords matches.now result }
{
    SettingsWords {
        greatest_batch: word(matches, "greatest-batch"),
        greatest_transfer: word(matches, "greatest-transfer"),
        lone: word(matches, "lone"),
        batch: word(matches, "batch"),
        batches: matches.get_str("batches"),
        fence: word(matches, "fence"),
        staging: "0",
    }
}

/// The answer if the options spell no settings.
fn refused_settings(alloc: Global, words: &SettingsWords<'_>) -> Result<AuditAnswer, AllocError>
    ensures { IfOk result (λ a. a.status ≡ 2) }
{
    let message = settings_fault(alloc, words)?;
    let text = message_with(alloc, PlanFault::Settings, &message)?;
    Ok(AuditAnswer::refused(alloc, text))
}

/// The report on an input: a recording, or, if there are dumps, what was written to a portal.
fn audit_with(
    alloc: Global,
    dumps: &[Dump],
    input: &[u8],
    settings: &Settings,
    options: AuditOptions<'_>,
) -> Result<AuditAnswer, AllocError>
    ensures { IfOk result (AnswersWith options.entry dumps.now input.now) }
{
    if dumps.is_empty() {
        return audit(alloc, input, settings, options);
    }
    audit_staged(alloc, input, dumps, settings, options)
}

/// The settings and options that arguments spell, with findings that count as errors and what software looks at; or the
/// answer, if they spell no settings.
fn options_denying<'a>(
    alloc: Global,
    matches: &ArgMatches<'_>,
    given: Given<'a>,
    waits: &'a [MissingWait],
    denied: Denied,
    awaited: Await,
) -> Result<Result<(Settings, AuditOptions<'a>), AuditAnswer>, AllocError>
    ensures { IfOk result (λ spelled. MatchResult spelled
        (λ x. SettleWith matches.now given.entry denied awaited x.1)
        (RefusesWith matches.now given.entry denied awaited)) }
{
    let format = format_in(matches);
    let resident = resident_in(matches);
    let every = every_in(matches);
    let words = audit_words(matches);
    match settings_of(alloc, &words)? {
        Some(settings) => {
            let options = AuditOptions {
                format,
                every,
                denied,
                accepted: given.accepted,
                assumptions: Assumptions { awaited, resident },
                waits,
            };
            Ok(Ok((settings, options)))
        }
        None => {
            let refused = refused_settings(alloc, &words)?;
            Ok(Err(refused))
        }
    }
}

/// The settings and options that arguments spell, with missing waits for a picture, or the answer if they spell none.
pub(crate) fn options_in<'a>(
    alloc: Global,
    matches: &ArgMatches<'_>,
    given: Given<'a>,
    waits: &'a [MissingWait],
) -> Result<Result<(Settings, AuditOptions<'a>), AuditAnswer>, AllocError>
    ensures { IfOk result (λ spelled. MatchResult spelled
        (λ x. Settle matches.now given.entry x.1) (Refuses matches.now given.entry)) }
{
    let Some(denied) = denied_in(alloc, matches)? else {
        let reason =
            "error: --deny takes needless, guarding, signalling, unseen, waits, stale and nothing, with commas between\n";
        let text = String::from_str(alloc, reason)?;
        return Ok(Err(AuditAnswer::refused(alloc, text)));
    };
    match awaited_in(matches) {
        Some(awaited) => options_denying(alloc, matches, given, waits, denied, awaited),
        None => {
            let reason = "error: --await takes writes, signals or batches\n";
            let text = String::from_str(alloc, reason)?;
            Ok(Err(AuditAnswer::refused(alloc, text)))
        }
    }
}

/// What `audit` answers to an input, options, and the files that they name; a picture shows these missing waits.
pub(crate) fn audit_input(
    alloc: Global,
    matches: &ArgMatches<'_>,
    given: Given<'_>,
    waits: &[MissingWait],
    input: &[u8],
) -> Result<AuditAnswer, AllocError>
    ensures { IfOk result (AuditsInput matches.now given.entry input.now) }
{
    match options_in(alloc, matches, given, waits)? {
        Ok((settings, options)) => audit_with(alloc, given.dumps, input, &settings, options),
        Err(refused) => Ok(refused),
    }
}

/// What `audit` answers to what a reader gives, options, and the file of errors that they name, without dumps.
pub(crate) fn audit_reader<R: Read>(
    alloc: Global,
    matches: &ArgMatches<'_>,
    given: Given<'_>,
    reader: &mut R,
) -> Result<AuditAnswer, ReadFault>
    ensures { given.entry.dumps.now ≡ [] → AuditsReader matches.now given.entry
        (R.remaining reader.old) (R.remaining reader.new) result }
{
    match options_in(alloc, matches, given, &[])? {
        Ok((settings, options)) => audit_read(alloc, reader, &settings, options),
        Err(refused) => Ok(refused),
    }
}
