//! The commands and their options.

use crate::auditing::audit_command;
use crate::resuming::resume_command;
use clap::{Arg, ArgAction, Command};
use dsa_recording::VERSION;
use std::alloc::{AllocError, Global};

/// What the help of `disassemble` says of its input.
const BYTES: &str =
    "Hexadecimal as xxd, xxd -p and hexdump -v -C write it, or the bytes as they stand.
Example: dsa_text disassemble --staging --at 0x10000 staging.hex";

/// What the help of the program says of input and statuses.
const PROGRAM: &str =
    "Each command reads FILE, or standard input where FILE is - or missing. dsa_text COMMAND --help has an example of each.

The status is 0 for an answer and 1 for a refusal, which is a line on standard error. It is 2 for arguments that the
program does not know, and where a file can't be opened or read or the answer can't be written. Of audit it is 1 where
something is an error, and 2 where there is no recording.

The program dsa answers jobs in JSON. It looks at no arguments, reads one job from standard input, and writes one line to
standard output (man dsa): dsa < JOB";

/// What the help of `explain` says of its input.
const EXPLAINED: &str = "The input is lines of operations (FORMATS.md has all of their words):

  move 0x1000 -> 0x2000, 64 bytes, record 0x8000
  fill 0x1000 with 0102030405060708, 64 bytes, record 0x8000
  compare 0x1000 with 0x2000, 64 bytes, expect 0, record 0x8000, check

with a line \"barrier\" where the next operation begins only after all before it have succeeded, and
with lines that disassemble writes of a portal and a staging area. Batches and fences in these are passed
over, since a plan sets them anew; --keep-fences takes each fence for a barrier. Or the input is

- the bytes of a list, whose fences are barriers,
- those of a recording, of which the lines of audit --list are explained,
- a dump of such bytes, as xxd, xxd -p and hexdump -v -C write it, or
- a job, which begins with a brace and has settings of its own: the options from --greatest-batch on are refused:

  {\"do\":\"plan\",\"list\":..,\"settings\":..}               the plan of least cost
  {\"do\":\"judge\",\"list\":..,\"plan\":..,\"settings\":..}    a plan of one's own, and what the least plan costs
  {\"do\":\"check\",\"certificate\":..,\"portal\":..,\"settings\":..,\"staging\":..}

Which it is, explain sees, and says of bytes: these have a byte 0, a dump begins with a word of hexadecimal digits, and
a recording has a batch. If that is wrong, --as decides.

Sizes are in bytes, prices in one unit of your choice. Numbers are decimal, or hexadecimal after 0x.
Examples:
  dsa_text explain --lone 10 --batch 14 --fence 3 store.txt
  dsa_text explain --greatest-transfer 2048M recording.bin
  dsa_text assemble --job store.txt | dsa_text explain -
  dsa_text explain --svg judge.job > plan.svg";

/// What the help of `assemble` says of lines.
const LINES: &str = "A line is an operation (FORMATS.md has all of their words):

  move 0x1000 -> 0x2000, 64 bytes, record 0x8000
  fill 0x1000 with 0102030405060708, 64 bytes, record 0x8000
  compare 0x1000 with 0x2000, 64 bytes, expect 0, record 0x8000, check

A line \"barrier\" says that the next operation begins only after all before it have succeeded. The
descriptor after it has the flag 0x0001: dsa_plan_list and the other calls of the library take it as a
barrier, jobs refuse it (3 FlagBits).

Lines that disassemble writes of a portal and a staging area are read too, with the members of a batch after its line. The
lines of batches and the word fence are passed over, since a plan sets batches and fences anew.

Sizes are in bytes, prices in one unit of your choice. Numbers are decimal, or hexadecimal after 0x.
Example: dsa_text assemble --job store.txt | dsa";

/// An option with a value.
pub(crate) fn value<'a>(alloc: Global, name: &'a str, default: &'a str, help: &'a str) -> Arg<'a> {
    Arg::new(alloc, name)
        .long(name)
        .value_name("N")
        .action(ArgAction::Set)
        .default_value(default)
        .help(help)
}

/// An option without one.
pub(crate) fn flag<'a>(alloc: Global, name: &'a str, help: &'a str) -> Arg<'a> {
    Arg::new(alloc, name)
        .long(name)
        .action(ArgAction::SetTrue)
        .help(help)
}

/// The file to read.
pub(crate) fn file<'a>(alloc: Global) -> Arg<'a> {
    Arg::new(alloc, "file")
        .value_name("FILE")
        .action(ArgAction::Set)
        .help("what to read; standard input where it is - or missing")
}

/// The option of a table of prices.
pub(crate) fn batches<'a>(alloc: Global) -> Result<Arg<'a>, AllocError> {
    Arg::new(alloc, "batches")
        .long("batches")
        .value_name("N,N,..")
        .action(ArgAction::Set)
        .help("prices of batches by their size, from 2 pieces on, in place of --batch")
        .conflicts_with("batch")
}

/// The flag that keeps fences of lines as barriers.
pub(crate) fn keep_fences<'a>(alloc: Global) -> Arg<'a> {
    flag(
        alloc,
        "keep-fences",
        "take the fence of a line for a barrier before it",
    )
}

/// The options of the settings.
pub(crate) fn settings_options<'a>(alloc: Global) -> Result<Vec<Arg<'a>>, AllocError> {
    let batches = batches(alloc)?;
    Ok(vec![in alloc;
        value(
            alloc,
            "greatest-batch",
            "32",
            "most pieces of a batch, 2 to 1024"
        ),
        value(
            alloc,
            "greatest-transfer",
            "2097152",
            "most bytes of a piece"
        ),
        value(alloc, "lone", "10", "price of a piece by itself"),
        value(alloc, "batch", "14", "price of a batch"),
        batches,
        value(alloc, "fence", "3", "price of a fence in a batch"),
        value(
            alloc,
            "staging",
            "0x10000",
            "address where the plan's staging area will be"
        ),
    ]?)
}

/// The command `assemble`.
fn assemble_command<'a>(alloc: Global) -> Result<Command<'a>, AllocError> {
    let options = settings_options(alloc)?;
    Command::new(alloc, "assemble")
        .about("Reads lines of operations, and writes their list in hexadecimal")
        .after_help(LINES)
        .arg(file(alloc))?
        .arg(flag(alloc, "job", "write a whole job to plan the list"))?
        .arg(keep_fences(alloc))?
        .args(options)
}

/// The option of the staging area's address.
fn at<'a>(alloc: Global) -> Result<Arg<'a>, AllocError> {
    value(
        alloc,
        "at",
        "0x10000",
        "address of the staging area that is read",
    )
    .requires_arg("staging")?
    .conflicts_with("portal")
}

/// The command `disassemble`.
fn disassemble_command<'a>(alloc: Global) -> Result<Command<'a>, AllocError> {
    let mut options = Vec::new(alloc);
    options.push(file(alloc))?;
    options.push(flag(alloc, "portal", "read the entries of a portal"))?;
    let staging = flag(
        alloc,
        "staging",
        "read the bytes of a staging area, before a run or after it",
    );
    options.push(staging.conflicts_with("portal")?)?;
    options.push(at(alloc)?)?;
    let keep = flag(
        alloc,
        "keep-fences",
        "write a barrier before each descriptor of a list that has the flag fence",
    );
    options.push(keep.conflicts_with("portal")?.conflicts_with("staging")?)?;
    Command::new(alloc, "disassemble")
        .about("Reads a list in hexadecimal or as bytes, and writes its lines")
        .after_help(BYTES)
        .args(options)
}

/// An option of a picture that names a piece.
fn piece<'a>(alloc: Global, name: &'a str, help: &'a str) -> Result<Arg<'a>, AllocError> {
    Arg::new(alloc, name)
        .long(name)
        .value_name("N")
        .action(ArgAction::Set)
        .help(help)
        .requires_arg("svg")
}

/// The option of what an input is taken as.
fn taken_as<'a>(alloc: Global) -> Arg<'a> {
    Arg::new(alloc, "as")
        .long("as")
        .value_name("WHAT")
        .action(ArgAction::Set)
        .help("what the input is: text, list or recording")
}

/// The flag of all conflicts and pieces.
fn all_flag<'a>(alloc: Global) -> Result<Arg<'a>, AllocError> {
    flag(
        alloc,
        "all",
        "name every conflict that a fence separates, and each piece by itself",
    )
    .conflicts_with("svg")?
    .conflicts_with("json")
}

/// The flag of what groups wait for.
fn waits_flag<'a>(alloc: Global) -> Result<Arg<'a>, AllocError> {
    flag(
        alloc,
        "waits",
        "tell which earlier groups each group waits for",
    )
    .conflicts_with("svg")?
    .conflicts_with("json")?
    .conflicts_with("all")
}

/// The options of how a plan is shown.
fn form_options<'a>(alloc: Global) -> Result<Vec<Arg<'a>>, AllocError> {
    let mut options = Vec::new(alloc);
    options.push(flag(alloc, "svg", "draw the plan"))?;
    let json = flag(alloc, "json", "write the explanation as JSON");
    options.push(json.conflicts_with("svg")?)?;
    options.push(all_flag(alloc)?)?;
    options.push(waits_flag(alloc)?)?;
    options.push(piece(alloc, "from", "the first piece that --svg draws")?)?;
    options.push(piece(alloc, "to", "the last one")?)?;
    Ok(options)
}

/// The command `explain`.
fn explain_command<'a>(alloc: Global) -> Result<Command<'a>, AllocError> {
    let form = form_options(alloc)?;
    let settings = settings_options(alloc)?;
    Command::new(alloc, "explain")
        .about("Reads lines, a list, a recording or a job, and tells what the plan does and why")
        .after_help(EXPLAINED)
        .arg(file(alloc))?
        .args(form)?
        .arg(taken_as(alloc))?
        .arg(keep_fences(alloc))?
        .args(settings)
}

/// The commands.
fn subcommands<'a>(alloc: Global) -> Result<Vec<Command<'a>>, AllocError> {
    let mut commands = Vec::new(alloc);
    commands.push(assemble_command(alloc)?)?;
    commands.push(disassemble_command(alloc)?)?;
    commands.push(explain_command(alloc)?)?;
    commands.push(resume_command(alloc)?)?;
    commands.push(audit_command(alloc)?)?;
    Ok(commands)
}

/// The program's commands and their options.
pub(crate) fn commands<'a>(alloc: Global) -> Result<Command<'a>, AllocError> {
    let subcommands = subcommands(alloc)?;
    Command::new(alloc, "dsa_text")
        .about("Descriptors of the data streaming accelerator as text")
        .version(VERSION)
        .after_help(PROGRAM)
        .subcommand_required(true)
        .subcommands(subcommands)
}
