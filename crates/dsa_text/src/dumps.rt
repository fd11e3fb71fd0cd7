//! The dumps of memory that options name.

use crate::ending::{failed, without_audit};
use crate::reading::input;
use clap::ArgMatches;
use dsa_advice::{bytes_or_refusal, number_of};
use dsa_forms::is_text;
use dsa_recording::Dump;
use std::alloc::{AllocError, Global};
use std::process::ExitCode;

/// The address and the file of a word: a number, a colon and a name.
fn address_and_file(word: &str) -> Option<(u64, &str)> {
    let Some((number, file)) = word.split_once(':') else {
        return None;
    };
    let Some(address) = number_of(number) else {
        return None;
    };
    if file.is_empty() {
        return None;
    }
    Some((address, file))
}

/// The bytes of a dump: as they are, or as a text of digits spells them. Else the message that says why there are none.
fn bytes_of_dump(
    alloc: Global,
    file: &str,
    text: Vec<u8>,
) -> Result<Result<Vec<u8>, String>, AllocError> {
    if !is_text(&text) {
        return Ok(Ok(text));
    }
    match bytes_or_refusal(alloc, &text, "")? {
        Ok(bytes) => Ok(Ok(bytes)),
        Err(refusal) => {
            let message = refusal.text;
            Ok(Err(format!(in alloc; "{file}: {message}")?))
        }
    }
}

/// The dump that a word names, or the status if there is none.
fn read_dump(rt: &HostRuntime, word: &str) -> Result<Result<Dump, ExitCode>, AllocError> {
    let alloc = rt.alloc();
    let Some((address, file)) = address_and_file(word) else {
        let message = format!(in alloc; "error: --staging: '{word}' is no ADDRESS:FILE\n")?;
        return Ok(Err(failed(rt, &message)));
    };
    match input(rt, Some(file)) {
        Ok(text) => match bytes_of_dump(alloc, file, text)? {
            Ok(bytes) => Ok(Ok(Dump { address, bytes })),
            Err(message) => Ok(Err(failed(rt, &message))),
        },
        Err(reason) => Ok(Err(without_audit(rt, Some(file), reason)?)),
    }
}

/// The dumps that the options name, in their order, or the status if one can't be read.
pub(crate) fn dumps_in(
    rt: &HostRuntime,
    matches: &ArgMatches<'_>,
) -> Result<Result<Vec<Dump>, ExitCode>, AllocError> {
    let mut dumps = Vec::new(rt.alloc());
    let Some(words) = matches.get_strs("staging") else {
        return Ok(Ok(dumps));
    };
    for word in words {
        match read_dump(rt, *word)? {
            Ok(dump) => dumps.push(dump)?,
            Err(code) => return Ok(Err(code)),
        }
    }
    Ok(Ok(dumps))
}
