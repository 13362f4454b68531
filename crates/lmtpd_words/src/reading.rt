//! Words in, and what they ask for out.

ghost use Rattle.std.specs.Prelude.{◌≡◌, ◌⊎◌, [], true, IfOk, IfErr, MatchResult};
ghost use Rattle.clap.specs.Words.{kind_of, subcommand_of, subcommand_rows_of, takes};
ghost use Rattle.clap.specs.Words.{fault_of as kinds_for};
ghost use Rattle.lmtpd_words.specs.CommandLine.{program_app};
ghost use Rattle.lmtpd_words.specs.Words.{IsAsked, IsLacking, as_texts};

use crate::command::program;
use crate::texts::BAD_TEXT;
use crate::values::{refused_text, words_of};
use crate::words::Words;
use clap::error::ErrorKind;
use clap::{ArgMatches, Error};
use std::alloc::{AllocError, Global};

/// Reads the words, the program's own name first. The error is `clap`'s, a call for help among them.
pub fn read_words<'a>(alloc: Global, words: &'a [String]) -> Result<Words<'a>, Error>
    ensures taken { IfOk result (λ _. kinds_for program_app (as_texts words.entry.now) ≡ []) }
    ensures read { IfOk result (IsAsked (subcommand_of program_app (as_texts words.entry.now))) }
    ensures refused { let texts = as_texts words.entry.now in IfErr result (λ e. takes program_app texts ≡ true
        → (kind_of e ≡ ErrorKind.OutOfMemory) ⊎ IsLacking (subcommand_of program_app texts)) }
{
    match called(alloc, words) {
        Ok(Ok(read)) => Ok(read),
        Ok(Err(why)) => Err(error_for(alloc, why)),
        Err(error) => Err(error),
    }
}

// The words' meaning, or what is said where they have none.
fn called<'a>(alloc: Global, words: &'a [String]) -> Result<Result<Words<'a>, &'static str>, Error>
    ensures taken { IfOk result (λ _. kinds_for program_app (as_texts words.entry.now) ≡ []) }
    ensures read { let call = subcommand_of program_app (as_texts words.entry.now) in
        IfOk result (λ read. MatchResult read (IsAsked call) (λ _. IsLacking call)) }
    ensures refused { IfErr result (λ e. takes program_app (as_texts words.entry.now) ≡ true
        → kind_of e ≡ ErrorKind.OutOfMemory) }
{
    let matches = matches_of(alloc, words)?;
    match words_of(alloc, &matches)? {
        Some(read) => Ok(Ok(read)),
        None => Ok(Err(refused_text(&matches))),
    }
}

// What `clap` takes the words for.
fn matches_of<'a>(alloc: Global, words: &'a [String]) -> Result<ArgMatches<'a>, Error>
    ensures taken { IfOk result (λ _. kinds_for program_app (as_texts words.entry.now) ≡ []) }
    ensures call { IfOk result (λ m. subcommand_rows_of m
        ≡ subcommand_of program_app (as_texts words.entry.now)) }
    ensures refused { IfErr result (λ e. takes program_app (as_texts words.entry.now) ≡ true
        → kind_of e ≡ ErrorKind.OutOfMemory) }
{
    program(alloc)?.try_get_matches_from(words)
}

// The error for words that have no meaning, or for a lack of memory.
fn error_for(alloc: Global, why: &str) -> Error {
    match unusable(alloc, why) {
        Ok(error) => error,
        Err(lack) => Error::from(lack),
    }
}

/// The error for words that aren't UTF-8.
pub fn not_text(alloc: Global) -> Result<Error, AllocError>
    ensures { IfOk result (λ e. kind_of e ≡ ErrorKind.InvalidValue) }
{
    unusable(alloc, BAD_TEXT)
}

// The error for a value that clap doesn't judge: words that aren't UTF-8, the folder, the level and the mode.
fn unusable(alloc: Global, why: &str) -> Result<Error, AllocError>
    ensures { IfOk result (λ e. kind_of e ≡ ErrorKind.InvalidValue) }
{
    program(alloc)?.error(ErrorKind::InvalidValue, why)
}
