//! The command line.
ghost use Rattle.std.specs.Prelude.{◌≡◌, ◌++◌, ◌∷◌, [], Ok, IfOk, IfErr, OnOk};
ghost use Rattle.commands.specs.Plan.{planned, some_words, one_word, two_words, word_and_some, limit_word_and_some, texts_of, IsWordRefusal};

use crate::PartLimit;
use pb_wire::{List, NoMemory, Text};
use std::alloc::Global;
use thiserror::Error;

/// Texts in order.
pub type Texts = List<Text>;

/// What the command line asks for.
#[derive(Drop)]
pub enum ToolPlan {
    /// Says how much there is in the messages in `files`, of which there is at least one.
    Check {
        files: Texts,
    },
    /// Prints what the message in `file` means, as text.
    Show {
        file: Text,
    },
    /// Writes the canonical bytes of the message in `file` to `target`.
    Canon {
        file: Text,
        target: Text,
    },
    /// Joins the messages in `files`, of which there is at least one, and writes the canonical bytes to `target`.
    Merge {
        target: Text,
        files: Texts,
    },
    /// Cuts the messages in `files`, of which there is at least one, into parts of at most `limit` bytes, and writes the canonical
    /// bytes of each part to a file of its own, whose name begins with `prefix`.
    Split {
        limit: PartLimit,
        prefix: Text,
        files: Texts,
    },
}

/// What is wrong with the command line.
#[derive(Clone, Copy, Debug, PartialEq, Eq)]
pub enum WordReason {
    /// There are no words.
    NoCommand,
    /// The first word is no command.
    UnknownCommand,
    /// The command needs one word more.
    MissingWord,
    /// The command takes fewer words.
    ExtraWord,
    /// The word is no number, or is one that is out of range.
    BadNumber,
}

/// Why the command line asks for nothing.
#[derive(Clone, Copy, Debug, PartialEq, Eq, Error)]
pub enum WordRefusal {
    /// The place is that of the word, counted from 0; at `MissingWord` it is the number of words.
    #[error("word {place}: {reason:?}")]
    Fault { place: u32, reason: WordReason },
    #[error("no memory")]
    NoMemory,
}

impl From<NoMemory> for WordRefusal {
    ghost use Rattle.std.specs.Prelude.{◌≡◌};
    ghost use Rattle.commands.specs.declared.words.WordRefusal.TheVariants as refusal;

    ghost from_gives = { λ _ e. e ≡ refusal.NoMemory };

    fn from(_: NoMemory) -> WordRefusal {
        WordRefusal::NoMemory
    }
}

/// What the command line asks for: a command, and the words that it takes.
pub fn plan(alloc: Global, words: &[String]) -> Result<ToolPlan, WordRefusal>
    ensures ok { IfOk result (λ plan. planned (texts_of words.now) ≡ Ok plan) }
    ensures refused { IfErr result (IsWordRefusal (planned (texts_of words.now))) }
{
    let [command, rest @ ..] = words else {
        return fault(0, WordReason::NoCommand);
    };
    if command.as_str() == "check" {
        return check_plan(alloc, rest);
    }
    if command.as_str() == "show" {
        return show_plan(alloc, rest);
    }
    if command.as_str() == "canon" {
        return canon_plan(alloc, rest);
    }
    if command.as_str() == "merge" {
        return merge_plan(alloc, rest);
    }
    if command.as_str() == "split" {
        return split_plan(alloc, rest);
    }
    fault(0, WordReason::UnknownCommand)
}

fn fault(place: u32, reason: WordReason) -> Result<ToolPlan, WordRefusal>
    ensures { result ≡ Err (WordRefusal.Fault place reason) }
{
    Err(WordRefusal::Fault { place, reason })
}

// `check IN..`, without its command.
fn check_plan(alloc: Global, rest: &[String]) -> Result<ToolPlan, WordRefusal>
    ensures ok { IfOk result (λ plan. some_words ToolPlan.Check (texts_of rest.now) ≡ Ok plan) }
    ensures refused { IfErr result (IsWordRefusal (some_words ToolPlan.Check (texts_of rest.now))) }
{
    if rest.is_empty() {
        return fault(1, WordReason::MissingWord);
    }
    Ok(ToolPlan::Check {
        files: copies(alloc, rest)?,
    })
}

// The words as texts of their own.
fn copies(alloc: Global, words: &[String]) -> Result<Texts, NoMemory>
    ensures { IfOk result (λ texts. texts ≡ texts_of words.now) }
{
    let mut texts = Texts::begin(alloc);
    for word in words {
        if let Err(wanting) = add_copy(alloc, word.as_str(), &mut texts) {
            return Err(wanting);
        }
    }
    Ok(texts)
}

// One word more, as a text.
fn add_copy(alloc: Global, word: &str, texts: &mut Texts) -> Result<(), NoMemory>
    ensures { OnOk result (texts.new ≡ texts.old ++ word.now ∷ []) }
{
    texts.add(Text::copy_of(alloc, word)?)
}

// `show IN`, without its command.
fn show_plan(alloc: Global, rest: &[String]) -> Result<ToolPlan, WordRefusal>
    ensures ok { IfOk result (λ plan. one_word ToolPlan.Show (texts_of rest.now) ≡ Ok plan) }
    ensures refused { IfErr result (IsWordRefusal (one_word ToolPlan.Show (texts_of rest.now))) }
{
    match rest {
        [] => fault(1, WordReason::MissingWord),
        [file] => Ok(ToolPlan::Show {
            file: Text::copy_of(alloc, file.as_str())?,
        }),
        _ => fault(2, WordReason::ExtraWord),
    }
}

// `canon IN OUT`, without its command.
fn canon_plan(alloc: Global, rest: &[String]) -> Result<ToolPlan, WordRefusal>
    ensures ok { IfOk result (λ plan. two_words ToolPlan.Canon (texts_of rest.now) ≡ Ok plan) }
    ensures refused { IfErr result (IsWordRefusal (two_words ToolPlan.Canon (texts_of rest.now))) }
{
    match rest {
        [] => fault(1, WordReason::MissingWord),
        [_] => fault(2, WordReason::MissingWord),
        [file, target] => Ok(ToolPlan::Canon {
            file: Text::copy_of(alloc, file.as_str())?,
            target: Text::copy_of(alloc, target.as_str())?,
        }),
        _ => fault(3, WordReason::ExtraWord),
    }
}

// `merge OUT IN..`, without its command.
fn merge_plan(alloc: Global, rest: &[String]) -> Result<ToolPlan, WordRefusal>
    ensures ok { IfOk result (λ plan. word_and_some ToolPlan.Merge (texts_of rest.now) ≡ Ok plan) }
    ensures refused { IfErr result (IsWordRefusal (word_and_some ToolPlan.Merge (texts_of rest.now))) }
{
    match rest {
        [] => fault(1, WordReason::MissingWord),
        [_] => fault(2, WordReason::MissingWord),
        [target, files @ ..] => Ok(ToolPlan::Merge {
            target: Text::copy_of(alloc, target.as_str())?,
            files: copies(alloc, files)?,
        }),
    }
}

// `split LIMIT PREFIX IN..`, without its command.
fn split_plan(alloc: Global, rest: &[String]) -> Result<ToolPlan, WordRefusal>
    ensures ok { IfOk result (λ plan. limit_word_and_some ToolPlan.Split (texts_of rest.now) ≡ Ok plan) }
    ensures refused { IfErr result (IsWordRefusal (limit_word_and_some ToolPlan.Split (texts_of rest.now))) }
{
    match rest {
        [] => fault(1, WordReason::MissingWord),
        [_] => fault(2, WordReason::MissingWord),
        [_, _] => fault(3, WordReason::MissingWord),
        [limit, prefix, files @ ..] => match PartLimit::of_word(limit.as_str()) {
            Some(limit) => Ok(ToolPlan::Split {
                limit,
                prefix: Text::copy_of(alloc, prefix.as_str())?,
                files: copies(alloc, files)?,
            }),
            None => fault(1, WordReason::BadNumber),
        },
    }
}
