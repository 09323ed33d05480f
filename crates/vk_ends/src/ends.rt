// How a command ends, with the status and the line on standard error of each end.

ghost use Rattle.std.specs.Prelude.{◌≡◌, IfOk, map, string_bytes};
ghost use Rattle.vk_ends.specs.Ends.{file_at, message_of, status_of};

use crate::labels::word_of_stop;
use std::alloc::{AllocError, AllocFailed, Global};
use vk_memory::Memory;
use vk_names::NameRule;
use vk_types::Stop;
use vk_unit_rules::UnitRule;

/// A rule that the words of a command line break.
#[derive(Clone, Copy, PartialEq, Eq, Debug)]
pub enum WordRule {
    /// No word.
    P1,
    /// An unknown command.
    P2,
    /// Words that are not of the command's form.
    P3,
    /// A value that is not one of those stated.
    P4,
}

/// What is wrong with the words.
#[derive(Clone, Copy, PartialEq, Eq, Debug)]
pub struct WordFault {
    pub rule: WordRule,
}

/// A rule that a call of a variant breaks.
#[derive(Clone, Copy, PartialEq, Eq, Debug)]
pub enum CallRule {
    /// There is no such entry.
    A1,
    /// An argument does not fit its kind.
    A2,
    /// Two lanes are not apart.
    A3,
    /// An argument is missing, extra or wrong.
    A4,
    /// The mask is wrong.
    A5,
}

/// What is wrong with a call: for A4 the parameter and the lane, for A1 twice 0.
#[derive(Clone, Copy, PartialEq, Eq, Debug)]
pub struct CallFault {
    pub rule: CallRule,
    pub first: u32,
    pub second: u32,
}

/// Why a command refused its input. `input` is the number of the input file among the command's, from 0.
#[derive(Clone, Copy, PartialEq, Eq, Debug)]
pub enum Refusal {
    /// The input file is longer than its limit.
    Size {
        input: usize,
    },
    /// A line, from 1, is no name: the place in it, from 0, and the rule.
    Name {
        line: u32,
        at: u32,
        rule: NameRule,
    },
    /// The unit breaks a rule, on this line, from 1. `directive` is the number of the directive that is concerned, from 1, and 0
    /// where none is.
    Unit {
        input: usize,
        line: u32,
        directive: u32,
        rule: UnitRule,
    },
    /// The unit is not of a form that is built yet.
    NotYet {
        input: usize,
    },
    Call(CallFault),
}

/// How a command ended.
#[derive(Clone, Copy, PartialEq, Eq, Debug)]
pub enum End {
    /// All was done and written.
    Done,
    Refused(Refusal),
    Words(WordFault),
    /// The program stopped.
    Stopped(Stop),
    /// The input file of this number could not be read.
    ReadFault(usize),
    /// What was to be written could not be.
    WriteFault,
    /// There was no memory left.
    Memory,
}

impl From<AllocError> for End {
    ghost use Rattle.vk_ends.specs.declared.ends.End.{End};

    ghost from_gives = { λ _ e. e ≡ End.Memory };

    fn from(_error: AllocError) -> End {
        End::Memory
    }
}

impl<T: Drop> From<AllocFailed<T>> for End {
    ghost use Rattle.vk_ends.specs.declared.ends.End.{End};

    ghost from_gives = { λ _ e. e ≡ End.Memory };

    fn from(_error: AllocFailed<T>) -> End {
        End::Memory
    }
}

impl From<Memory> for End {
    ghost use Rattle.vk_ends.specs.declared.ends.End.{End};

    ghost from_gives = { λ _ e. e ≡ End.Memory };

    fn from(_memory: Memory) -> End {
        End::Memory
    }
}

impl End {
    /// The exit status: 0 where all was done, and 1 to 6 for the other ends in turn.
    pub fn status(self) -> u8
        ensures { result ≡ status_of self }
    {
        match self {
            End::Done => 0,
            End::Refused(_) => 1,
            End::Words(_) => 2,
            End::Stopped(_) => 3,
            End::ReadFault(_) => 4,
            End::WriteFault => 5,
            End::Memory => 6,
        }
    }

    /// The line for standard error, none where all was done. `files` are the command's input files: a line that names one names
    /// that of the end's number.
    pub fn message(self, alloc: Global, files: &[&str]) -> Result<String, AllocError>
        ensures { IfOk result (λ text. string_bytes text ≡ message_of (map (λ file. file.now) files.now) self) }
    {
        match self {
            End::Done => Ok(String::new(alloc)),
            End::Refused(refusal) => refusal.message(alloc, files),
            End::Words(fault) => format!(in alloc; "vfabi: words: {}\n", fault.rule.label()),
            End::Stopped(stop) => format!(in alloc; "vfabi: stop {}\n", word_of_stop(stop)),
            End::ReadFault(input) => {
                let file = file_of(files, input);
                format!(in alloc; "vfabi: read fault: {file}\n")
            }
            End::WriteFault => String::from_str(alloc, "vfabi: write fault\n"),
            End::Memory => String::from_str(alloc, NO_MEMORY),
        }
    }
}

// The line of want of memory, which takes none.
pub const NO_MEMORY: &str = "vfabi: no memory\n";

// The file of this number, and no text where there is none.
fn file_of<'a>(files: &[&'a str], input: usize) -> &'a str
    ensures { result.now ≡ file_at (map (λ file. file.now) files.now) input }
{
    match files.get(input) {
        Some(file) => file,
        None => "",
    }
}

impl Refusal {
    fn message(self, alloc: Global, files: &[&str]) -> Result<String, AllocError>
        ensures { IfOk result (λ text. string_bytes text ≡ message_of (map (λ file. file.now) files.now) (End.Refused self)) }
    {
        match self {
            Refusal::Size { input } => {
                let file = file_of(files, input);
                format!(in alloc; "vfabi: {file}: Z1\n")
            }
            Refusal::Name { line, at, rule } => {
                let label = rule.label();
                format!(in alloc; "vfabi: line {line}: {label} at {at}\n")
            }
            Refusal::Unit {
                input,
                line,
                directive,
                rule,
            } => {
                let file = file_of(files, input);
                let label = rule.label();
                format!(in alloc; "vfabi: {file} line {line} directive {directive}: {label}\n")
            }
            Refusal::NotYet { input } => {
                let file = file_of(files, input);
                format!(in alloc; "vfabi: {file}: X1\n")
            }
            Refusal::Call(fault) => {
                let label = fault.rule.label();
                let (first, second) = (fault.first, fault.second);
                format!(in alloc; "vfabi: call: {label} {first} {second}\n")
            }
        }
    }
}
