// The tables of options and values, one for each command.

ghost use Rattle.std.specs.Prelude.{◌≡◌, IfOk, false};
ghost use Rattle.clap.specs.Words.{app_of, rule_of};
ghost use Rattle.vk_words.specs.Tables.{call_table, clone_table, demangle_table, gen_table, lanes_table, link_table, mangle_table, units_table, run_table, option_rule, letter_rule, flag_rule, place_rule, rest_rule, required};

use clap::{Arg, ArgAction, Command};
use std::alloc::{AllocError, Global};

// `--name VALUE`.
fn option<'a>(alloc: Global, name: &'a str) -> Arg<'a>
    ensures rule { rule_of result ≡ option_rule name.entry.now }
    ensures own { result.global ≡ false }
{
    Arg::new(alloc, name).long(name).action(ArgAction::Set)
}

// `-c VALUE`, under this name.
fn letter<'a>(alloc: Global, name: &'a str, c: char) -> Arg<'a>
    ensures rule { rule_of result ≡ letter_rule name.entry.now c }
    ensures own { result.global ≡ false }
{
    Arg::new(alloc, name).short(c).action(ArgAction::Set)
}

// `--name`.
fn flag<'a>(alloc: Global, name: &'a str) -> Arg<'a>
    ensures rule { rule_of result ≡ flag_rule name.entry.now }
    ensures own { result.global ≡ false }
{
    Arg::new(alloc, name).long(name).action(ArgAction::SetTrue)
}

// One value by its place.
fn place<'a>(alloc: Global, name: &'a str) -> Arg<'a>
    ensures rule { rule_of result ≡ place_rule name.entry.now }
    ensures own { result.global ≡ false }
{
    Arg::new(alloc, name).action(ArgAction::Set)
}

// Any number of values, the last.
fn rest<'a>(alloc: Global, name: &'a str) -> Arg<'a>
    ensures rule { rule_of result ≡ rest_rule name.entry.now }
    ensures own { result.global ≡ false }
{
    Arg::new(alloc, name).action(ArgAction::Append)
}

/// `call [--mask BITS] [--turns N] IMG NAME ARG..`
pub fn call_command<'a>(alloc: Global) -> Result<Command<'a>, AllocError>
    ensures { IfOk result (λ c. app_of c ≡ call_table) }
{
    Command::new(alloc, "call")
        .arg(option(alloc, "mask"))?
        .arg(option(alloc, "turns"))?
        .arg(place(alloc, "IMG").required(true))?
        .arg(place(alloc, "NAME").required(true))?
        .arg(rest(alloc, "ARG"))
}

/// `link --isa I [--vl V] -o IMG OBJ..`
pub fn link_command<'a>(alloc: Global) -> Result<Command<'a>, AllocError>
    ensures { IfOk result (λ c. app_of c ≡ link_table) }
{
    Command::new(alloc, "link")
        .arg(option(alloc, "isa").required(true))?
        .arg(option(alloc, "vl"))?
        .arg(letter(alloc, "o", 'o').required(true))?
        .arg(place(alloc, "OBJ").required(true))?
        .arg(rest(alloc, "MORE"))
}

/// `run [--turns N] [--stats] IMG`
pub fn run_command<'a>(alloc: Global) -> Result<Command<'a>, AllocError>
    ensures { IfOk result (λ c. app_of c ≡ run_table) }
{
    Command::new(alloc, "run")
        .arg(option(alloc, "turns"))?
        .arg(flag(alloc, "stats"))?
        .arg(place(alloc, "IMG").required(true))
}

/// `mangle --target T UNIT`
pub fn mangle_command<'a>(alloc: Global) -> Result<Command<'a>, AllocError>
    ensures { IfOk result (λ c. app_of c ≡ mangle_table) }
{
    Command::new(alloc, "mangle")
        .arg(option(alloc, "target").required(true))?
        .arg(place(alloc, "UNIT").required(true))
}

/// `demangle FILE`
pub fn demangle_command<'a>(alloc: Global) -> Result<Command<'a>, AllocError>
    ensures { IfOk result (λ c. app_of c ≡ demangle_table) }
{
    Command::new(alloc, "demangle").arg(place(alloc, "FILE").required(true))
}

/// `clone --target T -o OBJ UNIT`
pub fn clone_command<'a>(alloc: Global) -> Result<Command<'a>, AllocError>
    ensures { IfOk result (λ c. app_of c ≡ clone_table) }
{
    Command::new(alloc, "clone")
        .arg(option(alloc, "target").required(true))?
        .arg(letter(alloc, "o", 'o').required(true))?
        .arg(place(alloc, "UNIT").required(true))
}

/// `lanes --isa b UNIT NAME ARG..`
pub fn lanes_command<'a>(alloc: Global) -> Result<Command<'a>, AllocError>
    ensures { IfOk result (λ c. app_of c ≡ lanes_table) }
{
    Command::new(alloc, "lanes")
        .arg(option(alloc, "isa").required(true))?
        .arg(place(alloc, "UNIT").required(true))?
        .arg(place(alloc, "NAME").required(true))?
        .arg(rest(alloc, "ARG"))
}

/// `gen --isa I [--vl V] N`
pub fn gen_command<'a>(alloc: Global) -> Result<Command<'a>, AllocError>
    ensures { IfOk result (λ c. app_of c ≡ gen_table) }
{
    Command::new(alloc, "gen")
        .arg(option(alloc, "isa").required(true))?
        .arg(option(alloc, "vl"))?
        .arg(place(alloc, "N").required(true))
}

/// `NAME --isa I [--vl V] [--turns N] UNIT..`, of `read` and `all`
pub fn units_command<'a>(alloc: Global, name: &'a str) -> Result<Command<'a>, AllocError>
    ensures { IfOk result (λ c. app_of c ≡ units_table name.entry.now) }
{
    Command::new(alloc, name)
        .arg(option(alloc, "isa").required(true))?
        .arg(option(alloc, "vl"))?
        .arg(option(alloc, "turns"))?
        .arg(place(alloc, "UNIT").required(true))?
        .arg(rest(alloc, "MORE"))
}
