// The top call.

ghost use Rattle.std.specs.Prelude.{◌≡◌, ◌⊎◌, []};
ghost use Rattle.vk_ends.specs.Reports.{Reports};
ghost use Rattle.vk_ends.specs.declared.ends.WordFault.{WordFault};
ghost use Rattle.vk_ends.specs.declared.ends.WordRule.{WordRule};
ghost use Rattle.vk_requests.specs.Command.{Command, IsCommand, IsWordFault, command_of, files_of};
ghost use Rattle.vk_cli.specs.Commands.{CommandHolds, HasFixedLetter};
ghost use Rattle.vk_cli.specs.Unasked.{UnaskedHolds};

use std::alloc::Global;
use vk_cmd_demangle::demangle;
use vk_cmd_lanes::{Call, lanes};
use vk_cmd_mangle::mangle;
use vk_ends::{End, WordFault, report, report_memory};
use vk_io::{Sink, Store, Words};
use vk_requests::{Request, WordFail, request_of};

/// Does what the words ask.
///
/// - `demangle FILE` reads one vector name a line and writes each in words.
/// - `lanes --isa I [--mask BITS] [--turns N] UNIT NAME ARG..` reads the unit, judges it for the letter's target, calls the variant or
///   function NAME of its one function, which returns an integer expression of its parameters, on the lanes' arguments, and writes the
///   line of each lane on `out`: what the scalar function gives on the lane's arguments.
/// - `mangle --target T UNIT` reads the unit, judges it and writes each vector name that its directives give.
///
/// An end other than `Done` puts its one line on `err`; a fault of `err` changes no answer. The answers, in this order:
/// `Words` P1 where there is no word, P2 where the first is no command, P3 where the command's table does not take the others, P4
/// where a value is not one of those stated; then those of the command, whose record says what holds with each: `ReadFault` where
/// an input file could not be read, `Refused` where a rule refuses it, `Memory` for want of memory, at any time, and `WriteFault`
/// where `out` failed.
pub fn vfabi<S: Store, O: Sink, E: Sink>(
    alloc: Global,
    words: &Words,
    store: &mut S,
    out: &mut O,
    err: &mut E,
) -> End
    // What holds with each answer of the command that the words ask for.
    ensures command { (k : Command) → IsCommand words.now k →
        CommandHolds k (S.state store.old) (S.state store.new) (O.state out.old) (O.state out.new) result }

    // Words that ask for no command.
    ensures words_only { (fault : WordFault) → result ≡ End.Words fault → IsWordFault words.now fault.rule }
    ensures words_when { (rule : WordRule) → IsWordFault words.now rule →
        (result ≡ End.Words (record { rule = rule })) ⊎ (result ≡ End.Memory) }
    ensures unasked { ((k : Command) → IsCommand words.now k → ⊥) →
        UnaskedHolds (S.state store.old) (S.state store.new) (O.state out.old) (O.state out.new) result }

    // The line on standard error.
    ensures reports { (k : Command) → IsCommand words.now k → Reports (files_of k) result (E.state err.old) (E.state err.new) }
    ensures words_reports { ((k : Command) → IsCommand words.now k → ⊥) → Reports [] result (E.state err.old) (E.state err.new) }
{
    match request_of(alloc, words.texts()) {
        Ok(request) => carry_out(alloc, &request, store, out, err),
        Err(WordFail::Fault(rule)) => report(alloc, End::Words(WordFault { rule }), &[], err),
        Err(WordFail::Memory) => report_memory(err),
    }
}

// Does what is asked, and puts the line of its end.
fn carry_out<S: Store, O: Sink, E: Sink>(
    alloc: Global,
    request: &Request,
    store: &mut S,
    out: &mut O,
    err: &mut E,
) -> End
    requires letter { HasFixedLetter (command_of request.now) }
    ensures holds { CommandHolds (command_of request.now) (S.state store.old) (S.state store.new) (O.state out.old) (O.state out.new) result }
    ensures reports { Reports (files_of (command_of request.now)) result (E.state err.old) (E.state err.new) }
{
    match request {
        Request::Demangle(file) => {
            let end = demangle(alloc, file, store, out);
            report(alloc, end, &[file], err)
        }
        Request::Lanes(request) => {
            let call = Call {
                isa: request.isa,
                unit: request.unit,
                name: request.name,
                arguments: &request.arguments,
                mask: request.mask,
                turns: request.turns,
            };
            let end = lanes(alloc, call, store, out);
            report(alloc, end, &[request.unit], err)
        }
        Request::Mangle(request) => {
            let end = mangle(alloc, request.target, request.unit, store, out);
            report(alloc, end, &[request.unit], err)
        }
    }
}
