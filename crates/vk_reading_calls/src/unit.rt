// Calls in the bodies of a unit.

ghost use Rattle.vk_meaning.specs.Meaning.{call_by, call_within};
ghost use Rattle.vk_meaning.specs.Programs.{arrays_of};
ghost use Rattle.vk_rules_book.specs.Scopes.{is_print, text_of};
ghost use Rattle.vk_reading_calls.specs.Right.{AreRight, IsRight};
ghost use Rattle.vk_reading_calls.specs.Views.{units_in};

use crate::functions::Functions;
use crate::prints::print_first;
use crate::program::{Program, ProgramUnit};
use vk_ast::NameId;
use vk_io::Sink;
use vk_reading::{Cells, Halt, Held};
use vk_reading_steps::calls::Calls;

/// The functions of a program, by the names of one of its units.
#[derive(Drop)]
pub struct InUnit<'a, F> {
    pub functions: &'a F,
    pub program: &'a Program<'a>,
    pub unit: &'a ProgramUnit<'a>,
    ghost right: { AreRight program.now.units.now },
    ghost unit_right: { IsRight (units_in program.now) unit.now },
}

impl<O: Sink, F: Functions<O>> Calls<O> for InUnit<'_, F> {
    ghost use Rattle.vk_reading_calls.specs.Inner.Adding.{adds_call_by};

    ghost arrays = { λ u. arrays_of (units_in u.program.now) };

    ghost call = { λ u id. call_by (call_within (F.depth u.functions.now) (units_in u.program.now) u.program.now.turns) (is_print u.unit.now.names.now id)
        (text_of u.unit.now.names.now id) };

    ghost adds = { λ u id ds. adds_call_by (F.depth u.functions.now) (units_in u.program.now) u.program.now.turns (is_print u.unit.now.names.now id)
        (text_of u.unit.now.names.now id) ds };

    fn call(
        &self,
        cells: &mut Cells,
        out: &mut O,
        id: NameId,
        arguments: &[Held],
    ) -> Result<Held, Halt> {
        if self.unit.is_print(id) {
            return print_first(self.program.alloc, out, arguments);
        }
        let at = self.unit.function_place(id);
        self.functions.call(self.program, cells, out, at, arguments)
    }
}
