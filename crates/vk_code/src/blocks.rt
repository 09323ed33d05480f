// The first instruction that is not good.

ghost use Rattle.std.specs.Prelude.{◌≡◌, ◌+◌, ◌<◌, ◌≤◌, length, drop};
ghost use Rattle.std.specs.Option.{option_map};
ghost use Rattle.vk_code.specs.Inner.Blocks.{IsStep, bad_among};
ghost use Rattle.vk_code.specs.Listing.{routine_of};
ghost use Rattle.vk_code.specs.Valid.{environment_of};

use crate::code::Code;
use crate::env::Env;
use crate::operations::is_good_instr;

// What the first of some instructions is.
#[derive(Clone, Copy, PartialEq, Eq, Debug)]
pub(crate) enum Step {
    // Not good.
    Bad,
    // Good.
    Next,
    // Good, and so many more are its block.
    Block(usize),
}

/// The number of the first of `count` instructions from `from` on that is not good, where blocks nest at most `room` deep.
pub(crate) fn bad_instruction(
    code: &Code,
    env: &Env,
    room: u32,
    from: usize,
    count: usize,
) -> Option<usize>
    requires { from + count ≤ length (routine_of code.now).instrs }
    ensures { result ≡ option_map (λ n. from + n)
        (bad_among (environment_of env.now) (routine_of code.now) room (drop from (routine_of code.now).instrs) count) }
{
    let mut at = from;
    let mut left = count;
    while left > 0 {
        match next_step(code, env, room, at, left) {
            Step::Bad => return Some(at),
            Step::Next => {
                at += 1;
                left -= 1;
            }
            Step::Block(size) => {
                match bad_instruction(code, env, room - 1, at + 1, size) {
                    Some(bad) => return Some(bad),
                    None => {}
                }
                at += 1 + size;
                left -= 1 + size;
            }
        }
    }
    None
}

// What the first of `left` instructions from `at` on is.
fn next_step(code: &Code, env: &Env, room: u32, at: usize, left: usize) -> Step
    requires some { 0 < left }
    requires inside { at + left ≤ length (routine_of code.now).instrs }
    ensures { IsStep (environment_of env.now) (routine_of code.now) room (drop at (routine_of code.now).instrs) left result }
{
    let instr = &code.instrs[at];
    if !is_good_instr(code, env, instr) {
        return Step::Bad;
    }
    match instr.block() {
        Some(size) => {
            let size = size as usize;
            if size < left && room > 0 {
                Step::Block(size)
            } else {
                Step::Bad
            }
        }
        None => Step::Next,
    }
}
