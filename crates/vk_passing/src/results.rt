// Results and stops of calls.

ghost use Rattle.std.specs.Prelude.{◌≡◌, ◌<◌, Option, IfSome};
ghost use Rattle.vk_object.specs.Machine.{put};
ghost use Rattle.vk_frames.specs.Each.{each};
ghost use Rattle.vk_frames.specs.Frames.{FitsAs, IsFrame, lanes_of};
ghost use Rattle.vk_passing.specs.Taken.{taken, taken_live};

use vk_frames::Frame;

/// A lane takes the stop of a lane of the call's frame, or the call's result into a register.
pub fn take(
    frame: &mut Frame<'_>,
    callee: &Frame<'_>,
    register: Option<u16>,
    result_register: Option<u16>,
    from: usize,
    lane: usize,
)
    requires fits { IsFrame frame.old }
    requires callee { IsFrame callee.now }
    requires register { IfSome register (λ r. r < frame.old.registers) }
    requires result_register { IfSome result_register (λ r. r < callee.now.registers) }
    requires from { from < callee.now.lanes }
    requires lane { lane < frame.old.lanes }
    ensures fits { FitsAs frame.old frame.new }
    ensures lanes { lanes_of frame.new ≡ put (lanes_of frame.old) lane (taken register result_register (lanes_of callee.now) from (lanes_of frame.old lane)) }
{
    if let Some(stop) = callee.stop(from) {
        frame.set_stop(lane, stop);
        return;
    }
    let Some(register) = register else {
        return;
    };
    match result_register {
        Some(result_register) => {
            let word = callee.word(result_register, from);
            frame.set_word(register, lane, word);
        }
        None => frame.set_word(register, lane, vk_types::Word(0)),
    }
}

/// Each lane that is live in a mask takes the stop or the result of its own lane of the call's frame.
pub fn take_all(
    frame: &mut Frame<'_>,
    callee: &Frame<'_>,
    m: u16,
    register: Option<u16>,
    result_register: Option<u16>,
)
    requires fits { IsFrame frame.old }
    requires callee { IsFrame callee.now }
    requires same { callee.now.lanes ≡ frame.old.lanes }
    requires mask { m < frame.old.masks }
    requires register { IfSome register (λ r. r < frame.old.registers) }
    requires result_register { IfSome result_register (λ r. r < callee.now.registers) }
    ensures fits { FitsAs frame.old frame.new }
    ensures lanes { lanes_of frame.new ≡ each frame.old.lanes (taken_live m register result_register (lanes_of callee.now)) (lanes_of frame.old) }
{
    for lane in 0..frame.lanes {
        take_live(frame, callee, m, register, result_register, lane);
    }
}

// The same in one lane.
fn take_live(
    frame: &mut Frame<'_>,
    callee: &Frame<'_>,
    m: u16,
    register: Option<u16>,
    result_register: Option<u16>,
    lane: usize,
)
    requires fits { IsFrame frame.old }
    requires callee { IsFrame callee.now }
    requires same { callee.now.lanes ≡ frame.old.lanes }
    requires mask { m < frame.old.masks }
    requires register { IfSome register (λ r. r < frame.old.registers) }
    requires result_register { IfSome result_register (λ r. r < callee.now.registers) }
    requires lane { lane < frame.old.lanes }
    ensures fits { FitsAs frame.old frame.new }
    ensures lanes { lanes_of frame.new ≡ put (lanes_of frame.old) lane (taken_live m register result_register (lanes_of callee.now) lane (lanes_of frame.old lane)) }
{
    if !frame.is_live(m, lane) {
        return;
    }
    take(frame, callee, register, result_register, lane, lane);
}
