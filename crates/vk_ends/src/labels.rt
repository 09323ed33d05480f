// The labels of rules and the words of stops, as messages have them.

ghost use Rattle.std.specs.Prelude.{◌≡◌};
ghost use Rattle.vk_ends.specs.Ends.{call_label, stop_word, word_label};

use crate::ends::{CallRule, WordRule};
use vk_types::Stop;

impl WordRule {
    /// The label of the rule.
    pub fn label(self) -> &'static str
        ensures { result.now ≡ word_label self }
    {
        match self {
            WordRule::P1 => "P1",
            WordRule::P2 => "P2",
            WordRule::P3 => "P3",
            WordRule::P4 => "P4",
        }
    }
}

impl CallRule {
    /// The label of the rule.
    pub fn label(self) -> &'static str
        ensures { result.now ≡ call_label self }
    {
        match self {
            CallRule::A1 => "A1",
            CallRule::A2 => "A2",
            CallRule::A3 => "A3",
            CallRule::A4 => "A4",
            CallRule::A5 => "A5",
        }
    }
}

// The word of a stop.
pub(crate) fn word_of_stop(stop: Stop) -> &'static str
    ensures { result.now ≡ stop_word stop }
{
    match stop {
        Stop::Divide => "divide",
        Stop::Bounds => "bounds",
        Stop::Turns => "turns",
    }
}
