// How statements end.

ghost use Rattle.std.specs.Prelude.{◌≡◌};
ghost use Rattle.vk_reading.specs.Held.{IsHeld};
ghost use Rattle.vk_reading_statements.specs.Flows.{is_jump, leaves_loop, left_by};

use vk_reading::Held;

/// How a statement ends (C17 6.8): the next one follows, or a jump out of a loop, to the end of a loop's body, or back to the
/// caller.
#[derive(Clone, Copy, PartialEq, Eq, Debug)]
pub enum Flow {
    Fell,
    Broke,
    Continued,
    Returned(Held),
}

impl Flow {
    /// Whether the statements behind it are left out.
    pub fn is_jump(self) -> bool
        ensures { result ≡ is_jump self }
    {
        match self {
            Flow::Fell => false,
            Flow::Broke | Flow::Continued => true,
            Flow::Returned(_) => true,
        }
    }

    /// Whether a loop ends that has this body.
    pub fn leaves_loop(self) -> bool
        ensures { result ≡ leaves_loop self }
    {
        match self {
            Flow::Fell | Flow::Continued => false,
            Flow::Broke => true,
            Flow::Returned(_) => true,
        }
    }

    /// How a loop ends that its body left so.
    pub fn behind_loop(self) -> Flow
        ensures { result ≡ left_by self }
    {
        match self {
            Flow::Fell | Flow::Broke | Flow::Continued => Flow::Fell,
            Flow::Returned(held) => Flow::Returned(held),
        }
    }
}
