// The masks that a statement's code goes by.

ghost use Rattle.std.specs.Prelude.{◌≡◌, ◌+◌, ◌<◌};
ghost use Rattle.vk_construct_statements.specs.Follows.{first_branch, second_branch};
ghost use Rattle.vk_flat_statements.specs.Frames.{guards_of};

use vk_flat::Under;

/// The mask of the lanes that run, that of the loop, that of the lanes that have not returned, and the first free one.
#[derive(Clone, Copy, PartialEq, Eq, Debug)]
pub struct Guards {
    pub running: u16,
    pub looping: u16,
    pub staying: u16,
    pub free: u16,
}

impl Guards {
    /// Where expressions come.
    pub fn under(self) -> Under
        ensures mask { result.mask ≡ self.running }
        ensures free { result.free ≡ self.free }
    {
        Under {
            mask: self.running,
            free: self.free,
        }
    }

    /// Those of the first branch of an `if`.
    pub fn first_branch(self) -> Guards
        requires { self.free + 2 < 65536 }
        ensures { guards_of result ≡ first_branch (guards_of self) }
    {
        Guards {
            running: self.free,
            looping: self.looping,
            staying: self.staying,
            free: self.free + 2,
        }
    }

    /// Those of the second branch of an `if`.
    pub fn second_branch(self) -> Guards
        requires { self.free + 2 < 65536 }
        ensures { guards_of result ≡ second_branch (guards_of self) }
    {
        Guards {
            running: self.free + 1,
            looping: self.looping,
            staying: self.staying,
            free: self.free + 2,
        }
    }
}
