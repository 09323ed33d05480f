// The rules by which a text is refused as a name.

ghost use Rattle.std.specs.Prelude.{◌≡◌};
ghost use Rattle.vk_names.specs.Labels.{label_of_name};

/// A rule of the names of vector variants.
#[derive(Clone, Copy, PartialEq, Eq, Debug)]
pub enum NameRule {
    /// A name begins with `_ZGV`.
    N1,
    /// The letter of an instruction set follows.
    N2,
    /// A mask letter follows.
    N3,
    /// The length is `x`, or a number from 1 to 65535 without a leading 0.
    N4,
    /// After the length stand parameters and then an underscore.
    N5,
    /// A step or a position has digits without a leading 0, and is in its range.
    N6,
    /// A position names a uniform parameter.
    N7,
    /// An alignment is a power of two from 1 to 65536 without a leading 0.
    N8,
    /// The text does not end before the underscore that ends the parameters.
    N9,
    /// The scalar name has 1 to 1024 bytes and does not begin with a digit.
    N10,
    /// The length `x` stands only after `sM`.
    N11,
    /// There are at most 64 parameters.
    N12,
    /// Nothing follows the name on its line. No reader of one name gives this rule.
    N13,
}

impl NameRule {
    /// The label of the rule.
    pub fn label(self) -> &'static str
        ensures { result.now ≡ label_of_name self }
    {
        match self {
            NameRule::N1 => "N1",
            NameRule::N2 => "N2",
            NameRule::N3 => "N3",
            NameRule::N4 => "N4",
            NameRule::N5 => "N5",
            NameRule::N6 => "N6",
            NameRule::N7 => "N7",
            NameRule::N8 => "N8",
            NameRule::N9 => "N9",
            NameRule::N10 => "N10",
            NameRule::N11 => "N11",
            NameRule::N12 => "N12",
            NameRule::N13 => "N13",
        }
    }
}

/// Where and by which rule bytes are refused.
#[derive(Clone, Copy, PartialEq, Eq, Debug)]
pub struct NameFault {
    /// The byte at which the rule is broken, from 0.
    pub at: u32,
    pub rule: NameRule,
}
