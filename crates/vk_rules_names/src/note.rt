// The first fault that was found so far.

ghost use Rattle.std.specs.Prelude.{◌≡◌};
ghost use Rattle.vk_rules_book.specs.Faults.{fault_at, fault_with, first_among, first_of, is_before, rank_of, when};

use vk_rules_book::Fault;
use vk_unit_rules::UnitRule;

/// The first fault that was found so far.
#[derive(Clone, Copy, PartialEq, Eq, Debug)]
pub struct Note {
    pub first: Option<Fault>,
}

/// A fault at a token, with the number of a directive.
pub fn fault_with(line: u32, token: u32, rule: UnitRule, directive: u32) -> Fault
    ensures { result ≡ fault_with line token rule directive }
{
    Fault {
        place: token,
        rule,
        line,
        directive,
    }
}

/// A fault at a token.
pub fn fault_at(line: u32, token: u32, rule: UnitRule) -> Fault
    ensures { result ≡ fault_at line token rule }
{
    fault_with(line, token, rule, 0)
}

// The number of a rule in the order of rules.
fn rank(rule: UnitRule) -> u32
    ensures { result ≡ rank_of rule }
{
    rule as u32
}

// Whether one fault is before another.
fn is_before(a: Fault, b: Fault) -> bool
    ensures { result ≡ is_before a b }
{
    a.place < b.place || (a.place == b.place && rank(a.rule) < rank(b.rule))
}

impl Note {
    // Notes a fault.
    fn offer(&mut self, fault: Fault)
        ensures { self.new.first ≡ first_of self.old.first fault }
    {
        match self.first {
            None => self.first = Some(fault),
            Some(old) => {
                if is_before(fault, old) {
                    self.first = Some(fault);
                }
            }
        }
    }

    /// Notes a fault where a rule is broken: the first of those so far is kept, and of two that are alike the older one.
    #[tactic(auto, unfolding(vk_rules_book::specs::Faults::first_among))]
    pub fn add(&mut self, broken: bool, fault: Fault)
        ensures { self.new.first ≡ first_among self.old.first (when broken fault) }
    {
        if broken {
            self.offer(fault);
        }
    }
}
