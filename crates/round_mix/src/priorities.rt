//! Places in lists of marked rules in descending priority, in time log n.
ghost use Rattle.std.specs.Prelude.{◌≡◌, ◌<◌, ◌≤◌, drop, insert, length, take};
ghost use Rattle.std.specs.List.{AllByRecursion};
ghost use Rattle.round_mix.specs.Prepared.{IsFalling};
ghost use Rattle.round_mix.specs.Tried.{of_priority, put_in};
ghost use Rattle.round_mix.specs.declared.MarkedRule.{MarkedRule as MarkedRuleOf};

use crate::MarkedRule;

/// The first place of the marked rules of a priority, in descending priority: behind all of a greater one.
pub fn first_of(marks: &[MarkedRule], priority: u16) -> usize
    requires { IsFalling marks.now }
    ensures within { result ≤ length marks.now }
    ensures before { AllByRecursion (λ m. priority < m.rule.key.priority) (take result marks.now) }
    ensures behind { AllByRecursion (λ m. m.rule.key.priority ≤ priority) (drop result marks.now) }
{
    marks.partition_point(|marked| marked.rule.key.priority > priority)
}

/// The place behind the marked rules of at least a priority, in descending priority.
pub fn end_of(marks: &[MarkedRule], priority: u16) -> usize
    requires { IsFalling marks.now }
    ensures within { result ≤ length marks.now }
    ensures before { AllByRecursion (λ m. priority ≤ m.rule.key.priority) (take result marks.now) }
    ensures behind { AllByRecursion (λ m. m.rule.key.priority < priority) (drop result marks.now) }
    ensures place { (m : MarkedRuleOf) → m.rule.key.priority ≡ priority
        → insert marks.now result m ≡ put_in m marks.now }
{
    marks.partition_point(|marked| marked.rule.key.priority >= priority)
}

/// The marked rules of a priority, among those in descending priority.
pub fn of_priority(marks: &[MarkedRule], priority: u16) -> &[MarkedRule]
    requires { IsFalling marks.now }
    ensures { result.now ≡ of_priority priority marks.now }
{
    &marks[first_of(marks, priority)..end_of(marks, priority)]
}
