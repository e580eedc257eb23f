//! The positions of the chains of a class, and their before sets by their numbers.
ghost use Rattle.std.specs.Prelude.{◌≡◌, ◌↔◌, ◌<◌, ◌≤◌, length, drop, slice_get, Some, All, IsTrue};
ghost use Rattle.std.specs.Option.{option_copied};
ghost use Rattle.dest_classes.specs.Classes.{class_count};
ghost use Rattle.demands.specs.Duties.{duties_of};
ghost use Rattle.dest_classes.specs.Numbered.{IsNumbered};
ghost use Rattle.check_reasons.specs.Positions.{position_count, sets_of, set_before};

use demands::Duties;
use dest_classes::NumberedClass;
use waypoint_evidence::Before;

/// Whether there are so many positions in the chains of a class.
pub fn has_positions(duties: &Duties, numbered: NumberedClass, count: usize) -> bool
    requires number { numbered.number < class_count duties.now.classes }
    requires class { IsNumbered duties.now.classes numbered }
    ensures { IsTrue result
        ↔ (count
        ≡ position_count
        (duties_of duties.now.demands numbered.class.entry numbered.class.first).chains) }
{
    let number = numbered.number;
    let mut left = count;
    for i in 0..duties.chains(number) {
        let chain = duties.chain(number, i);
        if chain.len() > left {
            return false;
        }
        left -= chain.len();
    }
    left == 0
}

/// The before set at a place of a list of their numbers.
pub fn set_at<'a>(befores: &'a [Before], indices: &[u64], place: usize) -> &'a Before
    requires place { place < length indices.now }
    requires indices { All (λ i. i < length befores.now) indices.now }
    ensures { slice_get (sets_of befores.now indices.now) place ≡ Some result.now }
{
    &befores[indices[place] as usize]
}

/// The before set at the place before, if one is before it.
pub fn earlier_set<'a>(befores: &'a [Before], indices: &[u64], place: usize) -> Option<&'a Before>
    requires place { place < length indices.now }
    requires indices { All (λ i. i < length befores.now) indices.now }
    ensures { option_copied result ≡ set_before (sets_of befores.now indices.now) place }
{
    if place == 0 {
        None
    } else {
        Some(set_at(befores, indices, place - 1))
    }
}

/// The numbers from a place on.
pub fn from_place(indices: &[u64], place: usize) -> &[u64]
    requires { place ≤ length indices.now }
    ensures { result.now ≡ drop place indices.now }
{
    &indices[place..]
}
