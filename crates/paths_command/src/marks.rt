//! What is said of each class.
ghost use Rattle.std.specs.Prelude.{◌≡◌, ◌+◌, ◌<◌, cond};
ghost use Rattle.command_base.specs.Judgements.{most_classes};
ghost use Rattle.paths_command.specs.Lines.{is_good, is_free, is_break};

use config_check::How;
use dest_classes::Class;
use net_base::Place;
use path_walk::PlacesEnd;

/// The verdict on the path of a class, judged alone.
#[derive(Clone, Copy)]
pub enum Mark {
    /// It is good, and some demand covers the class.
    Good,
    /// It is good, and no demand covers the class.
    Free,
    /// It isn't good.
    Breaks(How),
}

/// A class, the places of its path, how they end, and its mark.
#[derive(Clone, Copy)]
pub struct Row<'a> {
    pub class: Class,
    pub places: &'a [Place],
    pub end: PlacesEnd,
    pub mark: Mark,
}

/// How many lines have each kind of mark.
#[derive(Clone, Copy)]
pub struct Counts {
    pub good: u32,
    pub free: u32,
    pub breaks: u32,
}

impl Counts {
    /// No lines.
    pub fn none() -> Counts
        ensures { result ≡ record { good = 0; free = 0; breaks = 0 } }
    {
        Counts {
            good: 0,
            free: 0,
            breaks: 0,
        }
    }

    /// Counts one more line with a mark.
    pub fn add(&mut self, mark: Mark)
        requires { self.old.good + self.old.free + self.old.breaks < most_classes }
        ensures good { self.new.good ≡ self.old.good + cond (is_good mark) 1 0 }
        ensures free { self.new.free ≡ self.old.free + cond (is_free mark) 1 0 }
        ensures breaks { self.new.breaks ≡ self.old.breaks + cond (is_break mark) 1 0 }
    {
        match mark {
            Mark::Good => self.good += 1,
            Mark::Free => self.free += 1,
            Mark::Breaks(_) => self.breaks += 1,
        }
    }
}
