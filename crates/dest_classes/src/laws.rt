//! What the atoms of prefixes are for. The law is a function that does nothing: its contract is the law.
ghost use Rattle.std.specs.Prelude.{List};
ghost use Rattle.net_base.specs.Blocks.{Block};
ghost use Rattle.dest_classes.specs.Atoms.{OneAtomIsOneClass, FirstIsOfTheClass};

/// No prefix of a list tells apart two addresses of one atom, nor an address from the first of its atom.
pub fn one_atom_one_class()
    ensures any_two { (blocks : List Block) → OneAtomIsOneClass blocks }
    ensures first { (blocks : List Block) → FirstIsOfTheClass blocks }
{}
