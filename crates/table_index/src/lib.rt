//! Which rules of a table may cover a packet to an address: those whose prefix holds it.
#![tactic(auto)]

ghost use Rattle.std.specs.Prelude.{ℕ, ◌≡◌, ◌+◌, ◌^◌, ◌≤◌, ◌<◌, ◌∷◌, [], ◌++◌, List, length, IfOk};
ghost use Rattle.net_base.specs.Blocks.{Block};
ghost use Rattle.table_index.specs.Candidates.{AreCandidates, prefixes_of};

use flow_rules::Rule;
use net_base::{Memory, Prefix};
use std::alloc::Global;
use std::marker::Model;

/// The positions of the rules whose prefix holds an address.
#[derive(Drop)]
pub struct Index {
    positions: Vec<u32>,
}

impl Model for Index {
    ghost use Rattle.std.specs.Prelude.{vec_capacity};
    ghost use Rattle.table_index.specs.Candidates.{IndexState};

    ghost Value = { IndexState };

    ghost view = { λ index. record { candidates = index.positions.items; room = vec_capacity index.positions } };
}

impl Index {
    /// No candidates, with room for those of so many rules.
    pub fn with_room(alloc: Global, rules: usize) -> Result<Index, Memory>
        ensures { IfOk result (λ index. index ≡ record { candidates = []; room = rules }) }
    {
        Ok(Index {
            positions: Vec::with_capacity(alloc, rules)?,
        })
    }

    /// The positions, ascending, of the rules whose prefix holds the address.
    pub fn candidates(&self) -> &[u32]
        ensures { result.now ≡ self.now.candidates }
    {
        &self.positions
    }

    /// Forgets the candidates.
    pub fn clear(&mut self)
        ensures none { (dst : ℕ) → AreCandidates [] dst self.new.candidates }
        ensures empty { length self.new.candidates ≡ 0 }
        ensures room { self.old.room ≤ self.new.room }
    {
        self.positions.clear();
    }

    /// Goes on to the prefix of the next rule, whose position it is told.
    pub fn next(&mut self, position: u32, prefix: &Prefix, dst: u32)
        requires { length self.old.candidates < self.old.room }
        ensures next { (blocks : List Block) → length blocks ≡ position
            → AreCandidates blocks dst self.old.candidates
            → AreCandidates (blocks ++ prefix.now ∷ []) dst self.new.candidates }
        ensures few { length self.new.candidates ≤ length self.old.candidates + 1 }
        ensures room { self.old.room ≤ self.new.room }
    {
        if prefix.has(dst) {
            self.positions.push_reserved(position);
        }
    }

    /// Finds the rules whose prefix holds the address. It looks at each rule once, and takes no memory.
    pub fn load(&mut self, rules: &[Rule], dst: u32)
        requires few { length rules.now < 2 ^ 32 }
        requires room { length rules.now ≤ self.old.room }
        ensures exact { AreCandidates (prefixes_of rules.now) dst self.new.candidates }
        ensures room { self.old.room ≤ self.new.room }
    {
        self.clear();
        for position in 0..rules.len() {
            self.next(position as u32, &rules[position].key.pattern.dst, dst);
        }
    }
}
