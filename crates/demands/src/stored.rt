//! The duties of the classes of a map.
ghost use Rattle.std.specs.Prelude.{◌≡◌, ◌<◌, ◌≤◌, ◌&&◌, ℕ, [], cond, true, length, map, slice_get, Some, IfOk, OnOk};
ghost use Rattle.std.specs.List.{list_any};
ghost use Rattle.dest_classes.specs.Classes.{class_count, atom_count};
ghost use Rattle.demands.specs.Duties.{PacketDuties, demand_covers, duties_of, with_chain, first_of_each};
ghost use Rattle.demands.specs.OfClass.{AreCovered, OfClass, HaveSameDuties, HasDutiesOfEachAddress, AreInOrder};
ghost use Rattle.demands.specs.Sets.{IsSetOf, AreAtomSets, duties_by};

use crate::chains::put_chain;
use crate::class_sets::{EntrySet, atom_set, atom_sets};
use crate::sets::{DemandSet, DemandSets};
use crate::{Chain, Demand, Demands, Duties, Duty};
use dest_classes::{Class, ClassMap};
use net_base::{Memory, SwitchId};
use std::alloc::Global;
use topology::Net;

impl Demand {
    /// Whether it speaks of the packets of the class that go to its first address.
    pub(crate) fn covers(&self, class: Class) -> bool
        ensures { result ≡ demand_covers self.now class.entry class.first }
    {
        self.cover.covers(class.entry, class.first)
    }

    /// Whether it asks the packets of the class to arrive.
    fn asks_to_arrive(&self, class: Class) -> bool
        ensures { result ≡ (demand_covers self.now class.entry class.first && self.now.deliver) }
    {
        self.covers(class) && self.deliver
    }
}

/// Whether a demand asks the packets of the class to arrive.
fn must_arrive(demands: &[Demand], class: Class) -> bool
    ensures { result ≡ list_any (λ d. demand_covers d class.entry class.first && d.deliver)
        demands.now }
{
    demands.iter().any(|demand| demand.asks_to_arrive(class))
}

/// Puts the chain of a demand of the class into an ascending list.
fn put_demand(chains: &mut Vec<Chain>, demand: &Demand, class: Class) -> Result<(), Memory>
    ensures { OnOk result (chains.new.items
        ≡ cond (demand_covers demand.now class.entry class.first)
        (with_chain (first_of_each demand.now.through) chains.old.items) chains.old.items) }
{
    if demand.covers(class) {
        let alloc = *chains.allocator();
        let chain = Chain::of_switches(alloc, &demand.through)?;
        put_chain(chains, chain)?;
    }
    Ok(())
}

/// The chains of the demands of the class, ascending and each once.
fn chains_of(alloc: Global, demands: &[Demand], class: Class) -> Result<Vec<Chain>, Memory>
    ensures { IfOk result (λ v. v.items ≡ (duties_of demands.now class.entry class.first).chains) }
{
    let mut chains = Vec::new(alloc);
    let mut left = demands.len();
    while left > 0 {
        left -= 1;
        put_demand(&mut chains, &demands[left], class)?;
    }
    Ok(chains)
}

/// The duties of the class.
fn duty_of(alloc: Global, demands: &Demands, class: Class) -> Result<Duty, Memory>
    ensures { IfOk result (λ d. d ≡ duties_of demands.now class.entry class.first) }
{
    let list = demands.list();
    let chains = chains_of(alloc, list, class)?;
    let arrive = must_arrive(list, class);
    Ok(Duty { chains, arrive })
}

/// The number of the row of the class, which has this set of demands. A row is made where none of the same demands is there.
fn put_row(
    alloc: Global,
    demands: &Demands,
    class: Class,
    set: DemandSet,
    sets: &mut DemandSets,
    rows: &mut Vec<Duty>,
) -> Result<usize, Memory>
    requires few { length demands.now ≤ 512 }
    requires set { IsSetOf demands.now (λ d. demand_covers d class.entry class.first) set.words }
    requires rows { rows.old.items ≡ map (duties_by demands.now) sets.old }
    ensures rows { OnOk result (rows.new.items ≡ map (duties_by demands.now) sets.new) }
    ensures kept { OnOk result ((i : ℕ) (d : PacketDuties) → slice_get rows.old.items i ≡ Some d
        → slice_get rows.new.items i ≡ Some d) }
    ensures row { IfOk result (λ i. slice_get rows.new.items i
        ≡ Some (duties_of demands.now class.entry class.first)) }
{
    let (number, is_new) = sets.number(set)?;
    if is_new {
        let row = duty_of(alloc, demands, class)?;
        rows.push(row)?;
    }
    Ok(number)
}

/// Puts the row of each class, and its number, in the order of the classes, where these are the sets of the atoms. The
/// classes of an entry follow one another.
fn put_rows(
    demands: &Demands,
    classes: &ClassMap,
    atoms: &[DemandSet],
    sets: &mut DemandSets,
    rows: &mut Vec<Duty>,
    numbers: &mut Vec<usize>,
) -> Result<(), Memory>
    requires some { 0 < class_count classes.now }
    requires count { length atoms.now ≡ atom_count classes.now }
    requires atoms { AreAtomSets demands.now classes.now atoms.now }
    requires sets { sets.old ≡ [] }
    requires rows { rows.old.items ≡ [] }
    requires numbers { numbers.old.items ≡ [] }
    ensures { OnOk result ((length numbers.new.items ≡ class_count classes.now)
        × AreInOrder demands.now classes.now rows.new.items numbers.new.items) }
{
    let alloc = *numbers.allocator();
    let list = demands.list();
    let mut begun = EntrySet::of(list, classes.class(0).entry);
    for n in 0..classes.count() {
        let class = classes.class(n);
        begun = begun.or_of(list, class.entry);
        let of_atom = atom_set(atoms, n);
        let set = begun.set.and(of_atom);
        let number = put_row(alloc, demands, class, set, sets, rows)?;
        numbers.push(number)?;
    }
    Ok(())
}

/// Rows of duties, and the number of the row of each class in the order of the classes.
fn all_duties(
    alloc: Global,
    demands: &Demands,
    classes: &ClassMap,
) -> Result<(Vec<Duty>, Vec<usize>), Memory>
    requires { AreCovered demands.now classes.now }
    ensures { IfOk result (λ v. (length v.1.items ≡ class_count classes.now)
        × AreInOrder demands.now classes.now v.0.items v.1.items) }
{
    let mut rows = Vec::new(alloc);
    let mut numbers = Vec::new(alloc);
    if classes.count() > 0 {
        let atoms = atom_sets(alloc, demands.list(), classes)?;
        let mut sets = DemandSets::make(alloc);
        let put = put_rows(demands, classes, &atoms, &mut sets, &mut rows, &mut numbers);
        drop(sets);
        put?;
    }
    Ok((rows, numbers))
}

/// Equal demands and an equal class map.
fn copy_both(demands: &Demands, classes: &ClassMap) -> Result<(Demands, ClassMap), Memory>
    ensures { IfOk result (λ c. (c.0 ≡ demands.now) × (c.1 ≡ classes.now)) }
{
    Ok((demands.copy()?, classes.copy()?))
}

impl Duties {
    /// The duties of the classes of a map. The prefix of each demand is one of the map's. The network isn't looked at. Which
    /// demands speak of a class is found from two sets, those of its entry and of its atom: that takes time in the product of
    /// entries and demands, by the atoms in the prefix of each demand, and the same for each class. Of classes that the same
    /// demands cover the chains are made once: that takes time by the demands and the square of the chains, and memory by their
    /// length.
    pub fn make(
        alloc: Global,
        net: &Net,
        demands: &Demands,
        classes: &ClassMap,
    ) -> Result<Duties, Memory>
        requires { AreCovered demands.now classes.now }
        ensures { IfOk result (λ d. d ≡ record { demands = demands.now; classes = classes.now }) }
    {
        let _ = net;
        let (rows, row_numbers) = all_duties(alloc, demands, classes)?;
        let (demands, classes) = copy_both(demands, classes)?;
        Ok(Duties {
            demands,
            classes,
            rows,
            row_numbers,
        })
    }

    /// The duties of the class.
    fn duty(&self, class: u32) -> &Duty
        requires { class < class_count self.now.classes }
        ensures duty { OfClass self.now class (λ duties. result.now ≡ duties) }
        ensures each_address { HasDutiesOfEachAddress self.now class }
    {
        &self.rows[self.row_numbers[class as usize]]
    }

    /// How many chains of waypoints the class has.
    pub fn chains(&self, class: u32) -> u32
        requires { class < class_count self.now.classes }
        ensures count { OfClass self.now class (λ duties. result ≡ length duties.chains) }
        ensures each_address { HasDutiesOfEachAddress self.now class }
    {
        self.duty(class).chains.len() as u32
    }

    /// Chain `i` of the class, from 0, in ascending order.
    pub fn chain(&self, class: u32, i: u32) -> &[SwitchId]
        requires class { class < class_count self.now.classes }
        requires within { OfClass self.now class (λ duties. i < length duties.chains) }
        ensures chain { OfClass self.now class
            (λ duties. slice_get duties.chains i ≡ Some result.now) }
        ensures each_address { HasDutiesOfEachAddress self.now class }
    {
        self.duty(class).chains[i as usize].list()
    }

    /// Whether the packets of the class must arrive.
    pub fn must_arrive(&self, class: u32) -> bool
        requires { class < class_count self.now.classes }
        ensures arrive { OfClass self.now class (λ duties. result ≡ duties.arrive) }
        ensures each_address { HasDutiesOfEachAddress self.now class }
    {
        self.duty(class).arrive
    }

    /// Whether both classes have one row of duties, as classes have that the same demands cover: then their duties are the same.
    /// `false` promises nothing of them. It takes no memory, and the same time for any duties.
    pub fn are_shared(&self, a: u32, b: u32) -> bool
        requires one { a < class_count self.now.classes }
        requires other { b < class_count self.now.classes }
        ensures { result ≡ true → HaveSameDuties self.now a b }
    {
        self.row_numbers[a as usize] == self.row_numbers[b as usize]
    }
}
