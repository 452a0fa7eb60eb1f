// Which variable is decided next: the open one with the greatest activity, which is a sum of gains
// that grow by a twentieth with each conflict, so that late conflicts count for most (Moskewicz and
// others, VSIDS in Chaff, 2001; growing gains in place of shrinking sums are MiniSat's, as
// `varBumpActivity`). A variable is decided to the value that it had last (Pipatsrisawat and
// Darwiche, 2007).
//
// Variables that were set leave the heap when they come first, and come back on the way back. So
// what comes first may be set; the search then takes the next one. Nothing rests on the order, so
// contracts say nothing of it but that it is safe; the search tests what it answers.
ghost use Rattle.std.specs.Prelude.{◌+◌, ◌*◌, ◌<◌, ◌^◌};

use dsv_base::NoMemory;
use dsv_cnf::Lit;
use std::alloc::Global;

/// Activities stay below this.
const LIMIT: u64 = 1 << 62;

/// How many bits all activities lose together, where one would reach the limit.
const SHIFT: u32 = 16;

/// Where a variable is that isn't in the heap.
const ABSENT: u32 = u32::MAX;

/// The numbers below this one.
fn numbers_to(alloc: Global, count: u32) -> Result<Vec<u32>, NoMemory> {
    let mut numbers = Vec::with_capacity(alloc, count as usize)?;
    for i in 0..count {
        numbers.push(i)?;
    }
    Ok(numbers)
}

/// Variables by activity, in a binary heap, and the values that they had last.
#[derive(Drop)]
pub(crate) struct Order {
    /// By variable: what it gained when it was met in conflicts.
    activities: Vec<u64>,
    /// What a variable gains now. It grows, so that late conflicts count for more.
    gain: u64,
    /// By variable: the value that it had last, at first false.
    phases: Vec<bool>,
    /// The first `len` of these are the heap: no variable comes before its parent's. Of two with
    /// one activity the lower comes first.
    heap: Vec<u32>,
    /// How many variables are in the heap.
    len: u32,
    /// By variable: where it is in the heap.
    places: Vec<u32>,
}

impl Order {
    /// All variables, none of them met yet.
    pub fn new(alloc: Global, vars: u32) -> Result<Order, NoMemory> {
        Ok(Order {
            activities: vec![in alloc; 0; vars as usize]?,
            gain: 1 << 10,
            phases: vec![in alloc; false; vars as usize]?,
            heap: numbers_to(alloc, vars)?,
            len: vars,
            places: numbers_to(alloc, vars)?,
        })
    }

    fn activity(&self, var: u32) -> u64 {
        match self.activities.get(var as usize) {
            Some(activity) => *activity,
            None => 0,
        }
    }

    fn place(&self, var: u32) -> u32 {
        match self.places.get(var as usize) {
            Some(place) => *place,
            None => ABSENT,
        }
    }

    fn variable(&self, place: u32) -> u32 {
        match self.heap.get(place as usize) {
            Some(var) => *var,
            None => ABSENT,
        }
    }

    fn put(&mut self, place: u32, var: u32) {
        if let Some(slot) = self.heap.get_mut(place as usize) {
            *slot = var;
        }
        if let Some(slot) = self.places.get_mut(var as usize) {
            *slot = place;
        }
    }

    /// Whether the first of two variables comes before the other.
    fn is_before(&self, one: u32, other: u32) -> bool {
        let first = self.activity(one);
        let second = self.activity(other);
        first > second || (first == second && one < other)
    }

    /// Moves a variable up from this place, past those that it comes before.
    fn rise(&mut self, start: u32) {
        let var = self.variable(start);
        let mut place = start;
        while place > 0 {
            let above = (place - 1) / 2;
            let parent = self.variable(above);
            if !self.is_before(var, parent) {
                break;
            }
            self.put(place, parent);
            place = above;
        }
        self.put(place, var);
    }

    /// Of the two places below this one, where the variable is that comes first.
    fn child(&self, place: u32) -> u32
        requires { 2 * place + 2 < 2 ^ 32 }
        ensures { place < result }
    {
        let left = 2 * place + 1;
        if left + 1 < self.len && self.is_before(self.variable(left + 1), self.variable(left)) {
            left + 1
        } else {
            left
        }
    }

    /// Moves the first variable down, to before those that come after it.
    fn sink(&mut self) {
        let var = self.variable(0);
        let len = self.len;
        let mut place = 0;
        while place < len / 2 {
            let below = self.child(place);
            let child = self.variable(below);
            if !self.is_before(child, var) {
                break;
            }
            self.put(place, child);
            place = below;
        }
        self.put(place, var);
    }

    /// How many variables are in the heap.
    pub fn len(&self) -> u32 {
        self.len
    }

    /// Takes out the variable that comes first.
    pub fn pop(&mut self) -> Option<u32> {
        if self.len == 0 {
            return None;
        }
        let first = self.variable(0);
        self.len -= 1;
        let last = self.variable(self.len);
        self.put(0, last);
        self.sink();
        if let Some(slot) = self.places.get_mut(first as usize) {
            *slot = ABSENT;
        }
        Some(first)
    }

    /// The value that a variable had last.
    pub fn phase(&self, var: u32) -> bool {
        match self.phases.get(var as usize) {
            Some(phase) => *phase,
            None => false,
        }
    }

    /// Keeps the value of a literal's variable, which is open from now on, and puts it back.
    pub fn put_back(&mut self, literal: Lit) {
        let var = literal.var();
        if let Some(slot) = self.phases.get_mut(var as usize) {
            *slot = literal.is_positive();
        }
        if self.place(var) == ABSENT && self.len < ABSENT {
            let place = self.len;
            self.len += 1;
            self.put(place, var);
            self.rise(place);
        }
    }

    /// Takes the last bits away from all activities.
    fn shift(&mut self) {
        for activity in &mut self.activities {
            *activity >>= SHIFT;
        }
        self.gain = (self.gain >> SHIFT).max(1);
    }

    /// A variable was met in a conflict.
    pub fn bump(&mut self, var: u32) {
        if self.activity(var) >= LIMIT.saturating_sub(self.gain) {
            self.shift();
        }
        let gain = self.gain;
        if let Some(activity) = self.activities.get_mut(var as usize) {
            *activity = activity.saturating_add(gain);
        }
        let place = self.place(var);
        if place < self.len {
            self.rise(place);
        }
    }

    /// What is met from now on gains a twentieth more.
    pub fn decay(&mut self) {
        self.gain = self.gain.saturating_add(self.gain / 20);
    }
}
