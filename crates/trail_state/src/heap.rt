ghost use Rattle.std.specs.Prelude.{◌≡◌, ◌≤◌, ◌<◌, ◌+◌, ◌*◌, ◌^◌, ℕ, length, slice_index, slice_get, Contains, IfOk, MatchOption, vec_capacity, vec_len};
ghost use Rattle.trail_state.specs.Heaps.{IsWithout, IsReordered, IsFull, IsPlaced, nowhere};

use dg_base::OutOfMemory;
use std::alloc::Global;
use std::marker::Model;

// The place of a variable that is not in the heap.
const NOWHERE: u32 = u32::MAX;

// What a bump adds at first.
const FIRST_STEP: u64 = 1 << 10;

// An activity from which on all are made smaller.
const LARGE: u64 = 1 << 60;

// By how many bits they are.
const SHRINK: u32 = 40;

/// A set of variables, the most active on top: a binary heap with the place of each variable (Een
/// and Sorensson 2003). An activity is a sum of steps, and steps grow, so that old bumps fade
/// (Moskewicz and others 2001).
#[derive(Debug, Drop)]
pub struct VarHeap {
    vars: u32,
    items: Vec<u32>,
    places: Vec<u32>,
    activity: Vec<u64>,
    step: u64,
}

impl Model for VarHeap {
    ghost use Rattle.std.specs.Prelude.{◌≡◌, ◌≤◌, ◌+◌, length, vec_capacity};
    ghost use Rattle.trail_state.specs.Heaps.{HeapView, IsPlaced};

    ghost Value = { HeapView };

    ghost view = { λ h. record { vars = h.vars; members = h.items.items } };

    ghost invariant = { λ h. IsPlaced h.items.items h.places.items × (length h.places.items ≡ h.vars + 1) × (h.vars ≤ vec_capacity h.items) × (length h.activity.items ≡ length h.places.items) };
}

// Changes the places of two items.
fn swap_items(items: &mut [u32], places: &mut [u32], i: usize, j: usize)
    requires placed { IsPlaced items.old places.old }
    requires first { i < length items.old }
    requires second { j < length items.old }
    ensures placed { IsPlaced items.new places.new }
    ensures items { IsReordered items.old items.new }
    ensures moved { slice_index items.new j ≡ slice_index items.old i }
    ensures long { length places.new ≡ length places.old }
{
    let (a, b) = (items[i], items[j]);
    items[i] = b;
    items[j] = a;
    places[b as usize] = i as u32;
    places[a as usize] = j as u32;
}

// Moves an item up while it is more active than the one above it.
fn sift_up(items: &mut [u32], places: &mut [u32], activity: &[u64], start: usize)
    requires placed { IsPlaced items.old places.old }
    requires within { start < length items.old }
    requires active { length activity.now ≡ length places.old }
    ensures placed { IsPlaced items.new places.new }
    ensures items { IsReordered items.old items.new }
    ensures long { length places.new ≡ length places.old }
{
    let mut i = start;
    while i > 0 {
        let above = (i - 1) / 2;
        if activity[items[i] as usize] <= activity[items[above] as usize] {
            return;
        }
        swap_items(items, places, i, above);
        i = above;
    }
}

// The more active of the items below one, of which the first is at `left`.
fn child_from(items: &[u32], activity: &[u64], left: usize) -> usize
    requires few { length items.now < 2 ^ 32 }
    requires within { left < length items.now }
    requires range { (i : ℕ) → i < length items.now → slice_index items.now i < length activity.now }
    ensures from { left ≤ result }
    ensures inside { result < length items.now }
{
    let right = left + 1;
    if right < items.len() && activity[items[right] as usize] > activity[items[left] as usize] {
        right
    } else {
        left
    }
}

// Moves an item down while one below it is more active.
fn sift_down(items: &mut [u32], places: &mut [u32], activity: &[u64], start: usize)
    requires placed { IsPlaced items.old places.old }
    requires within { start < length items.old }
    requires active { length activity.now ≡ length places.old }
    ensures placed { IsPlaced items.new places.new }
    ensures items { IsReordered items.old items.new }
    ensures long { length places.new ≡ length places.old }
{
    let mut i = start;
    while 2 * i + 1 < items.len() {
        let child = child_from(items, activity, 2 * i + 1);
        if activity[items[child] as usize] <= activity[items[i] as usize] {
            return;
        }
        swap_items(items, places, i, child);
        i = child;
    }
}

// Moves an item to where its activity belongs.
fn sift(items: &mut [u32], places: &mut [u32], activity: &[u64], start: usize)
    requires placed { IsPlaced items.old places.old }
    requires within { start < length items.old }
    requires active { length activity.now ≡ length places.old }
    ensures placed { IsPlaced items.new places.new }
    ensures items { IsReordered items.old items.new }
    ensures long { length places.new ≡ length places.old }
{
    sift_up(items, places, activity, start);
    sift_down(items, places, activity, start);
}

impl VarHeap {
    /// All variables from 1 to `vars`.
    pub fn new(alloc: Global, vars: u32) -> Result<VarHeap, OutOfMemory>
        requires { vars ≤ 2147483647 }
        ensures vars { IfOk result (λ h. h.vars ≡ vars) }
        ensures members { IfOk result (λ h. IsFull vars h.members) }
    {
        let mut items = Vec::with_capacity(alloc, vars as usize)?;
        let mut places = Vec::with_capacity(alloc, vars as usize + 1)?;
        places.push_reserved(NOWHERE);
        for i in 0..vars {
            items.push_reserved(i + 1);
            places.push_reserved(i);
        }
        Ok(VarHeap {
            vars,
            items,
            places,
            activity: Vec::from_elem(alloc, 0, vars as usize + 1)?,
            step: FIRST_STEP,
        })
    }

    /// The greatest variable that may be in the set.
    pub fn vars(&self) -> u32
        ensures vars { result ≡ self.now.vars }
        ensures small { result ≤ 2147483647 }
    {
        self.vars
    }

    /// Some variable of the set.
    pub fn top(&self) -> Option<u32>
        ensures { MatchOption result (length self.now.members ≡ 0) (λ v. Contains self.now.members v) }
    {
        self.items.first().copied()
    }

    // Moves the item at this place to where its activity belongs.
    fn settle(&mut self, place: usize)
        ensures vars { self.new.vars ≡ self.old.vars }
        ensures members { IsReordered self.old.members self.new.members }
    {
        if place < self.items.len() {
            sift(&mut self.items, &mut self.places, &self.activity, place);
        }
    }

    /// Makes a variable more active.
    pub fn bump(&mut self, var: u32)
        requires { var ≤ self.old.vars }
        ensures vars { self.new.vars ≡ self.old.vars }
        ensures members { IsReordered self.old.members self.new.members }
    {
        let raised = self.activity[var as usize].saturating_add(self.step);
        self.activity[var as usize] = raised;
        let place = self.places[var as usize] as usize;
        self.settle(place);
        if raised >= LARGE {
            self.shrink();
        }
    }

    // Makes all activities smaller, in proportion.
    fn shrink(&mut self)
        ensures { self.new ≡ self.old }
    {
        for activity in self.activity.iter_mut() {
            *activity >>= SHRINK;
        }
        self.step = (self.step >> SHRINK).max(FIRST_STEP);
    }

    /// Lets old bumps count for less from now on.
    pub fn fade(&mut self)
        ensures { self.new ≡ self.old }
    {
        self.step = self.step.saturating_add(self.step / 16);
    }

    /// Takes a variable out.
    pub fn remove(&mut self, var: u32)
        requires { Contains self.old.members var }
        ensures vars { self.new.vars ≡ self.old.vars }
        ensures members { IsWithout var self.old.members self.new.members }
    {
        let place = self.take_out(var);
        self.settle(place);
    }

    /// Puts a variable in.
    pub fn insert(&mut self, var: u32)
        requires low { 1 ≤ var }
        requires high { var ≤ self.old.vars }
        requires free { ¬ Contains self.old.members var }
        requires room { length self.old.members < self.old.vars }
        ensures vars { self.new.vars ≡ self.old.vars }
        ensures members { IsWithout var self.new.members self.old.members }
    {
        let place = self.put_last(var);
        self.settle(place);
    }

    // Puts the last item where this one was, and tells where that is.
    fn take_out(&mut self, var: u32) -> usize
        requires { Contains self.old.members var }
        ensures vars { self.new.vars ≡ self.old.vars }
        ensures members { IsWithout var self.old.members self.new.members }
    {
        let place = self.places[var as usize] as usize;
        let last = self.items.len() - 1;
        swap_items(&mut self.items, &mut self.places, place, last);
        self.items.truncate(last);
        self.places[var as usize] = NOWHERE;
        place
    }

    // Puts an item behind the others, and tells where that is.
    fn put_last(&mut self, var: u32) -> usize
        requires low { 1 ≤ var }
        requires high { var ≤ self.old.vars }
        requires free { ¬ Contains self.old.members var }
        requires room { length self.old.members < self.old.vars }
        ensures vars { self.new.vars ≡ self.old.vars }
        ensures members { IsWithout var self.new.members self.old.members }
    {
        let place = self.items.len();
        self.places[var as usize] = place as u32;
        self.items.push_reserved(var);
        place
    }
}
