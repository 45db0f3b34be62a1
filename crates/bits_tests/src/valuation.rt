// The truth values that clauses give the literals of gates, under 64 assignments at once.
use bit_blast::blast;
use bv_term::{TermId, Terms};
use cnf_problem::{Gates, Problem, var};
use dg_base::{List, Lit};
use std::alloc::Global;
use std::test::Fail;

// Under which of the assignments a variable has a value, and under which it is true.
#[derive(Clone, Copy, Drop)]
struct Lanes {
    known: u64,
    ones: u64,
}

// Terms as words, and the clauses.
#[derive(Drop)]
pub struct Blasted {
    pub problem: Problem,
    pub words: List<[Lit; 32]>,
}

impl Blasted {
    pub fn new(alloc: Global, terms: &Terms) -> Result<Blasted, Fail> {
        let mut gates = Gates::new(alloc)?;
        let bits = blast(alloc, terms, &mut gates)?;
        let problem = gates.finish(List::new(alloc), List::new(alloc), List::new(alloc))?;
        Ok(Blasted {
            problem,
            words: bits.words,
        })
    }

    fn word(&self, n: usize) -> Result<[Lit; 32], Fail> {
        Ok(*self.words.as_slice().get(n).ok_or("no word")?)
    }

    // The values of a term where the first terms, inputs, have these values: a list for each input.
    pub fn values(&self, alloc: Global, inputs: &[&[u32]], term: TermId) -> Result<Vec<u32>, Fail> {
        let none = Lanes { known: 0, ones: 0 };
        let mut values = Vec::from_elem(alloc, none, self.problem.vars as usize + 1)?;
        let mut count = 0;
        for (n, input) in inputs.iter().enumerate() {
            let word = self.word(n)?;
            for (i, lit) in word.iter().enumerate() {
                set(values.as_mut_slice(), *lit, u64::MAX, column(input, i));
            }
            count = input.len();
        }
        for i in 0..self.problem.clauses.len() {
            propagate(values.as_mut_slice(), self.problem.clauses.get(i));
        }
        let word = self.word(term.0 as usize)?;
        let mut numbers = Vec::from_elem(alloc, 0, count)?;
        for (i, lit) in word.iter().enumerate() {
            let lanes = literal(values.as_slice(), *lit);
            for (lane, number) in numbers.as_mut_slice().iter_mut().enumerate() {
                if (lanes.known >> (lane % 64)) & 1 == 0 {
                    return Err(Fail::from("a literal has no value"));
                }
                if (lanes.ones >> (lane % 64)) & 1 == 1 {
                    *number |= 1 << (i % 32);
                }
            }
        }
        Ok(numbers)
    }
}

// One bit of each of these numbers.
fn column(numbers: &[u32], bit: usize) -> u64 {
    let mut ones = 0;
    for (lane, number) in numbers.iter().enumerate() {
        if (*number >> (bit % 32)) & 1 == 1 {
            ones |= 1 << (lane % 64);
        }
    }
    ones
}

fn literal(values: &[Lanes], lit: Lit) -> Lanes {
    match values.get(var(lit) as usize) {
        None => Lanes { known: 0, ones: 0 },
        Some(lanes) => {
            if lit.0 % 2 == 0 {
                *lanes
            } else {
                Lanes {
                    known: lanes.known,
                    ones: lanes.known & !lanes.ones,
                }
            }
        }
    }
}

// Gives the literal these values under some of the assignments.
fn set(values: &mut [Lanes], lit: Lit, lanes: u64, ones: u64) {
    if let Some(place) = values.get_mut(var(lit) as usize) {
        let flipped = if lit.0 % 2 == 0 { ones } else { !ones };
        place.ones = (place.ones & !lanes) | (flipped & lanes);
        place.known |= lanes;
    }
}

// Makes the literal true that alone of a clause has no value, where the others are false.
fn propagate(values: &mut [Lanes], clause: &[Lit]) {
    let mut open = 0;
    let mut several = 0;
    let mut done = 0;
    for lit in clause {
        let lanes = literal(values, *lit);
        several |= open & !lanes.known;
        open |= !lanes.known;
        done |= lanes.ones;
    }
    let unit = open & !several & !done;
    for lit in clause {
        let lanes = unit & !literal(values, *lit).known;
        set(values, *lit, lanes, u64::MAX);
    }
}
