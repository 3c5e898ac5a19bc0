ghost use Rattle.std.specs.Prelude.{◌≡◌, ◌++◌, ◌-◌, length, [], ◌∷◌, take, OnOk, OnErr};
ghost use Rattle.alg_law.specs.Classes.{all_of};
ghost use Rattle.alg_law.specs.Firsts.{first_at};
ghost use Rattle.alg_law.specs.Having.{instances_give};
ghost use Rattle.alg_names.specs.Granting.{instances_of, raised, forgotten};

use alg_expr::{Memory, Sort};
use alg_law::Class;
use alg_law::index::{cell, make_room_for, note_for};
use std::alloc::Global;
use std::marker::Model;

/// A class that a type variable was given, by the number of its declaration.
#[derive(Clone, Copy, Debug)]
pub struct Granted {
    pub sort: u32,
    pub class: Class,
}

/// The classes that type variables were given, in order. Contracts see the list. Whether one was given is one look.
#[derive(Drop)]
pub struct Grants {
    items: Vec<Granted>,
    // for each type variable and each class the first item that gave it, or the greatest number
    first: Vec<u32>,
}

impl Model for Grants {
    ghost use Rattle.std.specs.Prelude.{List};
    ghost use Rattle.alg_names.specs.declared.grants.Granted.{Granted};

    ghost Value = { List Granted };

    ghost use Rattle.alg_names.specs.Granting.{IsTabled};

    ghost view = { λ g. g.items.items };

    ghost invariant = { λ g. IsTabled g.items.items g.first.items };
}

impl Grants {
    /// No classes.
    pub fn new(alloc: Global) -> Grants
        ensures { result ≡ [] }
    {
        Grants {
            items: Vec::new(alloc),
            first: Vec::new(alloc),
        }
    }

    pub fn len(&self) -> usize
        ensures { result ≡ length self.now }
    {
        self.items.len()
    }

    /// Whether the sort is a type variable that was given the class, or one that implies it.
    pub fn gives(&self, sort: Sort, class: Class) -> bool
        ensures { result ≡ instances_give (instances_of self.now) sort class }
    {
        match sort {
            Sort::Decl(k) => (first_of(&self.first, k, class) as usize) < self.items.len(),
            Sort::Nat => false,
            Sort::Int => false,
            Sort::Rat => false,
        }
    }

    /// Gives a class. `Memory` comes also where 2^32 - 1 were given.
    pub fn push(&mut self, granted: Granted) -> Result<(), Memory>
        ensures ok { OnOk result (self.new ≡ self.old ++ granted ∷ []) }
        ensures err { OnErr result (self.new ≡ self.old) }
    {
        let at = self.items.len();
        if at >= u32::MAX as usize {
            return Err(Memory);
        }
        let instance = Some((granted.sort, granted.class));
        make_room_for(&mut self.first, instance)?;
        self.items.push(granted)?;
        note_for(&mut self.first, instance, at as u32);
        Ok(())
    }

    // takes back what was given last
    fn take_back(&mut self)
        ensures { self.new ≡ take (length self.old - 1) self.old }
    {
        if let Some(last) = self.items.pop() {
            let at = self.items.len();
            forget_item(&mut self.first, last, at as u32);
        }
    }

    /// Takes back what was given after so many.
    pub fn leave(&mut self, len: usize)
        ensures { self.new ≡ take len self.old }
    {
        'back: while self.items.len() > len {
            self.take_back();
        }
    }
}

// the first item that gave the class to the type variable `sort`, or the greatest number
fn first_of(first: &[u32], sort: u32, class: Class) -> u32
    ensures { result ≡ first_at first.now sort class }
{
    match first.get(cell(sort, class)) {
        Some(at) => *at,
        None => u32::MAX,
    }
}

fn forget_item(first: &mut Vec<u32>, item: Granted, at: u32)
    ensures { first.new.items ≡ forgotten first.old.items item.sort (all_of item.class) at }
{
    forget(first, item.sort, item.class, at);
}

// item `at`, the last, didn't give the class, nor what follows from it, to the type variable `sort`
fn forget(first: &mut [u32], sort: u32, class: Class, at: u32)
    ensures { first.new ≡ forgotten first.old sort (all_of class) at }
{
    for c in class.all() {
        let i = cell(sort, *c);
        raise(first, i, at);
    }
}

fn raise(first: &mut [u32], i: usize, at: u32)
    ensures { first.new ≡ raised first.old i at }
{
    if i < first.len() && first[i] >= at {
        first[i] = u32::MAX;
    }
}
