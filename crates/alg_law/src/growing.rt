ghost use Rattle.std.specs.Prelude.{◌≡◌, ◌<◌, ◌≤◌, ◌^◌, ◌+◌, ◌-◌, [], ◌∷◌, ◌++◌, length, take, All, IfOk, OnOk, OnErr, slice_get};
ghost use Rattle.alg_law.specs.Declarations.{declaration_of, declarations_of, hypotheses, IsDeclaredIn};
ghost use Rattle.alg_law.specs.Following.{MayFollow, AllMayFollow, IsWellFormed};
ghost use Rattle.alg_law.specs.Growing.{HasGrown};
ghost use Rattle.alg_law.specs.Having.{instances_give};
ghost use Rattle.alg_law.specs.Lawful.{IsLawful};
ghost use Rattle.alg_law.specs.Lending.{IsLent, IsGiven};

use crate::classes::Class;
use crate::copies::Copies;
use crate::declarations::Declared;
use crate::index::{cell, instance_of, is_hypothesis, make_room_for, note_for, put, put_place};
use crate::lending::{Given, Lent, declared_at, statement_at};
use alg_expr::{Arena, Memory, Sort};
use std::alloc::Global;
use std::marker::Model;

/// Declarations as they come, with indexes of their hypotheses and classes. Contracts see their list.
#[derive(Drop)]
pub struct Growing {
    declared: Copies,
    // the numbers of the hypotheses
    places: Vec<usize>,
    // how many hypotheses there are before each declaration, and in all
    counts: Vec<usize>,
    // for each declaration and each class the first declaration that gave it, or the greatest number
    first: Vec<u32>,
}

impl Model for Growing {
    ghost use Rattle.std.specs.Prelude.{List};
    ghost use Rattle.std.specs.Coded.{coded_list};
    ghost use Rattle.alg_law.specs.Declarations.{Declaration};
    ghost use Rattle.alg_law.specs.DeclarationCode.{declaration_code};

    ghost Value = { List Declaration };

    ghost coded = { coded_list declaration_code };

    ghost use Rattle.alg_law.specs.Indexing.{IsIndexed};

    ghost view = { λ s. s.declared };

    ghost invariant = { λ s. IsIndexed s.declared s.places.items s.counts.items s.first.items };
}

impl Growing {
    /// No declarations.
    pub fn new(alloc: Global) -> Result<Growing, Memory>
        ensures { IfOk result (λ g. g ≡ []) }
    {
        Ok(Growing {
            declared: Copies::new(alloc)?,
            places: Vec::new(alloc),
            counts: vec![in alloc; 0]?,
            first: Vec::new(alloc),
        })
    }

    /// Adds a declaration, and copies the statement of a hypothesis, which is of `from`.
    pub fn push(&mut self, from: &Arena, d: &Declared) -> Result<(), Memory>
        requires room { length self.old < 2 ^ 32 - 1 }
        requires here { IsDeclaredIn from.now d.now }
        requires fits { MayFollow self.old (declaration_of from.now d.now) }
        ensures ok { OnOk result (self.new ≡ self.old ++ declaration_of from.now d.now ∷ []) }
        ensures err { OnErr result (self.new ≡ self.old) }
    {
        let at = self.declared.len();
        let given = is_hypothesis(from, d);
        let instance = instance_of(from, d);
        make_room_for(&mut self.first, instance)?;
        self.places.reserve(1)?;
        self.counts.reserve(1)?;
        self.declared.push(from, d)?;
        // nothing fails from here on
        put_place(&mut self.places, given, at);
        put(&mut self.counts, self.places.len());
        note_for(&mut self.first, instance, at as u32);
        Ok(())
    }

    /// Adds declarations in order, and copies the statements of hypotheses, which are of `from`. Where memory is
    /// wanting, it adds the first of them alone.
    pub fn push_all(&mut self, from: &Arena, ds: &[Declared]) -> Result<(), Memory>
        requires room { length self.old + length ds.now < 2 ^ 32 }
        requires here { All (IsDeclaredIn from.now) ds.now }
        requires fit { AllMayFollow self.old (declarations_of from.now ds.now) }
        ensures ok { OnOk result (self.new ≡ self.old ++ declarations_of from.now ds.now) }
        ensures err { OnErr result (HasGrown self.old (declarations_of from.now ds.now) self.new) }
    {
        for d in ds {
            self.push(from, d)?;
        }
        Ok(())
    }

    /// How many declarations there are.
    ///
    /// Each may follow the ones before it. So a sort with CharZero has Semiring, one with IsStrictOrderedRing has
    /// Semiring and LinearOrder, none has both Group and Semiring, one with Semiring and AddGroup has Ring, and one with
    /// CommSemiring and AddGroup has CommRing.
    pub fn len(&self) -> usize
        ensures len { result ≡ length self.now }
        ensures room { result < 2 ^ 32 }
        ensures well_formed { IsWellFormed self.now }
        ensures lawful { IsLawful self.now }
    {
        self.declared.len()
    }

    /// Declaration k.
    pub fn declaration(&self, k: usize) -> Option<Lent<'_>>
        ensures { IsLent result (slice_get self.now k) }
    {
        let lent = self.declared.declarations();
        declared_at(lent.arena, lent.list, k)
    }

    /// How many hypotheses the first declarations have.
    pub fn count(&self, prefix: usize) -> usize
        requires { prefix ≤ length self.now }
        ensures { result ≡ length (hypotheses (take prefix self.now)) }
    {
        match self.counts.get(prefix) {
            Some(count) => *count,
            None => 0,
        }
    }

    /// The statement of hypothesis i, from 0.
    pub fn hypothesis(&self, i: usize) -> Option<Given<'_>>
        ensures { IsGiven result (slice_get (hypotheses self.now) i) }
    {
        let lent = self.declared.declarations();
        match number_at(&self.places, i) {
            Some(k) => statement_at(lent.arena, lent.list, k),
            None => None,
        }
    }

    /// Whether the first declarations give the sort the class.
    pub fn gives(&self, prefix: usize, sort: Sort, class: Class) -> bool
        requires { prefix ≤ length self.now }
        ensures { result ≡ instances_give (take prefix self.now) sort class }
    {
        match sort {
            Sort::Decl(k) => match self.first.get(cell(k, class)) {
                Some(at) => (*at as usize) < prefix,
                None => false,
            },
            Sort::Nat => false,
            Sort::Int => false,
            Sort::Rat => false,
        }
    }
}

fn number_at(numbers: &[usize], i: usize) -> Option<usize>
    ensures { result ≡ slice_get numbers.now i }
{
    numbers.get(i).copied()
}
