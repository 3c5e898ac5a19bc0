ghost use Rattle.std.specs.Prelude.{◌≡◌, ◌++◌, ◌∷◌, [], map, true, All, IfOk, OnOk};
ghost use Rattle.alg_proof.specs.LemmaRows.{lemma_row_of, rows_of};
ghost use Rattle.alg_lemma.specs.Proving.{may_join, all_may_join, groups_may_join};
ghost use Rattle.alg_proof.specs.Following.{IsAdmissible};
ghost use Rattle.alg_lemma.specs.Lemmas.{lemma_groups, lemma_table};
ghost use Rattle.alg_lemma.specs.Library.{HoldsLibrary};

use crate::combinations::combination_lemmas;
use crate::commuting::commuting_lemmas;
use crate::comparisons::comparison_lemmas;
use crate::exponents::exponent_lemmas;
use crate::factors::factor_lemmas;
use crate::first_rows::first_lemmas;
use crate::fraction_powers::fraction_power_lemmas;
use crate::fraction_products::fraction_product_lemmas;
use crate::fractions::fraction_lemmas;
use crate::inequations::inequation_lemmas;
use crate::integer_powers::integer_power_lemmas;
use crate::inverses::inverse_lemmas;
use crate::joined_inequalities::joined_inequality_lemmas;
use crate::merges::merging_lemmas;
use crate::multiple_sums::multiple_sum_lemmas;
use crate::multiples::multiple_lemmas;
use crate::negations::negation_lemmas;
use crate::node_pairs::node_pair_lemmas;
use crate::node_products::node_product_lemmas;
use crate::node_sums::node_sum_lemmas;
use crate::positive_parts::positivity_lemmas;
use crate::quotients::quotient_lemmas;
use crate::rearrangements::rearranging_lemmas;
use crate::rests::rest_lemmas;
use crate::signs::sign_lemmas;
use crate::word_rows::word_lemmas;
use crate::written_terms::written_term_lemmas;
use alg_expr::Memory;
use alg_proof::{LemmaRow, Lemmas};
use std::alloc::Global;

/// The lemmas, in groups. Rows are only ever added at the end.
pub fn lemmas() -> [&'static [LemmaRow]; 27]
    ensures rows { map (λ g. map lemma_row_of g.now) result ≡ lemma_groups }
    ensures proved { groups_may_join [] (map (λ g. g.now) result) ≡ true }
{
    [
        first_lemmas(),
        rearranging_lemmas(),
        negation_lemmas(),
        sign_lemmas(),
        inverse_lemmas(),
        quotient_lemmas(),
        fraction_lemmas(),
        fraction_product_lemmas(),
        fraction_power_lemmas(),
        inequation_lemmas(),
        comparison_lemmas(),
        node_sum_lemmas(),
        node_pair_lemmas(),
        node_product_lemmas(),
        merging_lemmas(),
        written_term_lemmas(),
        combination_lemmas(),
        multiple_lemmas(),
        multiple_sum_lemmas(),
        word_lemmas(),
        positivity_lemmas(),
        factor_lemmas(),
        commuting_lemmas(),
        joined_inequality_lemmas(),
        rest_lemmas(),
        exponent_lemmas(),
        integer_power_lemmas(),
    ]
}

/// The table of all lemmas, each of which follows from the laws.
pub fn library(alloc: Global) -> Result<Lemmas, Memory>
    ensures table { IfOk result (λ t. rows_of t ≡ lemma_table) }
    ensures holds { IfOk result (λ t. HoldsLibrary (rows_of t)) }
    ensures admissible { IfOk result (λ t. All IsAdmissible (rows_of t)) }
{
    let mut table = Lemmas::new(alloc)?;
    for group in lemmas() {
        add_all(&mut table, group)?;
    }
    // its clause says that each lemma follows from the laws
    let _known = table.len();
    Ok(table)
}

/// Adds lemmas, each of which is proved by its lines from the laws and the lemmas before it.
fn add_all(table: &mut Lemmas, lemmas: &'static [LemmaRow]) -> Result<(), Memory>
    requires { all_may_join (rows_of table.old) lemmas.now ≡ true }
    ensures { OnOk result (rows_of table.new ≡ rows_of table.old ++ map lemma_row_of lemmas.now) }
{
    for lemma in lemmas {
        add(table, lemma)?;
    }
    Ok(())
}

/// Adds a lemma that its lines prove from the laws and the lemmas that are there.
fn add(table: &mut Lemmas, lemma: &'static LemmaRow) -> Result<(), Memory>
    requires { may_join (rows_of table.old) lemma.now ≡ true }
    ensures { OnOk result (rows_of table.new ≡ rows_of table.old ++ lemma_row_of lemma.now ∷ []) }
{
    // its clause says that the lemmas before this one follow from the laws
    let _known = table.len();
    table.push(lemma)
}
