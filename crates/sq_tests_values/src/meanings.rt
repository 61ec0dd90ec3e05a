//! What expressions and conditions mean, computed by the definitions, as the contracts of functions that do nothing.
//!
//! `specs/Meanings.antt` writes them out.
ghost use Rattle.sq_tests_values.specs.Meanings as m;

// Comparisons of numbers, of texts, and with NULL.
#[tactic(auto, using(crate::proofs::Computed::numbers_compare_by_size, crate::proofs::Computed::texts_compare_by_their_bytes, crate::proofs::Computed::null_compares_with_nothing))]
pub fn comparisons()
    ensures numbers { m.numbers_compare_by_size }
    ensures texts { m.texts_compare_by_their_bytes }
    ensures nulls { m.null_compares_with_nothing }
{}

// Conditions made of others.
#[tactic(auto, using(crate::proofs::Computed::conjunctions_are_the_least, crate::proofs::Computed::disjunctions_are_the_greatest, crate::proofs::Computed::negations_keep_unknown))]
pub fn connectives()
    ensures conjunctions { m.conjunctions_are_the_least }
    ensures disjunctions { m.disjunctions_are_the_greatest }
    ensures negations { m.negations_keep_unknown }
{}

// Sums and products, and how large they can become.
#[tactic(auto, using(crate::proofs::Computed::terms_are_added_and_subtracted, crate::proofs::Computed::bounds_multiply_and_add, crate::proofs::Computed::an_empty_sum_makes_a_product_0))]
pub fn numbers()
    ensures terms { m.terms_are_added_and_subtracted }
    ensures bounds { m.bounds_multiply_and_add }
    ensures empty_sum { m.an_empty_sum_makes_a_product_0 }
{}

// What may be computed, and what may be compared.
#[tactic(auto, using(crate::proofs::Computed::texts_have_no_arithmetic, crate::proofs::Computed::texts_compare_with_texts_alone))]
pub fn types()
    ensures arithmetic { m.texts_have_no_arithmetic }
    ensures comparable { m.texts_compare_with_texts_alone }
{}
