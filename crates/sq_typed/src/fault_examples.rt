//! Small statements behind `CREATE TABLE t (a INTEGER, s VARCHAR)` that are refused or accepted, as the contracts of functions that do nothing.
//!
//! `specs/FaultExamples.antt` writes them out.
ghost use Rattle.sq_typed.specs.FaultExamples as e;
ghost use Rattle.sq_typed.specs.ProgramExamples as programs;

/// Names of relations, sources and columns.
#[tactic(auto, using(crate::proofs::FaultLemmas::fault_examples))]
pub fn names()
    ensures the_same_relation { e.the_same_relation }
    ensures the_same_source { e.the_same_source }
    ensures no_such_relation { e.no_such_relation }
    ensures no_name { e.no_name }
    ensures the_same_column { e.the_same_column }
    ensures the_same_column_of_a_table { e.the_same_column_of_a_table }
    ensures the_same_column_behind_a_star { e.the_same_column_behind_a_star }
    ensures no_such_column { e.no_such_column }
    ensures no_such_source { e.no_such_source }
    ensures a_later_source { e.a_later_source }
    ensures in_two_sources { e.in_two_sources }
{}

/// Aggregate calls and groups.
#[tactic(auto, using(crate::proofs::FaultLemmas::fault_examples))]
pub fn groups()
    ensures a_call_in_a_call { e.a_call_in_a_call }
    ensures a_call_in_where { e.a_call_in_where }
    ensures outside_groups { e.outside_groups }
    ensures a_star_outside_groups { e.a_star_outside_groups }
{}

/// Set operations, types and bounds.
#[tactic(auto, using(crate::proofs::FaultLemmas::fault_examples))]
pub fn types()
    ensures one_column_and_two { e.one_column_and_two }
    ensures a_number_compared_with_a_text { e.a_number_compared_with_a_text }
    ensures numbers_and_texts { e.numbers_and_texts }
    ensures a_sum_with_a_text { e.a_sum_with_a_text }
    ensures a_sum_of_texts { e.a_sum_of_texts }
    ensures too_wide { e.too_wide }
    ensures as_wide_as_it_goes { e.as_wide_as_it_goes }
{}

/// As many sources as there may be, and one more.
#[tactic(auto, using(crate::proofs::FaultLemmas::fault_examples))]
pub fn limits()
    ensures too_many_sources { e.too_many_sources }
    ensures as_many_sources_as_there_may_be { e.as_many_sources_as_there_may_be }
{}

/// Statements with two kinds of faults are refused for the first.
#[tactic(auto, using(crate::proofs::FaultLemmas::fault_examples))]
pub fn first_kinds()
    ensures name_before_relation { e.name_before_relation }
    ensures relation_before_unnamed { e.relation_before_unnamed }
    ensures unnamed_before_duplicate { e.unnamed_before_duplicate }
    ensures duplicate_before_unknown { e.duplicate_before_unknown }
    ensures unknown_before_ambiguous { e.unknown_before_ambiguous }
    ensures ambiguous_before_nested { e.ambiguous_before_nested }
    ensures nested_before_grouped { e.nested_before_grouped }
    ensures grouped_before_count { e.grouped_before_count }
    ensures count_before_type { e.count_before_type }
    ensures type_before_width { e.type_before_width }
    ensures width_before_limit { e.width_before_limit }
{}

/// What a grouped block with a left join means, and a star over a set operation.
#[tactic(auto, using(crate::proofs::ProgramExampleLemmas::program_examples))]
pub fn meanings()
    ensures a_grouped_block { programs.a_grouped_block }
    ensures a_star_over_a_union { programs.a_star_over_a_union }
{}
