//! Small programs whose queries are written out by hand, computed by the definitions, as the contracts of functions that do nothing.
//!
//! `specs/Examples.antt` writes them out.
ghost use Rattle.sq_typed.specs.Examples as e;

/// Aggregates over all rows and over groups, and a SUM that BIGINT cannot hold.
#[tactic(auto, using(crate::proofs::ExampleLemmas::examples))]
pub fn aggregates()
    ensures a_global_aggregate_has_a_row { e.a_global_aggregate_has_a_row }
    ensures a_global_aggregate_counts { e.a_global_aggregate_counts }
    ensures a_great_sum_is_shown { e.a_great_sum_is_shown }
    ensures a_greater_sum_is_refused { e.a_greater_sum_is_refused }
    ensures no_sum_is_null { e.no_sum_is_null }
    ensures having_drops_a_group { e.having_drops_a_group }
    ensures its_sum_is_refused_all_the_same { e.its_sum_is_refused_all_the_same }
    ensures groups_have_a_least_and_a_greatest { e.groups_have_a_least_and_a_greatest }
    ensures the_greatest_is_taken_away { e.the_greatest_is_taken_away }
    ensures no_row_is_no_group { e.no_row_is_no_group }
{}

/// Items that BIGINT cannot hold, and conditions, which are exact.
#[tactic(auto, using(crate::proofs::ExampleLemmas::examples))]
pub fn numbers()
    ensures an_item_is_refused { e.an_item_is_refused }
    ensures a_condition_is_not { e.a_condition_is_not }
    ensures a_condition_is_exact { e.a_condition_is_exact }
{}

/// UNION ALL, UNION, and a chain of three.
#[tactic(auto, using(crate::proofs::ExampleLemmas::examples))]
pub fn set_operations()
    ensures union_all_keeps_repeats { e.union_all_keeps_repeats }
    ensures union_keeps_none { e.union_keeps_none }
    ensures a_chain_goes_from_the_left { e.a_chain_goes_from_the_left }
{}

/// What NULL equals: nothing in a join, and NULL in a group, among distinct rows and in set operations.
#[tactic(auto, using(crate::proofs::ExampleLemmas::examples))]
pub fn nulls()
    ensures nulls_do_not_join { e.nulls_do_not_join }
    ensures nulls_are_one_group { e.nulls_are_one_group }
    ensures nulls_are_one_distinct_row { e.nulls_are_one_distinct_row }
    ensures nulls_are_common { e.nulls_are_common }
    ensures nulls_are_taken_away { e.nulls_are_taken_away }
{}

/// Inner joins, a table with itself, left joins, and conditions in ON and in WHERE.
#[tactic(auto, using(crate::proofs::ExampleLemmas::examples))]
pub fn joins()
    ensures a_join_needs_both { e.a_join_needs_both }
    ensures a_join_pairs { e.a_join_pairs }
    ensures a_table_joins_itself { e.a_table_joins_itself }
    ensures a_table_joins_itself_later { e.a_table_joins_itself_later }
    ensures a_left_row_is_padded { e.a_left_row_is_padded }
    ensures a_left_row_with_a_match_is_not { e.a_left_row_with_a_match_is_not }
    ensures where_joins { e.where_joins }
    ensures where_drops_padded_rows { e.where_drops_padded_rows }
    ensures on_keeps_padded_rows { e.on_keeps_padded_rows }
{}

/// Pairs of two views, and a shop, with a view over a view.
#[tactic(auto, using(crate::proofs::ExampleLemmas::examples))]
pub fn views_over_views()
    ensures views_are_paired { e.views_are_paired }
    ensures the_shop_has_revenue { e.the_shop_has_revenue }
    ensures the_shop_has_large_customers { e.the_shop_has_large_customers }
    ensures the_shop_has_idle_customers { e.the_shop_has_idle_customers }
{}

/// Tables after updates, and deletes whose row is not there.
#[tactic(auto, using(crate::proofs::ExampleLemmas::examples))]
pub fn updates()
    ensures updates_are_made_in_order { e.updates_are_made_in_order }
    ensures an_insert_is_taken_back { e.an_insert_is_taken_back }
    ensures a_delete_finds_no_row { e.a_delete_finds_no_row }
    ensures a_second_delete_finds_no_row { e.a_second_delete_finds_no_row }
{}
