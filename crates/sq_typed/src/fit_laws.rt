//! What holds of queries and programs that fit, each as the contract of a function that does nothing.
ghost use Rattle.std.specs.Prelude.{◌≡◌, ◌≤◌, ◌↔◌, ◌^◌, Bool, false, true, Option, List, [], None as Nothing, Some, flat_map, length, map, option_to_list};
ghost use Rattle.std.specs.List.{AllByRecursion, list_any};
ghost use Rattle.sq_token.specs.declared.token.Token.{Token as SpelledToken};
ghost use Rattle.sq_ast.specs.Spelling.{Spells};
ghost use Rattle.sq_ast.specs.declared.statement.Statement.{Statement as StatementTree};
ghost use Rattle.sq_expr.specs.declared.cond.Cond.{Cond as Condition};
ghost use Rattle.sq_expr.specs.declared.expr.Expr.{Expr as Expression};
ghost use Rattle.sq_expr.specs.declared.expr.Kind.{Kind as ColumnKind};
ghost use Rattle.sq_typed.specs.declared.query.Grouping.{Grouping as Groups};
ghost use Rattle.sq_typed.specs.declared.query.Query.{Query as Selection};
ghost use Rattle.sq_expr.specs.Fits.{Suits, SuitsCond};
ghost use Rattle.sq_typed.specs.declared.query.Block.{Block as Selected, out-Block};
ghost use Rattle.sq_typed.specs.declared.query.Query.TheVariants as query;
ghost use Rattle.sq_typed.specs.Blocks.{block_answer, item_rows, selected};
ghost use Rattle.sq_typed.specs.Checked.{IsChecked};
ghost use Rattle.sq_typed.specs.Faults.{refused};
ghost use Rattle.sq_typed.specs.Fit.{AreAllOfKinds, ArgumentSuits, CallsAreInRange, Fits, GivesItsKinds, HoldsKinds, IsGroupedBy, ItemsAreInRange, Pairwise, ProgramFits, SourceGivesKinds, ViewsAreOfKinds};
ghost use Rattle.sq_typed.specs.Fit.{group_kinds, grouped_kinds, item_row_kinds, kinded_source, kinds_given, source_kinds, sources_fit, suits, suits_cond};
ghost use Rattle.sq_typed.specs.FitExamples as examples;
ghost use Rattle.sq_typed.specs.From.{Row, Source, from, kept, stages};
ghost use Rattle.sq_typed.specs.Laws.{QueriesFit, TablesFit};
ghost use Rattle.sq_typed.specs.Numbered.{kind_of};
ghost use Rattle.sq_typed.specs.Programs.{program_of};
ghost use Rattle.sq_typed.specs.Queries.{Contents, answer, has_range_fault, is_crowded};
ghost use Rattle.sq_typed.specs.Relations.{columns_given};
ghost use Rattle.sq_typed.specs.Tables.{Tables};
ghost use Rattle.sq_typed.specs.Views.{Meant};
ghost use Rattle.sq_typed.specs.Within.{AreAsWide, BlockOf, IsViewOver, KeepsAllEarly, left_pairs, with_pairs};
ghost use Rattle.sq_typed.specs.Written.{AllWritten};

/// The tests of what fits are exact: an expression or a condition passes if it has a type and is computed in 128 bits. In
/// a block that fits, the sources fit with their conditions of ON; WHERE and the arguments of calls suit the columns of all
/// sources, HAVING suits the group row, and the items suit the columns of the row that they are over.
#[tactic(auto, using(crate::proofs::FitTests::what_suits))]
pub fn what_fits_suits()
    ensures expression { (kinds : List ColumnKind) (e : Expression) → (suits kinds e ≡ true) ↔ Suits kinds e }
    ensures condition { (kinds : List ColumnKind) (c : Condition) → (suits_cond kinds c ≡ true) ↔ SuitsCond kinds c }
    ensures filter { (relations : List (List ColumnKind)) (b : Selected) → Fits relations (query.Block b) →
        AllByRecursion (SuitsCond (source_kinds relations b)) (option_to_list (out-Block b).filter) }
    ensures items { (relations : List (List ColumnKind)) (b : Selected) → Fits relations (query.Block b) →
        AllByRecursion (Suits (item_row_kinds (source_kinds relations b) (out-Block b).grouping)) (out-Block b).items }
    ensures sources { (relations : List (List ColumnKind)) (b : Selected) → Fits relations (query.Block b) → sources_fit [] (map (kinded_source relations) (out-Block b).sources) ≡ true }
    ensures having { (relations : List (List ColumnKind)) (b : Selected) → Fits relations (query.Block b) → (g : Groups) → IsGroupedBy b g →
        AllByRecursion (SuitsCond (group_kinds relations b g)) (option_to_list g.having) }
    ensures arguments { (relations : List (List ColumnKind)) (b : Selected) → Fits relations (query.Block b) → (g : Groups) → IsGroupedBy b g →
        AllByRecursion (ArgumentSuits (source_kinds relations b)) g.calls }
{}

/// The rows of FROM and those that WHERE keeps are of the kinds of all sources, one behind the other. If no tested number
/// is outside BIGINT, the rows of groups of at most 2^61 rows are of the kinds of the group row, and each item is of its kind.
#[tactic(auto, using(crate::proofs::FitRows::rows_of_from, crate::proofs::FitRows::rows_of_where, crate::proofs::FitRows::rows_of_groups_are, crate::proofs::FitRows::rows_of_items))]
pub fn rows_of_blocks_are_of_kinds()
    ensures joined { (sources : List Source) (kinds : List (List ColumnKind)) → Pairwise SourceGivesKinds sources kinds → AreAllOfKinds (from sources) (flat_map (λ ks. ks) kinds) }
    ensures kept { (conds : List Condition) (sources : List Source) (kinds : List (List ColumnKind)) → Pairwise SourceGivesKinds sources kinds → AreAllOfKinds (kept conds sources) (flat_map (λ ks. ks) kinds) }
    ensures grouped { (kinds : List ColumnKind) (g : Groups) (rows : List Row) → length rows ≤ 2 ^ 61 → AreAllOfKinds rows kinds →
        CallsAreInRange g rows → AreAllOfKinds (item_rows (Some g) rows) (grouped_kinds kinds g) }
    ensures items { (kinds : List ColumnKind) (items : List Expression) (rows : List Row) → AreAllOfKinds rows kinds →
        ItemsAreInRange items rows → AreAllOfKinds (selected items rows) (map (kind_of kinds) items) }
{}

/// A query that fits relations with rows of their kinds gives rows of its kinds, if nothing of it is out of range.
pub fn rows_of_queries_are_of_kinds()
    ensures { (relations : List Contents) (kinds : List (List ColumnKind)) → Pairwise HoldsKinds relations kinds → (q : Selection) → Fits kinds q →
        has_range_fault (answer relations q) ≡ false → GivesItsKinds relations kinds q }
{}

/// A query that fits gives as many columns as it has kinds.
#[tactic(auto, using(crate::proofs::FitPrograms::columns_counted, crate::proofs::FitPrograms::queries_fit))]
pub fn what_fits_is_as_wide()
    ensures query { (kinds : List (List ColumnKind)) (q : Selection) → Fits kinds q → columns_given (map length kinds) q ≡ Some (length (kinds_given kinds q)) }
    ensures program { (p : Meant) → ProgramFits [] p.queries p.catalog → QueriesFit [] p.queries p.catalog }
{}

/// If each view's query fits, the tables hold rows of their kinds and all views can be shown, the rows of each view are of
/// the kinds of its columns.
#[tactic(auto, using(crate::proofs::FitPrograms::views_are_of_kinds))]
pub fn rows_of_views_are_of_kinds()
    ensures { (p : Meant) (tables : Tables) → ProgramFits [] p.queries p.catalog → ViewsAreOfKinds p tables }
{}

/// Statements that tokens spell and of which none has a fault mean a program whose queries fit, and give as many columns as the
/// views have. Over tables that hold rows of their kinds, and if all views can be shown, the rows of each view are of the
/// kinds of its columns.
#[tactic(auto, using(crate::proofs::FitStatements::spelled_fits))]
pub fn accepted_statements_fit()
    ensures written { (tokens : List SpelledToken) (statements : List StatementTree) → Spells tokens statements → AllWritten statements }
    ensures trees { (statements : List StatementTree) → AllWritten statements → refused statements ≡ Nothing → ProgramFits [] (program_of statements).queries (program_of statements).catalog }
    ensures fits { (tokens : List SpelledToken) (statements : List StatementTree) → Spells tokens statements → refused statements ≡ Nothing → ProgramFits [] (program_of statements).queries (program_of statements).catalog }
    ensures widths { (tokens : List SpelledToken) (statements : List StatementTree) → Spells tokens statements → refused statements ≡ Nothing → QueriesFit [] (program_of statements).queries (program_of statements).catalog }
    ensures rows { (tokens : List SpelledToken) (statements : List StatementTree) → Spells tokens statements → refused statements ≡ Nothing → (tables : Tables) →
        ViewsAreOfKinds (program_of statements) tables }
{}

/// The queries of a checked program fit.
#[tactic(auto, using(crate::proofs::CheckedFits::checked_fits))]
pub fn checked_programs_fit()
    ensures { (p : Meant) → IsChecked p → ProgramFits [] p.queries p.catalog }
{}

/// Each block of a query that fits fits, at any depth. Over relations whose rows have their width, the rows that its WHERE keeps are
/// those that go on from its last source, if each member applies as soon as the sources whose columns it names are joined.
#[tactic(auto, using(crate::proofs::WithinLemmas::blocks_fit, crate::proofs::WithinLemmas::blocks_keep_early))]
pub fn blocks_of_queries_keep_early()
    ensures fit { (kinds : List (List ColumnKind)) (q : Selection) (b : Selected) → BlockOf q b → Fits kinds q → Fits kinds (query.Block b) }
    ensures early { (relations : List Contents) (kinds : List (List ColumnKind)) → AreAsWide relations kinds → (q : Selection) → Fits kinds q → KeepsAllEarly relations q }
{}

/// In each block of each view of an accepted program, over tables whose rows have their width, the rows that WHERE keeps are those
/// that go on from the last source, if each member applies as soon as the sources whose columns it names are joined.
pub fn accepted_programs_keep_early()
    ensures { (p : Meant) (tables : Tables) → IsChecked p → TablesFit tables p.catalog →
        (relations : List Contents) (q : Selection) → IsViewOver p tables relations q → KeepsAllEarly relations q }
{}

/// The pairs of a left join on which its ON is True are among its joined rows. So if they are counted as a place of their own, no
/// more blocks are out of range: they exceed 2^61 rows only if the rows of some source do.
#[tactic(auto, using(crate::proofs::WithinLemmas::pairs_are_crowded))]
pub fn pairs_of_left_joins_change_no_verdict()
    ensures crowded { (conds : List Condition) (sources : List Source) → list_any is_crowded (left_pairs conds sources) ≡ true → list_any is_crowded (map (λ s. s.0) (stages conds sources)) ≡ true }
    ensures verdict { (d : Bool) (sources : List Source) (w : Option Condition) (g : Option Groups) (items : List Expression) →
        has_range_fault (with_pairs d sources w g items) ≡ has_range_fault (block_answer d sources w g items) }
{}

/// Small queries that fit a table of an `INTEGER` and a text, or don't, as `specs/FitExamples.antt` writes them.
#[tactic(auto, using(crate::proofs::FitExampleLemmas::fit_examples))]
pub fn fitting_examples()
    ensures columns_fit { examples.columns_fit }
    ensures a_group_fits { examples.a_group_fits }
    ensures a_union_is_wider { examples.a_union_is_wider }
    ensures no_such_relation { examples.no_such_relation }
    ensures no_such_column { examples.no_such_column }
    ensures no_source { examples.no_source }
    ensures a_later_source { examples.a_later_source }
    ensures a_sum_of_texts { examples.a_sum_of_texts }
    ensures numbers_and_texts { examples.numbers_and_texts }
    ensures one_column_and_two { examples.one_column_and_two }
{}
