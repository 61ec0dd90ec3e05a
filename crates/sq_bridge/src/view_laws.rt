//! The views of a program as operators over its tables.
ghost use Rattle.std.specs.Prelude.{◌≡◌, ◌≤◌, [], length, map};
ghost use Rattle.std.specs.List.{AllByRecursion};
ghost use Rattle.sq_typed.specs.Checked.{IsChecked};
ghost use Rattle.sq_typed.specs.Fit.{Pairwise, ProgramFits, TablesAreOfKinds};
ghost use Rattle.sq_typed.specs.Sizes.{AreNarrow};
ghost use Rattle.sq_typed.specs.Tables.{Tables};
ghost use Rattle.sq_typed.specs.Views.{Meant, verdict, views};
ghost use Rattle.sq_typed.specs.declared.limits.TheConstants.{MOST_STATEMENTS};
ghost use Rattle.sq_bridge.specs.Meaning.{Begins, IsWorth};
ghost use Rattle.sq_bridge.specs.Rows.{listed};
ghost use Rattle.sq_bridge.specs.Small.{HasSmallBlocks};
ghost use Rattle.sq_bridge.specs.Views.{node_verdict, view_nodes};

/// Over tables that hold rows of their kinds, the node of each view of a program that fits is the Z-set of the view's list, whether or
/// not something is out of range; and the first node with a fault is the first view that is out of range.
pub fn views_are_operators()
    ensures views { (p : Meant) (tables : Tables) → ProgramFits [] p.queries p.catalog → AllByRecursion Begins p.queries → TablesAreOfKinds tables p.catalog
        → Pairwise IsWorth (view_nodes p (map listed tables)) (views p tables) }
    ensures verdict { (p : Meant) (tables : Tables) → ProgramFits [] p.queries p.catalog → AllByRecursion Begins p.queries → TablesAreOfKinds tables p.catalog
        → node_verdict p (map listed tables) ≡ verdict p tables }
{}

/// Each block of a checked program begins with a comma.
pub fn checked_programs_begin_with_commas()
    ensures { (p : Meant) → IsChecked p → AllByRecursion Begins p.queries }
{}

/// A checked program is small: each block of its queries, at any depth, has at most 64 items and 16 sources, and its group columns and
/// calls are numbered in 32 bits; each relation has at most 64 columns, and there are at most 256.
pub fn checked_programs_are_small()
    ensures blocks { (p : Meant) → IsChecked p → AllByRecursion HasSmallBlocks p.queries }
    ensures columns { (p : Meant) → IsChecked p → AreNarrow p.catalog }
    ensures relations { (p : Meant) → IsChecked p → length p.catalog ≤ MOST_STATEMENTS }
{}

/// So over tables that hold rows of their kinds, the view nodes of a checked program are the Z-sets of its views' lists, and the first
/// with a fault is its verdict.
pub fn checked_programs_are_operators()
    ensures views { (p : Meant) (tables : Tables) → IsChecked p → TablesAreOfKinds tables p.catalog → Pairwise IsWorth (view_nodes p (map listed tables)) (views p tables) }
    ensures verdict { (p : Meant) (tables : Tables) → IsChecked p → TablesAreOfKinds tables p.catalog → node_verdict p (map listed tables) ≡ verdict p tables }
{}
