//! What the bound of a search comes to.

ghost use Rattle.std.specs.Prelude.{◌+◌, ◌*◌, ◌≤◌, ℕ, List, length};
ghost use Rattle.cfs_file.specs.declared.span.Span.{Span};
ghost use Rattle.cfs_tree.specs.Spans.{IsWithinBound, overlap_count};

/// Of at most 200 spans, a search takes 16 steps at most, and 16 more for each span that the asked
/// one overlaps: 32 where it is one, 176 where they are ten.
pub fn bound_of_two_hundred()
    ensures { (spans : List (ℕ × Span)) (asked : Span) (steps : ℕ) → length spans ≤ 200 →
        IsWithinBound spans asked steps → steps ≤ (overlap_count asked spans + 1) * 16 }
{}
