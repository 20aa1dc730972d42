// What holds of closed sets of reports, and of tokens.

ghost use Rattle.letter_kinds.specs.Closed.{IsClosed, IsLargest, largest_closed};
ghost use Rattle.letter_kinds.specs.declared.note.Report.{Report};
ghost use Rattle.letter_kinds.specs.Detector.{all_acked, Detector, has, after_scan, Token};
ghost use Rattle.std.specs.Prelude.{Bool, false, filter, List, true, ℕ, ◌||◌, ◌≡◌};

/// Removal by rounds gives the largest closed set.
pub fn rounds_give_the_largest()
    ensures { (reports : List Report) → IsLargest reports (largest_closed reports) }
{}

/// There is only one largest closed set.
pub fn one_largest()
    ensures { (reports xs ys : List Report) → IsLargest reports xs → IsLargest reports ys → xs ≡ ys }
{}

/// The union of two closed sets is closed.
pub fn union_is_closed()
    ensures { (reports : List Report) (one other : Report → Bool) → IsClosed (filter one reports)
        → IsClosed (filter other reports) → IsClosed (filter (λ r. one r || other r) reports) }
{}

/// All members of a token acknowledged it exactly where each of them did.
pub fn acked_by_all_is_by_each()
    ensures each { (t : Token) → all_acked t ≡ true → (m : ℕ) → has t.members m ≡ true
        → has t.acked m ≡ true }
    ensures all { (t : Token) → ((m : ℕ) → has t.members m ≡ true → has t.acked m ≡ true)
        → all_acked t ≡ true }
{}

/// A scan leaves no news, whatever it found: it is not enabled again before a note is heard.
pub fn a_scan_leaves_no_news()
    ensures { (d : Detector) (found : List ℕ) → (after_scan d found).news ≡ false }
{}
