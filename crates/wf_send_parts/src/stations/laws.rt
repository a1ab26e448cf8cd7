//! Laws about the definitions of counts.

ghost use Rattle.std.specs.Prelude.{◌≡◌, ℕ, suc};
ghost use Rattle.wf_frame.specs.declared.classes.Fate.{Fate};
ghost use Rattle.wf_send_parts.specs.Tally.{Counts, many_settled_as, settled_as};

/// Settling many frames at once is the same as settling them one by one: none changes no count, and one more
/// adds one.
pub fn many_settle_one_by_one()
    ensures none { (fate : Fate) (c : Counts) → many_settled_as fate 0 c ≡ c }
    ensures one_more { (fate : Fate) (n : ℕ) (c : Counts) →
        many_settled_as fate (suc n) c ≡ settled_as fate (many_settled_as fate n c) }
{}
