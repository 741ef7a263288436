//! What normal forms are and what they take.
ghost use Rattle.hse_rows.specs.laws.Orderly.{NormalFormsAreInOrder};
ghost use Rattle.hse_rows.specs.laws.ChargeLaw.{ChargesGrowByTheChangeAtMost};

/// A normal form has the writes that no later one hides, each as often as they do, strictly in
/// order. The function does nothing; its contract is the law.
pub fn normal_forms_are_in_order()
    ensures { NormalFormsAreInOrder }
{}

/// One more write raises the charge of a normal form by the write's bytes at most. The function
/// does nothing; its contract is the law.
pub fn charges_grow_by_the_change_at_most()
    ensures { ChargesGrowByTheChangeAtMost }
{}
