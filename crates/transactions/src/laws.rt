//! Laws of transactions. The function does nothing; its contract is the laws.
ghost use Rattle.transactions.specs.Stands.{ReadsAreRead, NewStandForNew, StagesStand, EndsStand};

use hse_rows::{Shared, normal_forms_do_the_same};

/// A transaction that stands for one of the machine reads what that does, and begins, writes and ends
/// as that does.
pub fn transactions_stand<R: Shared>()
    ensures reads { ReadsAreRead R R.rows }
    ensures begins { NewStandForNew R R.rows }
    ensures stages { StagesStand R R.rows }
    ensures ends { EndsStand R R.rows }
{
    normal_forms_do_the_same();
}
