//! What the book of a sheet promises over several calls.
ghost use Rattle.sheet.specs.Withdrawal.{WithdrawalRestores};

/// Whatever is called between opening and withdrawing, every written set is then as it stood at the opening.
pub fn withdrawal_stands()
    ensures { WithdrawalRestores }
{}
