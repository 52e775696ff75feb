// Posting a row.
ghost use Rattle.std.specs.Prelude.{◌≡◌, ◌+◌, ◌<◌, [], ◌∷◌, ◌++◌, length, pos, ◌+ℤ◌, neg_ℤ, ◌≤ℤ◌};
ghost use Rattle.account.specs.Ledgers.{rows_of, limit_of, Modest};

use crate::ledger::Ledger;
use statement::row::Row;

// The sum of a balance and a row's cents, of which each keeps its limit.
fn plus(balance: i64, cents: i64) -> i64
    requires high { balance ≤ℤ pos 6553600000000000 }
    requires low { neg_ℤ (pos 6553600000000000) ≤ℤ balance }
    requires modest { Modest cents }
    ensures { result ≡ balance +ℤ cents }
{
    balance + cents
}

impl Ledger {
    // Posts a row, for which there is room.
    pub(crate) fn post(&mut self, row: Row)
        requires room { length (rows_of self.old) < limit_of self.old }
        requires modest { Modest row.cents }
        ensures rows { rows_of self.new ≡ rows_of self.old ++ row ∷ [] }
        ensures limit { limit_of self.new ≡ limit_of self.old }
        ensures len { length (rows_of self.new) ≡ length (rows_of self.old) + 1 }
    {
        self.balance = plus(self.balance, row.cents);
        self.rows.push_reserved(row);
    }
}
